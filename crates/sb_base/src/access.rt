//! Where a disk's objects are kept, and by which key they are reached.

ghost use Rattle.std.specs.Prelude.{◌≡◌, IfOk};

use crate::text::Text;
use std::alloc::{AllocError, Global};

/// The key by which an S3 store is reached.
#[derive(Drop)]
pub enum Access {
    /// An access id and its secret key.
    Given { id: Text, key: Text },
    /// The file that has the key, of this id or else its first.
    File { path: Text, id: Option<Text> },
}

/// The store of a disk.
#[derive(Drop)]
pub enum StorePlan {
    /// The files of a directory.
    Dir {
        path: Text,
    },
    /// A bucket at a server. `region` is the one in the signature. The pauses are milliseconds: the first one before a
    /// request is tried again, and the sum of all.
    S3 {
        host: Text,
        port: u16,
        bucket: Text,
        vhost: bool,
        region: Text,
        access: Access,
        first_pause: u32,
        total_pause: u32,
    },
}

impl Access {
    /// The same key once more.
    pub fn copy(&self, alloc: Global) -> Result<Access, AllocError>
        ensures { IfOk result (λ copy. copy ≡ self.now) }
    {
        match self {
            Access::Given { id, key } => Ok(Access::Given {
                id: id.copy(alloc)?,
                key: key.copy(alloc)?,
            }),
            Access::File { path, id } => Ok(Access::File {
                path: path.copy(alloc)?,
                id: match id {
                    Some(id) => Some(id.copy(alloc)?),
                    None => None,
                },
            }),
        }
    }
}

impl StorePlan {
    /// The same store once more.
    pub fn copy(&self, alloc: Global) -> Result<StorePlan, AllocError>
        ensures { IfOk result (λ copy. copy ≡ self.now) }
    {
        match self {
            StorePlan::Dir { path } => Ok(StorePlan::Dir {
                path: path.copy(alloc)?,
            }),
            StorePlan::S3 {
                host,
                port,
                bucket,
                vhost,
                region,
                access,
                first_pause,
                total_pause,
            } => Ok(StorePlan::S3 {
                host: host.copy(alloc)?,
                port: *port,
                bucket: bucket.copy(alloc)?,
                vhost: *vhost,
                region: region.copy(alloc)?,
                access: access.copy(alloc)?,
                first_pause: *first_pause,
                total_pause: *total_pause,
            }),
        }
    }
}
