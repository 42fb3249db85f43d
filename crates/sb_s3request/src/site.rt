//! Where a bucket is.

ghost use Rattle.std.specs.Prelude.{◌≡◌, IfOk};
ghost use Rattle.sb_s3request.specs.Sites.{host_of, path_of};

use sb_base::Text;
use std::alloc::{AllocError, Global};

/// A bucket at a host and a TCP port. With `vhost` the bucket is named in the host, else in the path.
#[derive(Drop)]
pub struct Site {
    pub host: Text,
    pub port: u16,
    pub bucket: Text,
    pub vhost: bool,
}

/// The value of the header `host`.
pub(crate) fn host_of(alloc: Global, site: &Site) -> Result<Text, AllocError>
    ensures { IfOk result (λ text. text ≡ host_of site.now) }
{
    let mut text = Vec::new(alloc);
    if site.vhost {
        text.extend_from_slice(site.bucket.bytes())?;
        text.extend_from_slice(b".")?;
    }
    text.extend_from_slice(site.host.bytes())?;
    if site.port != 80 {
        let mut digits = itoa::Buffer::new();
        text.extend_from_slice(b":")?;
        text.extend_from_slice(digits.format(site.port).as_bytes())?;
    }
    Ok(Text::from_vec(text))
}

/// The path of an object before it is encoded, or with no name that of the bucket.
pub(crate) fn path_of(alloc: Global, site: &Site, name: &[u8]) -> Result<Text, AllocError>
    ensures { IfOk result (λ path. path ≡ path_of site.now name.now) }
{
    let mut path = Vec::from_slice(alloc, b"/")?;
    if !site.vhost {
        path.extend_from_slice(site.bucket.bytes())?;
        path.extend_from_slice(b"/")?;
    }
    path.extend_from_slice(name)?;
    Ok(Text::from_vec(path))
}
