//! What a server serves, and the disk that is made for it.

ghost use Rattle.std.specs.Prelude.{IfOk};
ghost use Rattle.sb_server.specs.Mounts.{CanBeServed, IsNewDisk};

use sb_base::{Geometry, Settings, StorePlan, Text};
use sb_core::Core;
use sb_crew::{Disk, Names};
use sb_turn::Pass;
use sb_world::Meta;
use sb_zero::Zeros;
use std::alloc::{AllocError, Global};

/// The disk that a server serves, and where. Its settings say how many clients and workers it has.
#[derive(Drop)]
pub struct Mount {
    pub store: StorePlan,
    /// What the name of each object begins with.
    pub prefix: String,
    /// Whether a hash stands before a block's number.
    pub hashed: bool,
    pub geometry: Geometry,
    pub settings: Settings,
    /// Whether each write is refused.
    pub read_only: bool,
    /// Where each client listens, `HOST:PORT` or a port alone.
    pub address: Text,
    /// How many connections are accepted in all, any number where it is 0.
    pub connections: u32,
}

impl Mount {
    /// A disk to which nothing has happened, and its first pass.
    pub fn make_disk(&self, alloc: Global) -> Result<(Disk, Pass<Core>), AllocError>
        requires { CanBeServed self.now }
        ensures { IfOk result (λ made. IsNewDisk self.now made.0 made.1) }
    {
        let zeros = Zeros::new(alloc, self.geometry.blocks)?;
        let core = Core::new(alloc, self.geometry, self.settings, zeros)?;
        let names = Names {
            prefix: String::from_str(alloc, self.prefix.as_str())?,
            hashed: self.hashed,
            meta: Meta {
                size: self.geometry.size(),
                block_size: self.geometry.block_size,
            },
        };
        let made = Disk::new(alloc, core, names)?;
        Ok(made)
    }
}
