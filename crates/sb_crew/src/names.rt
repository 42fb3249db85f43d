//! The names of a disk's objects.

ghost use Rattle.std.specs.Prelude.{◌≡◌, ◌≤◌, length, Some};
ghost use Rattle.sb_names.specs.declared.names.TheConstants.{MAX_PREFIX, MAX_NAME};
ghost use Rattle.sb_history.specs.Requests.{meta_of};
ghost use Rattle.sb_crew.specs.Names.{name_of};

use sb_names::{MAX_NAME, place_name};
use sb_world::Meta;
use std::marker::Model;

/// How a disk names its objects, and the sizes that its first block's object carries.
#[derive(Drop)]
pub struct Names {
    /// What each name begins with.
    pub prefix: String,
    /// Whether a name has a hash before the block's digits.
    pub hashed: bool,
    /// What each put of block 0 carries, and no other put does.
    pub meta: Meta,
}

impl Model for Names {
    ghost use Rattle.std.specs.Prelude.{string_bytes};
    ghost use Rattle.sb_crew.specs.Names.{Naming};

    ghost Value = { Naming };

    ghost view = { λ names. record { prefix = string_bytes names.prefix; hashed = names.hashed; meta = names.meta } };
}

impl Names {
    /// Places the name of a block's object at the front of `room`. It takes no memory.
    pub(crate) fn place<'a>(&self, block: u32, room: &'a mut [u8; MAX_NAME]) -> &'a [u8]
        requires { length self.now.prefix ≤ MAX_PREFIX }
        ensures { result.now ≡ name_of self.now block }
    {
        let end = place_name(self.prefix.as_str(), block, self.hashed, room);
        &room[..end]
    }

    /// What a put of a block carries.
    pub(crate) fn carried(&self, block: u32) -> Option<Meta>
        ensures { result ≡ meta_of (Some self.now.meta) block }
    {
        if block == 0 { Some(self.meta) } else { None }
    }
}
