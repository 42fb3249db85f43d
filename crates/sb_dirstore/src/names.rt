//! The names of a folder's files.

ghost use Rattle.std.specs.Prelude.{◌≡◌, OnOk};
ghost use Rattle.sb_dirstore.specs.Objects as objects;
ghost use Rattle.sb_dirstore.specs.Objects.{temporary_of};

use std::alloc::AllocError;

/// What the name of a temporary file ends in.
const TEMPORARY: &[u8] = b".tmp";

/// Tells whether a name is the folder's own, and no object's.
pub fn is_temporary(name: &[u8]) -> bool
    ensures { result ≡ objects.is_temporary name.now }
{
    name.ends_with(TEMPORARY)
}

/// Makes `place` the name of an object's temporary file.
pub(crate) fn place_temporary(name: &[u8], place: &mut Vec<u8>) -> Result<(), AllocError>
    ensures { OnOk result (place.new.items ≡ temporary_of name.now) }
{
    place.clear();
    place.extend_from_slice(name)?;
    place.extend_from_slice(TEMPORARY)
}
