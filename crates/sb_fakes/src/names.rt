//! The names of all objects.

ghost use Rattle.std.specs.Prelude.{◌≡◌, IfOk};
ghost use Rattle.sb_fakes.specs.Names as listed;
ghost use Rattle.sb_fakes.specs.Names.{AreNames};

use crate::object::Object;
use sb_base::Text;
use std::alloc::{AllocError, Global};

/// Whether a name is among these.
pub(crate) fn is_among(name: &[u8], names: &[Text]) -> bool
    ensures { result ≡ listed.is_among name.now names.now }
{
    for other in names {
        if name == other.bytes() {
            return true;
        }
    }
    false
}

/// The names of all objects, each once.
pub(crate) fn names_of<X>(alloc: Global, objects: &[Object<X>]) -> Result<Vec<Text>, AllocError>
    ensures { IfOk result (λ names. AreNames names.items objects.now) }
{
    let mut names = Vec::new(alloc);
    for object in objects {
        if !is_among(object.name.bytes(), &names) {
            names.push(object.name.copy(alloc)?)?;
        }
    }
    Ok(names)
}
