//! An object of a fake.

ghost use Rattle.std.specs.Prelude.{◌≡◌, MatchResult, IfOk, nat_eq};
ghost use Rattle.std.specs.Option.{option_copied};
ghost use Rattle.std.specs.List.{list_any, filter};
ghost use Rattle.std.specs.Cmp.Lexicographic.{pointwise};
ghost use Rattle.sb_world.specs.Folders.{SparesOthers};
ghost use Rattle.sb_fakes.specs.Objects.{bodies_of, is_other, HasBody};

use sb_base::Text;
use std::alloc::{AllocError, Global};

/// An object of a store, or a file of a folder.
#[derive(Drop)]
pub struct Object<X = Text> {
    pub name: Text,
    pub body: X,
}

/// The body of the first object of a name.
pub(crate) fn body_of<'a, X>(objects: &'a [Object<X>], name: &[u8]) -> Option<&'a X>
    ensures { option_copied result ≡ bodies_of objects.now name.now }
{
    for object in objects {
        if object.name.bytes() == name {
            return Some(&object.body);
        }
    }
    None
}

/// Puts an object in front of those of its name, which no call finds any more.
pub(crate) fn put<X: Drop>(
    objects: &mut Vec<Object<X>>,
    name: Text,
    body: X,
) -> Result<(), AllocError>
    ensures { MatchResult result
        (λ _. HasBody name body (bodies_of objects.old.items) (bodies_of objects.new.items))
        (λ _. objects.new.items ≡ objects.old.items) }
{
    objects.insert(0, Object { name, body })?;
    Ok(())
}

/// Takes the objects of a name away.
pub(crate) fn take_away<X: Drop>(objects: &mut Vec<Object<X>>, name: &[u8])
    ensures { objects.new.items ≡ filter (is_other name.now) objects.old.items }
{
    objects.retain(|object| object.name.bytes() != name);
}
