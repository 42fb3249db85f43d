//! The pages of a folder's objects.

ghost use Rattle.std.specs.Prelude.{◌≡◌, filter};
ghost use Rattle.sb_world.specs.Folders.{Files, HasNames};
ghost use Rattle.sb_pages.specs.Listings.{IsPage};
ghost use Rattle.sb_dirstore.specs.Objects.{is_object_name, objects_of};

use crate::names::is_temporary;
use sb_base::Text;
use sb_pages::next_page;
use sb_world::Page;

/// Makes the next page of all names of a folder, and answers whether more follow. It takes no memory.
pub(crate) fn keep_page(prefix: &[u8], marker: &[u8], page: &mut Page) -> bool
    ensures { (files : Files) → HasNames page.old files →
        IsPage prefix.now marker.now page.new result (objects_of files) }
{
    drop_temporary(&mut page.keys);
    next_page(prefix, marker, page)
}

/// Drops the names that are the folder's own.
fn drop_temporary(names: &mut Vec<Text>)
    ensures { names.new.items ≡ filter is_object_name names.old.items }
{
    names.retain(|name| !is_temporary(name.bytes()));
}
