//! The pages of a listing.
//!
//! A page has at most 1,000 names in byte order, the first of those that begin with a prefix and stand after a marker.
#![tactic(auto)]

ghost use Rattle.std.specs.Prelude.{◌≡◌, filter, IsPermutation, IsSorted};
ghost use Rattle.std.specs.Ordering.{nat_cmp};
ghost use Rattle.std.specs.Cmp.Lexicographic.{slice_cmp};
ghost use Rattle.sb_world.specs.Folders.{Files, HasNames};
ghost use Rattle.sb_pages.specs.Listings as listings;
ghost use Rattle.sb_pages.specs.Listings.{IsPage};

use sb_base::Text;
use sb_world::Page;

/// How many names a page has at most.
pub const PAGE_NAMES: usize = 1000;

/// Makes the next page of the names of all objects, and answers whether more follow. It takes no memory.
pub fn next_page(prefix: &[u8], marker: &[u8], page: &mut Page) -> bool
    ensures { (objects : Files) → HasNames page.old objects →
        IsPage prefix.now marker.now page.new result objects }
{
    keep_asked_for(prefix, marker, &mut page.keys);
    sort(&mut page.keys);
    let more = page.keys.len() > PAGE_NAMES;
    page.keys.truncate(PAGE_NAMES);
    more
}

/// Drops the names that a listing isn't asked for.
fn keep_asked_for(prefix: &[u8], marker: &[u8], names: &mut Vec<Text>)
    ensures { names.new.items ≡ filter (listings.is_asked_for prefix.now marker.now) names.old.items }
{
    names.retain(|name| is_asked_for(prefix, marker, name.bytes()));
}

/// Tells whether a name begins with the prefix and stands after the marker.
fn is_asked_for(prefix: &[u8], marker: &[u8], name: &[u8]) -> bool
    ensures { result ≡ listings.is_asked_for prefix.now marker.now name.now }
{
    name.starts_with(prefix) && name > marker
}

/// Puts names in byte order.
fn sort(names: &mut Vec<Text>)
    ensures moved { IsPermutation names.old.items names.new.items }
    ensures sorted { IsSorted (slice_cmp nat_cmp) names.new.items }
{
    names.sort_unstable_by(|left, right| left.bytes().cmp(right.bytes()));
}
