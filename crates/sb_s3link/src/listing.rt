//! Reading listings.

ghost use Rattle.std.specs.Prelude.{◌≡◌, ◌≤◌, IsTrue, codes, length};
ghost use Rattle.sb_s3link.specs.Entities.{begins};
ghost use Rattle.sb_s3link.specs.Listings.{IsListing};
ghost use Rattle.sb_s3link.specs.Readings.{TakesName};

use crate::marks::Marks;
use crate::name::read_name;
use sb_world::Page;
use std::alloc::{AllocError, Global};

/// What begins a name.
const KEY: &[u8] = b"<Key>";

/// Why a text is no listing.
#[derive(Drop, Clone, Copy, PartialEq, Eq, Debug)]
pub enum ListingFault {
    /// The mark that says whether the listing is cut short doesn't stand outside names exactly once.
    NoTruncatedMark,
    /// The name whose `<Key>` stands at this place, in bytes, has no end tag, or an `&` that begins no entity.
    KeyCut { at: u64 },
    /// Memory was not found.
    Memory,
}

/// Reads a listing of a bucket: its names go into the page in place of those that are there. Answers whether more
/// names follow.
///
/// The text is read from left to right. What a listing is, docs/FORMATS.md says; of two faults the one of a name comes
/// first. After a fault the page has the names before it.
pub fn read_listing(alloc: Global, body: &[u8], page: &mut Page) -> Result<bool, ListingFault>
    ensures { IsListing body.now page.new result }
{
    page.keys.clear();
    let mut marks = Marks::Nothing;
    let mut at = 0;
    'items: while at < body.len() {
        let rest = &body[at..];
        if begins_name(rest) {
            match take_name(alloc, &rest[KEY.len()..], page) {
                Ok(Some(length)) => at += KEY.len() + length,
                Ok(None) => return Err(ListingFault::KeyCut { at: at as u64 }),
                Err(_) => return Err(ListingFault::Memory),
            }
        } else {
            marks = marks.behind(rest);
            at += 1;
        }
    }
    match marks {
        Marks::One(more) => Ok(more),
        _ => Err(ListingFault::NoTruncatedMark),
    }
}

/// Tells whether a text begins with `<Key>`.
fn begins_name(text: &[u8]) -> bool
    ensures is { result ≡ begins text.now (codes "<Key>") }
    ensures bound { IsTrue result → 5 ≤ length text.now }
{
    matches!(text, [b'<', b'K', ..]) && text.starts_with(KEY)
}

/// Takes the name that stands behind `<Key>`, if one does, into the page, and answers how many bytes it takes with its
/// end tag.
fn take_name(alloc: Global, text: &[u8], page: &mut Page) -> Result<Option<usize>, AllocError>
    ensures { TakesName text.now page.old page.new result }
{
    match read_name(alloc, text)? {
        Some(name) => {
            page.keys.push(name.text)?;
            Ok(Some(name.length))
        }
        None => Ok(None),
    }
}
