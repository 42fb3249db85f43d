//! What is printed of a listing.

ghost use Rattle.std.specs.Prelude.{◌≡◌, ◌++◌, IfOk, OnOk};
ghost use Rattle.std.specs.List.{flat_map};
ghost use Rattle.test_listings.specs.Lines.{ending_text, lines_of, name_line};

use sb_base::Text;
use sb_s3link::ListingFault;
use sb_world::Page;
use std::alloc::{AllocError, Global};

/// The lines of a listing: its names in hex, and how it ends.
#[tactic(auto, unfolding(crate::specs::Lines::lines_of))]
pub fn lines_of(
    alloc: Global,
    page: &Page,
    ending: Result<bool, ListingFault>,
) -> Result<Vec<u8>, AllocError>
    ensures { IfOk result (λ lines. lines.items ≡ lines_of page.now ending) }
{
    let mut lines = Vec::new(alloc);
    add_names(alloc, &mut lines, &page.keys)?;
    lines.extend_from_slice(ending_text(ending))?;
    Ok(lines)
}

/// Adds a line for each name.
fn add_names(alloc: Global, lines: &mut Vec<u8>, names: &[Text]) -> Result<(), AllocError>
    ensures { OnOk result (lines.new.items ≡ lines.old.items ++ flat_map name_line names.now) }
{
    for name in names {
        add_name(alloc, lines, name)?;
    }
    Ok(())
}

/// Adds the line of a name.
fn add_name(alloc: Global, lines: &mut Vec<u8>, name: &Text) -> Result<(), AllocError>
    ensures { OnOk result (lines.new.items ≡ lines.old.items ++ name_line name.now) }
{
    let digits = hex::encode(alloc, name.bytes())?;
    lines.extend_from_slice(digits.as_bytes())?;
    lines.extend_from_slice(b"\n")
}

/// How a listing ends, as a line.
fn ending_text(ending: Result<bool, ListingFault>) -> &'static [u8]
    ensures { result.now ≡ ending_text ending }
{
    match ending {
        Ok(true) => b"more\n",
        Ok(false) => b"end\n",
        Err(ListingFault::NoTruncatedMark) => b"no mark\n",
        Err(ListingFault::KeyCut { .. }) => b"a cut name\n",
        Err(ListingFault::Memory) => b"out of memory\n",
    }
}
