//! The lines of a listing's blocks.

ghost use Rattle.std.specs.Prelude.{◌≡◌, ◌≤◌, ◌++◌, [], ◌∷◌, length, IfErr, IfOk, IsErr, IsErrOf};
ghost use Rattle.sb_world.specs.Streams.{WriteHolds};
ghost use Rattle.sb_world.specs.Told.{CountsFaults};
ghost use Rattle.sb_names.specs.Names.{digits_of};
ghost use Rattle.sb_tools.specs.Blocks.{block_of, blocks_in};
ghost use Rattle.sb_tools.specs.Faults.{IsStoreFault};
ghost use Rattle.sb_tools.specs.Showing.{Shows, ShowsLines, line_of, lines_in, lines_of};

use crate::blocks::block_of;
use crate::fault::ToolFault;
use crate::listing::{Listing, MAX_PAGES};
use crate::token::digits;
use sb_base::Text;
use sb_world::{Link, Sink};
use std::alloc::Global;

/// The byte that ends a line.
const LINE_END: u8 = 10;

/// Writes the eight digits and a line end for each block whose object is listed, in the order of the listing, and answers
/// how many they are. Names that are no block's are passed over.
///
/// `StoreFault`, `BadOrder`, `PagesSpent` and `Memory` come where the listing breaks off, after the lines of the pages
/// before; `OutputFault` comes where the output fails, and nothing more is asked for then.
pub fn show_blocks<L: Link, S: Sink>(
    alloc: Global,
    link: &mut L,
    prefix: &str,
    hashed: bool,
    sink: &mut S,
) -> Result<u64, ToolFault>
    ensures told { Shows prefix.now hashed
        (record { log = L.log link.old; held = S.held sink.old })
        (record { log = L.log link.new; held = S.held sink.new }) result }
    ensures store { CountsFaults (L.faults link.old) (L.faults link.new) (IsStoreFault result) }
    ensures output { CountsFaults (S.faults sink.old) (S.faults sink.new) (IsErrOf result ToolFault.OutputFault) }
{
    let mut listing = Listing::new(alloc);
    let mut shown = 0;
    'pages: for _asked in 0..MAX_PAGES {
        let more = match listing.next_page(alloc, link, prefix) {
            Ok(more) => more,
            Err(fault) => return Err(fault),
        };
        shown += match show_page(sink, prefix, hashed, listing.names()) {
            Ok(count) => count,
            Err(fault) => return Err(fault),
        };
        if !more {
            return Ok(shown);
        }
    }
    Err(ToolFault::PagesSpent)
}

/// Writes the lines of a page's blocks, and answers how many they are.
fn show_page<S: Sink>(
    sink: &mut S,
    prefix: &str,
    hashed: bool,
    names: &[Text],
) -> Result<u64, ToolFault>
    ensures told { ShowsLines (lines_in prefix.now hashed names.now) (length (blocks_in prefix.now hashed names.now))
        (S.held sink.old) (S.held sink.new) result }
    ensures cause { CountsFaults (S.faults sink.old) (S.faults sink.new) (IsErr result) }
{
    let mut shown = 0;
    for name in names {
        match show_name(sink, prefix, hashed, name.bytes()) {
            Ok(lines) => shown += lines,
            Err(fault) => return Err(fault),
        }
    }
    Ok(shown)
}

/// Writes the line of the block whose object has this name, if there is one, and answers how many lines that is.
fn show_name<S: Sink>(
    sink: &mut S,
    prefix: &str,
    hashed: bool,
    name: &[u8],
) -> Result<u64, ToolFault>
    ensures told { ShowsLines (line_of (block_of prefix.now hashed name.now))
        (lines_of (block_of prefix.now hashed name.now)) (S.held sink.old) (S.held sink.new) result }
    ensures fits { IfOk result (λ lines. lines ≤ 1) }
    ensures cause { CountsFaults (S.faults sink.old) (S.faults sink.new) (IsErr result) }
{
    match block_of(prefix, hashed, name) {
        Some(block) => match show_block(sink, block) {
            Ok(()) => Ok(1),
            Err(fault) => Err(fault),
        },
        None => Ok(0),
    }
}

/// Writes the line of a block.
fn show_block<S: Sink>(sink: &mut S, block: u32) -> Result<(), ToolFault>
    ensures told { WriteHolds (S.held sink.old) (S.held sink.new) result (digits_of block ++ 10 ∷ []) }
    ensures fault { IfErr result (λ fault. fault ≡ ToolFault.OutputFault) }
    ensures cause { CountsFaults (S.faults sink.old) (S.faults sink.new) (IsErr result) }
{
    let [a, b, c, d, e, f, g, h] = digits(block);
    match sink.write(&[a, b, c, d, e, f, g, h, LINE_END]) {
        Ok(()) => Ok(()),
        Err(_) => Err(ToolFault::OutputFault),
    }
}
