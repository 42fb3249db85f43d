//! What goes wrong beside serving.

ghost use Rattle.std.specs.Prelude.{◌≡◌};
ghost use Rattle.sb_tools.specs.Faults.{answer_by, fault_by};
ghost use Rattle.sb_world.specs.Calls.{fault_of};

use sb_base::Text;
use sb_world::LinkFault;

/// Why a tool was not done.
#[derive(Drop)]
pub enum ToolFault {
    /// The disk is mounted: its token has eight lower-case hex digits, which read so.
    Mounted { token: u32 },
    /// The token has other bytes.
    BadToken([u8; 8]),
    /// The store failed with this status.
    StoreFault { status: u16 },
    /// The answer to the question wasn't `y` or `yes`.
    Declined,
    /// The first block isn't stored, or doesn't carry the disk's size and block size.
    NoGeometry,
    /// The texts of size and block size that it carries, of which no disk is made.
    BadGeometry { size: Text, block_size: Text },
    /// The input of an answer failed.
    InputFault,
    /// The output failed.
    OutputFault,
    /// The first name of a page that isn't above the one before it, or the empty name of a page that has none and tells
    /// that more follow.
    BadOrder(Text),
    /// 2^32 pages came, and all told that more follow.
    PagesSpent,
    /// Memory is wanting.
    Memory,
}

/// The fault of a tool whose request failed.
pub(crate) fn fault_by(failure: LinkFault) -> ToolFault
    ensures { result ≡ fault_by failure }
{
    match failure {
        LinkFault::Failed { status } => ToolFault::StoreFault { status },
        LinkFault::Memory => ToolFault::Memory,
    }
}

/// What a tool answers by its last request.
pub(crate) fn answer_by(answer: Result<(), LinkFault>) -> Result<(), ToolFault>
    ensures { result ≡ answer_by (fault_of answer) }
{
    match answer {
        Ok(()) => Ok(()),
        Err(failure) => Err(fault_by(failure)),
    }
}
