//! What no clause says: that a log takes no memory.

use crate::GhostLog;
use std::mem::size_of;
use std::test::Fail;

#[test]
fn a_log_has_no_bytes(rt: HostRuntime) -> Result<(), Fail> {
    assert_eq!(rt; size_of::<GhostLog>(), 0);
    Ok(())
}
