//! A small disk with two cached blocks, event by event.

use crate::GetDone;
use crate::trials::{Act, Seen, differs, disk, known_disk};
use sb_base::Why;
use sb_zero::Zeros;
use std::test::Fail;

#[test]
fn a_part_of_a_block_that_is_not_held_is_asked_for_first(rt: HostRuntime) -> Result<(), Fail> {
    let mut core = disk(rt.alloc(), 0)?;
    let rows = [
        (
            1000,
            Act::WriteHalf(0, 256, 65),
            Seen::Got(0, GetDone::Taken),
        ),
        (1000, Act::WriteHalf(0, 256, 65), Seen::Done),
        (1000, Act::WriteHalf(1, 0, 66), Seen::Got(1, GetDone::Taken)),
        (1000, Act::WriteHalf(1, 0, 66), Seen::Done),
        (1000, Act::Read(0), Seen::Byte(65)),
        (1000, Act::Read(1), Seen::Byte(0)),
    ];
    assert_eq!(rt; differs(&mut core, &rows), None);
    Ok(())
}

#[test]
fn a_flush_covers_only_the_writes_before_it(rt: HostRuntime) -> Result<(), Fail> {
    let mut core = disk(rt.alloc(), 0)?;
    let rows = [
        (1000, Act::Write(2, 65), Seen::Done),
        (1000, Act::FlushBegin, Seen::Mark(0)),
        (1000, Act::FlushStep(0), Seen::Put(2)),
        (1000, Act::Write(2, 66), Seen::Done),
        (1000, Act::FlushStep(0), Seen::Waits(Why::Busy(2))),
        (1000, Act::FlushBegin, Seen::Mark(1)),
        (1000, Act::PutOk, Seen::Done),
        (1000, Act::FlushStep(0), Seen::Done),
        (1000, Act::FlushStep(1), Seen::Waits(Why::Spaced(1500))),
        (1500, Act::FlushStep(1), Seen::Put(2)),
        (1500, Act::PutOk, Seen::Done),
        (1500, Act::FlushStep(1), Seen::Done),
        (1500, Act::Read(2), Seen::Byte(66)),
    ];
    assert_eq!(rt; differs(&mut core, &rows), None);
    Ok(())
}

#[test]
fn a_put_that_failed_gives_way_to_the_next_dirty_block(rt: HostRuntime) -> Result<(), Fail> {
    let mut core = disk(rt.alloc(), 0)?;
    let rows = [
        (1000, Act::Write(0, 65), Seen::Done),
        (1000, Act::Write(1, 66), Seen::Done),
        (1000, Act::Write(2, 67), Seen::Put(0)),
        (1000, Act::PutFailed, Seen::Done),
        (1000, Act::Write(2, 67), Seen::Put(1)),
        (1000, Act::PutOk, Seen::Done),
        (1000, Act::Write(2, 67), Seen::Dropped(1)),
        (1000, Act::Write(2, 67), Seen::Done),
        (1000, Act::Read(0), Seen::Byte(65)),
        (1000, Act::Read(2), Seen::Byte(67)),
    ];
    assert_eq!(rt; differs(&mut core, &rows), None);
    Ok(())
}

#[test]
fn a_flush_with_nothing_dirty_is_done(rt: HostRuntime) -> Result<(), Fail> {
    let mut core = disk(rt.alloc(), 0)?;
    let rows = [
        (1000, Act::FlushBegin, Seen::Mark(0)),
        (1000, Act::FlushStep(0), Seen::Done),
    ];
    assert_eq!(rt; differs(&mut core, &rows), None);
    Ok(())
}

#[test]
fn one_dirty_block_is_put_before_another_is_written(rt: HostRuntime) -> Result<(), Fail> {
    let mut core = disk(rt.alloc(), 1)?;
    let rows = [
        (1000, Act::Write(0, 65), Seen::Done),
        (1000, Act::Write(1, 66), Seen::Put(0)),
        (1000, Act::PutFailed, Seen::Done),
        (1200, Act::Write(1, 66), Seen::Waits(Why::Spaced(1500))),
        (1500, Act::Write(1, 66), Seen::Put(0)),
        (1500, Act::PutOk, Seen::Done),
        (1500, Act::Write(1, 66), Seen::Done),
    ];
    assert_eq!(rt; differs(&mut core, &rows), None);
    Ok(())
}

#[test]
fn a_block_that_is_being_put_is_not_dirty(rt: HostRuntime) -> Result<(), Fail> {
    let mut core = disk(rt.alloc(), 1)?;
    let rows = [
        (1000, Act::Write(0, 65), Seen::Done),
        (1000, Act::Write(1, 66), Seen::Put(0)),
        (1000, Act::Write(1, 66), Seen::Done),
    ];
    assert_eq!(rt; differs(&mut core, &rows), None);
    Ok(())
}

#[test]
fn the_clean_block_that_was_used_first_is_dropped(rt: HostRuntime) -> Result<(), Fail> {
    let mut core = disk(rt.alloc(), 0)?;
    let rows = [
        (1000, Act::Read(13), Seen::Got(13, GetDone::Taken)),
        (1000, Act::Read(11), Seen::Got(11, GetDone::Taken)),
        (1000, Act::Read(13), Seen::Byte(67)),
        (1000, Act::Read(15), Seen::Dropped(11)),
        (1000, Act::Read(15), Seen::Got(15, GetDone::Taken)),
        (1000, Act::Read(11), Seen::Dropped(13)),
    ];
    assert_eq!(rt; differs(&mut core, &rows), None);
    Ok(())
}

#[test]
fn a_block_that_the_store_lacks_is_asked_for_once(rt: HostRuntime) -> Result<(), Fail> {
    let mut core = disk(rt.alloc(), 0)?;
    let rows = [
        (1000, Act::Read(0), Seen::Got(0, GetDone::Taken)),
        (1000, Act::Read(0), Seen::Byte(0)),
        (1000, Act::Read(8), Seen::Got(8, GetDone::Taken)),
        (1000, Act::Read(9), Seen::Dropped(0)),
        (1000, Act::Read(9), Seen::Got(9, GetDone::Taken)),
        (1000, Act::Read(0), Seen::Byte(0)),
        (1000, Act::Read(8), Seen::Byte(67)),
    ];
    assert_eq!(rt; differs(&mut core, &rows), None);
    Ok(())
}

#[test]
fn zeros_over_a_whole_block_ask_for_nothing(rt: HostRuntime) -> Result<(), Fail> {
    let mut core = disk(rt.alloc(), 0)?;
    let rows = [
        (1000, Act::Zero(1), Seen::Done),
        (1000, Act::Read(1), Seen::Byte(0)),
    ];
    assert_eq!(rt; differs(&mut core, &rows), None);
    Ok(())
}

#[test]
fn zeros_over_parts_of_stored_blocks_ask_for_both(rt: HostRuntime) -> Result<(), Fail> {
    let mut core = disk(rt.alloc(), 0)?;
    let rows = [
        (1000, Act::ZeroHalf(8, 256), Seen::Got(8, GetDone::Taken)),
        (1000, Act::ZeroHalf(8, 256), Seen::Done),
        (1000, Act::ZeroHalf(9, 0), Seen::Got(9, GetDone::Taken)),
        (1000, Act::ZeroHalf(9, 0), Seen::Done),
        (1000, Act::Read(8), Seen::Byte(0)),
        (1000, Act::Read(9), Seen::Byte(67)),
    ];
    assert_eq!(rt; differs(&mut core, &rows), None);
    Ok(())
}

#[test]
fn zeros_over_a_stored_block_are_one_delete(rt: HostRuntime) -> Result<(), Fail> {
    let mut core = disk(rt.alloc(), 0)?;
    let rows = [
        (1000, Act::Write(11, 0), Seen::Done),
        (1000, Act::FlushBegin, Seen::Mark(0)),
        (1000, Act::FlushStep(0), Seen::Delete(11)),
        (1000, Act::PutOk, Seen::Done),
        (1000, Act::FlushStep(0), Seen::Done),
        (1000, Act::Write(11, 0), Seen::Done),
        (1000, Act::FlushBegin, Seen::Mark(1)),
        (1000, Act::FlushStep(1), Seen::Done),
    ];
    assert_eq!(rt; differs(&mut core, &rows), None);
    Ok(())
}

#[test]
fn a_block_that_is_known_to_be_zeros_is_never_asked_for(rt: HostRuntime) -> Result<(), Fail> {
    let mut zeros = Zeros::new(rt.alloc(), 16)?;
    zeros.mark(11);
    let mut core = known_disk(rt.alloc(), 0, zeros)?;
    assert!(rt; core.marked(11));
    let rows = [
        (1000, Act::Read(11), Seen::Byte(0)),
        (1000, Act::WriteHalf(11, 0, 65), Seen::Done),
        (1000, Act::Read(11), Seen::Byte(0)),
        (1000, Act::Zero(11), Seen::Done),
        (1000, Act::FlushBegin, Seen::Mark(0)),
        (1000, Act::FlushStep(0), Seen::Done),
    ];
    assert_eq!(rt; differs(&mut core, &rows), None);
    Ok(())
}

#[test]
fn zeros_in_a_block_of_zeros_wait_for_no_put(rt: HostRuntime) -> Result<(), Fail> {
    let mut core = disk(rt.alloc(), 1)?;
    let rows = [
        (1000, Act::Write(0, 65), Seen::Done),
        (1000, Act::Read(1), Seen::Got(1, GetDone::Taken)),
        (1000, Act::Zero(1), Seen::Done),
        (1000, Act::ZeroHalf(1, 256), Seen::Done),
        (1000, Act::WriteHalf(1, 256, 66), Seen::Put(0)),
        (1000, Act::WriteHalf(1, 256, 66), Seen::Done),
        (1000, Act::ZeroHalf(1, 256), Seen::Done),
        (1000, Act::FlushBegin, Seen::Mark(0)),
        (1000, Act::PutOk, Seen::Done),
        (1000, Act::FlushStep(0), Seen::Done),
    ];
    assert_eq!(rt; differs(&mut core, &rows), None);
    Ok(())
}

#[test]
fn a_worker_puts_a_block_that_is_dirty_for_the_write_delay(rt: HostRuntime) -> Result<(), Fail> {
    let mut core = disk(rt.alloc(), 0)?;
    let rows = [
        (900, Act::NextJob, Seen::Sleeps(1 << 62)),
        (1000, Act::Write(0, 65), Seen::Done),
        (1100, Act::NextJob, Seen::Sleeps(1250)),
        (1250, Act::NextJob, Seen::Put(0)),
        (1300, Act::PutOk, Seen::Done),
        (1400, Act::Write(0, 66), Seen::Done),
        (1400, Act::NextJob, Seen::Sleeps(1800)),
        (1500, Act::Close, Seen::Done),
        (1800, Act::NextJob, Seen::Closed),
    ];
    assert_eq!(rt; differs(&mut core, &rows), None);
    Ok(())
}

#[test]
fn a_worker_puts_a_block_that_a_flush_waits_for(rt: HostRuntime) -> Result<(), Fail> {
    let mut core = disk(rt.alloc(), 0)?;
    let rows = [
        (1000, Act::Write(0, 65), Seen::Done),
        (1100, Act::FlushBegin, Seen::Mark(0)),
        (1100, Act::Write(1, 66), Seen::Done),
        (1100, Act::NextJob, Seen::Put(0)),
        (1100, Act::NextJob, Seen::Sleeps(1350)),
    ];
    assert_eq!(rt; differs(&mut core, &rows), None);
    Ok(())
}
