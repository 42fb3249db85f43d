//! What no clause says: that calls return, and what the counter and the bell do.
use crate::{Counter, all_work, both_visit, counted_by_two, crew_of, read};
use sb_turn::{Bell, Turn};
use std::test::Fail;
use std::thread;
use std::time::{Duration, Instant};

#[test]
fn two_threads_count_to_eleven(rt: HostRuntime) -> Result<(), Fail> {
    let (turn, mut pass) = counted_by_two(&rt, rt.alloc())?;
    assert_eq!(rt; read(&rt, &turn, &mut pass), 11);
    Ok(())
}

#[test]
fn a_split_pass_gets_the_next_number(rt: HostRuntime) -> Result<(), Fail> {
    let (turn, mut one) = Turn::new(rt.alloc(), Counter { count: 0 })?;
    let two = turn.split(&rt, &mut one);
    assert_eq!(rt; (one.number(), two.number()), (1, 2));
    Ok(())
}

#[test]
fn visits_without_an_entry_leave_the_counter_as_it_was(rt: HostRuntime) -> Result<(), Fail> {
    let (turn, mut one) = Turn::new(rt.alloc(), Counter { count: 0 })?;
    let two = turn.split(&rt, &mut one);
    let (mut one, two) = both_visit(&rt, &turn, one, two);
    turn.join(&mut one, two);
    assert_eq!(rt; read(&rt, &turn, &mut one), 0);
    Ok(())
}

#[test]
fn twenty_four_threads_of_a_thousand_turns_end(rt: HostRuntime) -> Result<(), Fail> {
    let (turn, mut pass) = Turn::new(rt.alloc(), Counter { count: 0 })?;
    let mut crew = crew_of(&rt, rt.alloc(), &turn, &mut pass, 24, 1000)?;
    all_work(&rt, &turn, crew.as_mut_slice());
    assert_eq!(rt; read(&rt, &turn, &mut pass), 24_000);
    Ok(())
}

#[test]
fn a_waiter_is_woken_by_a_ring_and_not_before(rt: HostRuntime) -> Result<(), Fail> {
    let bell = Bell::new(rt.alloc())?;
    let mark = bell.mark();
    let start = Instant::now(&rt)?;
    let (waited, _) = thread::join(
        &rt,
        || {
            bell.wait(&rt, mark, 30_000);
            start.elapsed(&rt)
        },
        || {
            thread::sleep(&rt, Duration::from_millis(200));
            bell.ring(&rt);
        },
    );
    let waited = waited?;
    assert!(rt; waited >= Duration::from_millis(200));
    assert!(rt; waited < Duration::from_secs(15));
    Ok(())
}

#[test]
fn a_ring_between_mark_and_wait_is_not_lost(rt: HostRuntime) -> Result<(), Fail> {
    let bell = Bell::new(rt.alloc())?;
    let mark = bell.mark();
    bell.ring(&rt);
    let start = Instant::now(&rt)?;
    bell.wait(&rt, mark, 30_000);
    assert!(rt; start.elapsed(&rt)? < Duration::from_secs(15));
    Ok(())
}

#[test]
fn a_wait_without_a_ring_lasts_its_time(rt: HostRuntime) -> Result<(), Fail> {
    let bell = Bell::new(rt.alloc())?;
    let mark = bell.mark();
    let start = Instant::now(&rt)?;
    bell.wait(&rt, mark, 100);
    assert!(rt; start.elapsed(&rt)? >= Duration::from_millis(100));
    assert_eq!(rt; bell.mark(), mark);
    Ok(())
}

#[test]
fn a_ring_before_the_mark_wakes_nobody(rt: HostRuntime) -> Result<(), Fail> {
    let bell = Bell::new(rt.alloc())?;
    bell.ring(&rt);
    let mark = bell.mark();
    let start = Instant::now(&rt)?;
    bell.wait(&rt, mark, 100);
    assert!(rt; start.elapsed(&rt)? >= Duration::from_millis(100));
    Ok(())
}
