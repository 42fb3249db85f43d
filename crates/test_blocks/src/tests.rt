//! Each cell of the table of states, and random calls of both tables.

ghost use Rattle.std.specs.Prelude.{◌≡◌, ◌<◌, IfOk};
ghost use Rattle.test_blocks.specs.Looks.{IsOver};

use crate::{Call, GEOMETRY, Moment, Plain, Table, perform, same};
use rand_core::Rng;
use rand_pcg::Pcg32;
use sb_blocks::{Blocks, Look};
use std::alloc::{AllocError, Global};
use std::test::Fail;

/// How many random calls are made.
const CALLS: u32 = 4000;

/// A cell of the table of states: the calls that lead to the state, the call, and the state behind it.
const CELLS: [(&'static [Call], Call, Look); 26] = [
    (&[], Call::Fill(1), Look::Dirty),
    (&[], Call::PatchZeros(1), Look::Dirty),
    (&[], Call::Clear, Look::Missing),
    (&[], Call::PatchZeros(0), Look::Missing),
    (&[], Call::BeginRead, Look::Reading),
    (&[Call::BeginRead], Call::Take(1), Look::Clean),
    (&[Call::BeginRead], Call::TakeAbsent, Look::Clean),
    (&[Call::BeginRead], Call::Refuse, Look::Missing),
    (
        &[Call::BeginRead, Call::Take(1)],
        Call::Fill(2),
        Look::Dirty,
    ),
    (
        &[Call::BeginRead, Call::Take(1)],
        Call::Patch(0),
        Look::Dirty,
    ),
    (&[Call::BeginRead, Call::Take(1)], Call::Clear, Look::Clean),
    (&[Call::BeginRead, Call::Take(1)], Call::Touch, Look::Clean),
    (&[Call::BeginRead, Call::Take(1)], Call::Drop, Look::Missing),
    (&[Call::Fill(1)], Call::Patch(2), Look::Dirty),
    (&[Call::Fill(1)], Call::Clear, Look::Clean),
    (&[Call::Fill(1)], Call::Touch, Look::Dirty),
    (&[Call::Fill(1)], Call::BeginPut, Look::Writing),
    (
        &[Call::Fill(1), Call::BeginPut],
        Call::Patch(2),
        Look::Writing2,
    ),
    (
        &[Call::Fill(1), Call::BeginPut],
        Call::Clear,
        Look::Writing2,
    ),
    (&[Call::Fill(1), Call::BeginPut], Call::Touch, Look::Writing),
    (
        &[Call::Fill(1), Call::BeginPut],
        Call::EndPut(true),
        Look::Clean,
    ),
    (
        &[Call::Fill(1), Call::BeginPut],
        Call::EndPut(false),
        Look::Dirty,
    ),
    (
        &[Call::Fill(1), Call::BeginPut, Call::Fill(2)],
        Call::Patch(3),
        Look::Writing2,
    ),
    (
        &[Call::Fill(1), Call::BeginPut, Call::Fill(2)],
        Call::Touch,
        Look::Writing2,
    ),
    (
        &[Call::Fill(1), Call::BeginPut, Call::Fill(2)],
        Call::EndPut(true),
        Look::Dirty,
    ),
    (
        &[Call::Fill(1), Call::BeginPut, Call::Fill(2)],
        Call::EndPut(false),
        Look::Dirty,
    ),
];

/// The moment of a call.
fn moment(turn: u32) -> Moment {
    Moment {
        now: turn as u64 / 2,
        place: turn as u64,
        epoch: turn as u64 / 16,
    }
}

/// Where some calls of block 3 lead, if the table of states has each of them.
fn led(alloc: Global, before: &[Call], last: Call) -> Result<Option<Look>, AllocError> {
    let mut blocks = Blocks::new(alloc, &GEOMETRY, 2)?;
    for call in before {
        if !perform(&mut blocks, 3, *call, moment(0))? {
            return Ok(None);
        }
    }
    let had = perform(&mut blocks, 3, last, moment(1))?;
    Ok(if had { Some(blocks.look(3)) } else { None })
}

#[test]
fn each_cell_leads_to_its_state(rt: HostRuntime) -> Result<(), Fail> {
    for (before, last, look) in CELLS {
        assert_eq!(rt;
            led(rt.alloc(), before, last)?,
            Some(look),
            "{before:?} {last:?}"
        );
    }
    Ok(())
}

/// A random call.
fn drawn(draws: &mut Pcg32) -> Call {
    let byte = (draws.next_u32() % 3) as u8;
    match draws.next_u32() % 12 {
        0 => Call::Touch,
        1 => Call::BeginRead,
        2 => Call::Take(byte),
        3 => Call::TakeAbsent,
        4 => Call::Refuse,
        5 => Call::Drop,
        6 => Call::Fill(byte),
        7 => Call::Patch(byte),
        8 => Call::Clear,
        9 => Call::PatchZeros(byte),
        10 => Call::BeginPut,
        _ => Call::EndPut(byte > 0),
    }
}

/// Makes random calls of both tables, and tells how many the table of states had, and after how many calls the two
/// told something else.
fn played(alloc: Global, seed: u64, room: u32) -> Result<(u32, Option<u32>), AllocError> {
    let mut draws = Pcg32::new(seed, 54);
    let mut blocks = Blocks::new(alloc, &GEOMETRY, room)?;
    let mut plain = Plain::new(alloc, &GEOMETRY, room)?;
    let mut had = 0;
    for turn in 0..CALLS {
        let block = draws.next_u32() % 8;
        let call = drawn(&mut draws);
        let one = perform(&mut blocks, block, call, moment(turn))?;
        let other = perform(&mut plain, block, call, moment(turn))?;
        if one != other || !same(&blocks, &plain, turn as u64 / 16 + 1) {
            return Ok((had, Some(turn)));
        }
        if one {
            had += 1;
        }
    }
    Ok((had, None))
}

#[test]
fn random_calls_tell_the_same_of_both_tables(rt: HostRuntime) -> Result<(), Fail> {
    for (seed, room) in [(1, 8), (2, 3), (3, 1), (4, 0)] {
        let (had, differs) = played(rt.alloc(), seed, room)?;
        assert_eq!(rt; differs, None, "seed {seed}");
        assert_eq!(rt; had > 100, room > 0, "seed {seed}");
    }
    Ok(())
}
