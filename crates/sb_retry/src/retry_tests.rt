//! How often a request is tried, and the pauses between.

ghost use Rattle.std.specs.Prelude.{◌≡◌, ◌≢◌, ◌⊎◌, None};

use crate::Retry;
use sb_base::Digest;
use sb_fakes::HandClock;
use sb_world::{Got, HeadText, Link, LinkFault, Meta, Page, Tick};
use std::alloc::{AllocError, Global};
use std::test::Fail;

/// A link whose requests are answered with these statuses, in order, and with 200 behind the last.
#[derive(Drop)]
struct Answering {
    statuses: Vec<u16>,
    asked: usize,
    faults: u64,
}

impl Answering {
    ghost use Rattle.sb_world.specs.Told.{CountsFaults};
    ghost use Rattle.sb_world.specs.Calls.{HasFailed};

    /// Answers the next request.
    fn next(&mut self) -> Result<(), LinkFault>
        ensures cause { CountsFaults self.old.faults self.new.faults (HasFailed result) }
    {
        let status = self.statuses.get(self.asked).copied().unwrap_or(200);
        self.asked = self.asked.saturating_add(1);
        if status == 200 {
            return Ok(());
        }
        self.faults = self.faults.saturating_add(1);
        Err(LinkFault::Failed { status })
    }
}

impl Link for Answering {
    ghost log = { λ _. None };

    ghost faults = { λ link. link.faults };

    fn get(
        &mut self,
        _name: &[u8],
        _verify: Option<Digest>,
        out: &mut [u8],
    ) -> Result<Got, LinkFault> {
        match self.next() {
            Ok(()) => {
                out.fill(b'A');
                Ok(Got::Bytes)
            }
            Err(fault) => Err(fault),
        }
    }

    fn put(&mut self, _name: &[u8], _body: &[u8], _meta: Option<Meta>) -> Result<(), LinkFault> {
        self.next()
    }

    fn delete(&mut self, _name: &[u8]) -> Result<(), LinkFault> {
        self.next()
    }

    fn head(&mut self, _name: &[u8]) -> Result<Option<HeadText>, LinkFault> {
        match self.next() {
            Ok(()) => Ok(None),
            Err(fault) => Err(fault),
        }
    }

    fn list(
        &mut self,
        _prefix: &[u8],
        _marker: &[u8],
        _page: &mut Page,
    ) -> Result<bool, LinkFault> {
        match self.next() {
            Ok(()) => Ok(false),
            Err(fault) => Err(fault),
        }
    }
}

/// Attempts over a link that answers with these statuses.
fn tried(
    alloc: Global,
    statuses: &[u16],
    first: u32,
    total: u32,
) -> Result<Retry<Answering, HandClock>, AllocError>
    requires { (first ≢ 0) ⊎ (total ≡ 0) }
{
    let link = Answering {
        statuses: Vec::from_slice(alloc, statuses)?,
        asked: 0,
        faults: 0,
    };
    Ok(Retry::new(link, HandClock::new(alloc, 0, 0, false), first, total))
}

#[test]
fn a_get_that_fails_once_is_answered_by_the_next_attempt(rt: HostRuntime) -> Result<(), Fail> {
    let mut retry = tried(rt.alloc(), &[503], 200, 30_000)?;
    let mut out = [0; 3];
    assert!(rt; retry.get(b"00000000", None, &mut out) == Ok(Got::Bytes));
    assert_eq!(rt; out, *b"AAA");
    assert!(rt; retry.clock().ticks() == Some(&[Tick::Paused(200)]));
    assert_eq!(rt; (retry.link().asked, retry.link().faults), (2, 1));
    Ok(())
}

#[test]
fn a_request_that_is_refused_is_tried_once(rt: HostRuntime) -> Result<(), Fail> {
    let mut retry = tried(rt.alloc(), &[403], 200, 30_000)?;
    let answer = retry.get(b"00000000", None, &mut [0; 3]);
    assert!(rt; answer == Err(LinkFault::Failed { status: 403 }));
    assert!(rt; retry.clock().ticks() == Some(&[]));
    assert_eq!(rt; retry.link().asked, 1);
    Ok(())
}

#[test]
fn a_put_that_always_fails_ends_with_the_pauses(rt: HostRuntime) -> Result<(), Fail> {
    let mut retry = tried(rt.alloc(), &[500, 500, 500, 500], 200, 600)?;
    let answer = retry.put(b"00000000", b"AAA", None);
    assert!(rt; answer == Err(LinkFault::Failed { status: 500 }));
    assert!(rt; retry.clock().ticks() == Some(&[Tick::Paused(200), Tick::Paused(400)]));
    assert_eq!(rt; retry.link().asked, 3);
    Ok(())
}
