//! A store in memory for many threads, which may fail and may show old versions.

ghost use Rattle.std.specs.Prelude.{◌≡◌, ◌≤◌, None, length};
ghost use Rattle.sb_world.specs.Told.{Rose};

use rand_core::Rng;
use rand_pcg::Pcg32;
use sb_base::Digest;
use sb_host::HostClock;
use sb_world::{Clock, Got, HeadText, Link, LinkFault, Meta, Page};
use std::alloc::{AllocError, Global};
use std::sync::{Mutex, Wait};

/// An object, what it was before, and the reading in milliseconds at which it was put.
#[derive(Drop)]
pub struct Object {
    pub name: Vec<u8>,
    pub body: Vec<u8>,
    pub before: Vec<u8>,
    pub changed: u64,
}

/// A link to a store that other threads have links to.
#[derive(Drop)]
pub struct ShakyStore<'a, R> {
    pub rt: &'a R,
    pub alloc: Global,
    /// Whoever makes a request has it.
    pub objects: &'a Mutex<Vec<Object>>,
    pub clock: HostClock,
    pub draws: Pcg32,
    /// One request in so many fails, none where it is 0.
    pub fails: u32,
    /// How long behind a put the object before it may be shown, in milliseconds.
    pub lag: u64,
    pub faults: u64,
}

/// Whether the next request fails, of which one in so many does.
fn is_to_fail(draws: &mut Pcg32, fails: u32) -> bool {
    fails != 0 && draws.next_u32() % fails == 0
}

/// Whether a coin shows its head.
fn tosses_head(draws: &mut Pcg32) -> bool {
    draws.next_u32() & 1 == 1
}

/// A fault, which is counted.
fn fault(faults: &mut u64) -> LinkFault
    ensures later { faults.old ≤ faults.new }
    ensures rose { Rose faults.old faults.new }
{
    *faults = faults.saturating_add(1);
    LinkFault::Failed { status: 503 }
}

/// Puts an object in the place of the one before it.
fn keep(
    alloc: Global,
    objects: &mut Vec<Object>,
    name: &[u8],
    body: &[u8],
    now: u64,
) -> Result<(), AllocError> {
    let body = body.to_vec(alloc)?;
    for object in objects.iter_mut() {
        if object.name.as_slice() == name {
            object.before = std::mem::replace(&mut object.body, body);
            object.changed = now;
            return Ok(());
        }
    }
    let name = name.to_vec(alloc)?;
    objects.push(Object {
        name,
        body,
        before: Vec::new(alloc),
        changed: now,
    })?;
    Ok(())
}

/// Gives an object's bytes, or those before it, and whether there is one of this length.
fn give(objects: &[Object], name: &[u8], now: u64, old: u64, head: bool, out: &mut [u8]) -> bool
    ensures { length out.new ≡ length out.old }
{
    for object in objects.iter() {
        if object.name.as_slice() == name {
            let shown = if head && now.saturating_sub(object.changed) < old {
                object.before.as_slice()
            } else {
                object.body.as_slice()
            };
            if shown.len() != out.len() {
                return false;
            }
            out.copy_from_slice(shown);
            return true;
        }
    }
    false
}

impl<'a, R: Wait> ShakyStore<'a, R> {
    /// Shows an object or the one before it, where there is one of this length.
    fn shows(&mut self, name: &[u8], out: &mut [u8]) -> bool
        ensures faults { self.new.faults ≡ self.old.faults }
        ensures length { length out.new ≡ length out.old }
    {
        let head = tosses_head(&mut self.draws);
        let now = self.clock.now();
        let objects = self.objects.lock(self.rt);
        give(objects.as_slice(), name, now, self.lag, head, out)
    }

    /// Keeps an object in the place of the one before it.
    fn keeps(&mut self, name: &[u8], body: &[u8]) -> Result<(), AllocError>
        ensures { self.new.faults ≡ self.old.faults }
    {
        let now = self.clock.now();
        let mut objects = self.objects.lock(self.rt);
        keep(self.alloc, &mut objects, name, body, now)
    }
}

impl<'a, R: Wait> Link for ShakyStore<'a, R> {
    ghost log = { λ _. None };

    ghost faults = { λ store. store.faults };

    fn get(
        &mut self,
        name: &[u8],
        _verify: Option<Digest>,
        out: &mut [u8],
    ) -> Result<Got, LinkFault> {
        if is_to_fail(&mut self.draws, self.fails) {
            return Err(fault(&mut self.faults));
        }
        if self.shows(name, out) {
            Ok(Got::Bytes)
        } else {
            Ok(Got::Absent)
        }
    }

    fn put(&mut self, name: &[u8], body: &[u8], _meta: Option<Meta>) -> Result<(), LinkFault> {
        let fails = is_to_fail(&mut self.draws, self.fails);
        // one that fails may have been done
        if (!fails || tosses_head(&mut self.draws)) && self.keeps(name, body).is_err() {
            return Err(LinkFault::Memory);
        }
        if fails {
            return Err(fault(&mut self.faults));
        }
        Ok(())
    }

    fn delete(&mut self, name: &[u8]) -> Result<(), LinkFault> {
        match self.keeps(name, b"") {
            Ok(()) => Ok(()),
            Err(_) => Err(LinkFault::Memory),
        }
    }

    fn head(&mut self, _name: &[u8]) -> Result<Option<HeadText>, LinkFault> {
        Ok(None)
    }

    fn list(&mut self, _prefix: &[u8], _marker: &[u8], page: &mut Page) -> Result<bool, LinkFault> {
        page.keys.clear();
        Ok(false)
    }
}
