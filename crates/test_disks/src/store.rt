//! A link to a store that other threads have links to.

ghost use Rattle.std.specs.Prelude.{None};

use sb_base::Digest;
use sb_fakes::PlainStore;
use sb_world::{Got, HeadText, Link, LinkFault, Meta, Page};
use std::sync::{Mutex, Wait};

/// A link to a store in memory, which one thread uses at a time. Every fault is one of memory.
#[derive(Drop)]
pub struct SharedStore<'a, R> {
    pub rt: &'a R,
    /// Whoever makes a request has it.
    pub store: &'a Mutex<PlainStore>,
}

impl<'a, R: Wait> Link for SharedStore<'a, R> {
    ghost log = { λ _. None };

    ghost faults = { λ _. 0 };

    fn get(
        &mut self,
        name: &[u8],
        verify: Option<Digest>,
        out: &mut [u8],
    ) -> Result<Got, LinkFault> {
        let mut store = self.store.lock(self.rt);
        match store.get(name, verify, out) {
            Ok(got) => Ok(got),
            Err(_) => Err(LinkFault::Memory),
        }
    }

    fn put(&mut self, name: &[u8], body: &[u8], meta: Option<Meta>) -> Result<(), LinkFault> {
        let mut store = self.store.lock(self.rt);
        match store.put(name, body, meta) {
            Ok(()) => Ok(()),
            Err(_) => Err(LinkFault::Memory),
        }
    }

    fn delete(&mut self, name: &[u8]) -> Result<(), LinkFault> {
        let mut store = self.store.lock(self.rt);
        match store.delete(name) {
            Ok(()) => Ok(()),
            Err(_) => Err(LinkFault::Memory),
        }
    }

    fn head(&mut self, name: &[u8]) -> Result<Option<HeadText>, LinkFault> {
        let mut store = self.store.lock(self.rt);
        match store.head(name) {
            Ok(texts) => Ok(texts),
            Err(_) => Err(LinkFault::Memory),
        }
    }

    fn list(&mut self, prefix: &[u8], marker: &[u8], page: &mut Page) -> Result<bool, LinkFault> {
        let mut store = self.store.lock(self.rt);
        match store.list(prefix, marker, page) {
            Ok(more) => Ok(more),
            Err(_) => Err(LinkFault::Memory),
        }
    }
}
