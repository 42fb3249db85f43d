//! The log.

ghost use Rattle.std.specs.Prelude.{◌≡◌, [], ◌∷◌};
ghost use Rattle.sb_world.specs.Calls.{get_reply, head_reply, list_reply, fault_of};
ghost use Rattle.sb_world.specs.declared.link.Call.TheVariants as call;

use crate::shown::{Bytes, show};
use sb_base::Digest;
use sb_world::{Got, HeadText, LinkFault, Meta, Page};
use std::marker::Model;
use std::mem;
use std::snapshot::Snapshot;

/// A call with its answer.
#[derive(Drop)]
pub(crate) enum Told {
    Get {
        name: Snapshot<Bytes>,
        verify: Option<Digest>,
        answer: Result<Got, LinkFault>,
        out: Snapshot<Bytes>,
    },
    Put {
        name: Snapshot<Bytes>,
        body: Snapshot<Bytes>,
        meta: Option<Meta>,
        answer: Result<(), LinkFault>,
    },
    Delete {
        name: Snapshot<Bytes>,
        answer: Result<(), LinkFault>,
    },
    Head {
        name: Snapshot<Bytes>,
        answer: Snapshot<Result<Option<HeadText>, LinkFault>>,
    },
    List {
        prefix: Snapshot<Bytes>,
        marker: Snapshot<Bytes>,
        answer: Result<bool, LinkFault>,
        page: Snapshot<Page>,
    },
}

/// Calls, of which only clauses read those before the newest.
#[derive(Drop)]
pub(crate) enum Calls {
    End,
    More(Told, Snapshot<Calls>),
}

/// The calls of a link, told the newest first, which only clauses read. It takes no memory.
#[derive(Drop)]
pub struct GhostLog {
    calls: Snapshot<Calls>,
}

impl Model for GhostLog {
    ghost use Rattle.std.specs.Prelude.{List};
    ghost use Rattle.sb_world.specs.declared.link.Call.{Call};
    ghost use Rattle.sb_log.specs.Calls.{calls_in};

    ghost Value = { List Call };

    ghost view = { λ log. calls_in log.calls.value };
}

impl GhostLog {
    ghost use Rattle.sb_log.specs.Calls.{call_of};

    /// A log with no call.
    pub fn new() -> GhostLog
        ensures { result ≡ [] }
    {
        GhostLog {
            calls: Snapshot::of(&Calls::End),
        }
    }

    /// Tells a call.
    fn add(&mut self, told: Told)
        ensures { self.new ≡ call_of told ∷ self.old }
    {
        let before = mem::replace(&mut self.calls, Snapshot::of(&Calls::End));
        self.calls = Snapshot::of(&Calls::More(told, before));
    }

    /// Tells a GET, with the bytes of its answer in `out`.
    pub fn get(
        &mut self,
        name: &[u8],
        verify: Option<Digest>,
        answer: Result<Got, LinkFault>,
        out: &[u8],
    )
        ensures { self.new ≡ call.Get name.now verify (get_reply answer out.now) ∷ self.old }
    {
        self.add(Told::Get {
            name: show(name),
            verify,
            answer,
            out: show(out),
        });
    }

    /// Tells a put.
    pub fn put(
        &mut self,
        name: &[u8],
        body: &[u8],
        meta: Option<Meta>,
        answer: Result<(), LinkFault>,
    )
        ensures { self.new ≡ call.Put name.now body.now meta (fault_of answer) ∷ self.old }
    {
        self.add(Told::Put {
            name: show(name),
            body: show(body),
            meta,
            answer,
        });
    }

    /// Tells a delete.
    pub fn delete(&mut self, name: &[u8], answer: Result<(), LinkFault>)
        ensures { self.new ≡ call.Delete name.now (fault_of answer) ∷ self.old }
    {
        self.add(Told::Delete {
            name: show(name),
            answer,
        });
    }

    /// Tells a HEAD.
    pub fn head(&mut self, name: &[u8], answer: &Result<Option<HeadText>, LinkFault>)
        ensures { self.new ≡ call.Head name.now (head_reply answer.now) ∷ self.old }
    {
        self.add(Told::Head {
            name: show(name),
            answer: Snapshot::of(answer),
        });
    }

    /// Tells a listing, with the names of its answer in `page`.
    pub fn list(
        &mut self,
        prefix: &[u8],
        marker: &[u8],
        answer: Result<bool, LinkFault>,
        page: &Page,
    )
        ensures { self.new ≡ call.List prefix.now marker.now (list_reply answer page.now) ∷ self.old }
    {
        self.add(Told::List {
            prefix: show(prefix),
            marker: show(marker),
            answer,
            page: Snapshot::of(page),
        });
    }
}
