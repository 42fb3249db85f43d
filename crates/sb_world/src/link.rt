//! A link to a store of objects. One call is one request.

ghost use Rattle.std.specs.Prelude.{◌≡◌, ℕ, List, [], ◌∷◌, Option, IfSome, IfErr, length};
ghost use Rattle.sb_world.specs.Told.{Gains, CountsFaults};
ghost use Rattle.sb_world.specs.Calls.{get_reply, head_reply, list_reply, fault_of, HasFailed, IsAsked};
ghost use Rattle.sb_world.specs.declared.link.Call.{Call};
ghost use Rattle.sb_world.specs.declared.link.Call.TheVariants as call;

use sb_base::{Digest, Text};
use std::marker::Model;

/// What a GET found.
#[derive(Drop, Clone, Copy, PartialEq, Eq, Debug)]
pub enum Got {
    /// There is no such object.
    Absent,
    /// The object is in the buffer.
    Bytes,
    /// The object has the digest that was asked about.
    Same,
}

/// Why a request failed.
#[derive(Drop, Clone, Copy, PartialEq, Eq, Debug)]
pub enum LinkFault {
    /// The status of HTTP, or one of this project's own from 600 on.
    Failed { status: u16 },
    Memory,
}

/// The size of a disk and of its blocks, in bytes, which its first block's object carries.
#[derive(Drop, Clone, Copy, PartialEq, Eq, Debug)]
pub struct Meta {
    pub size: u64,
    pub block_size: u32,
}

/// The texts of size and block size that an object carries.
#[derive(Drop)]
pub struct HeadText {
    pub size: Option<Text>,
    pub block_size: Option<Text>,
}

/// Names of a listing, seen as their list.
#[derive(Drop)]
pub struct Page {
    pub keys: Vec<Text>,
}

impl Model for Page {
    ghost use Rattle.std.specs.Prelude.{ℕ, List};

    ghost Value = { List (List ℕ) };

    ghost view = { λ page. page.keys.items };
}

/// What a GET answered.
#[derive(Drop)]
pub enum GetReply {
    Absent,
    Bytes(Text),
    Same,
    Fault(LinkFault),
}

/// What a HEAD answered.
#[derive(Drop)]
pub enum HeadReply {
    Absent,
    Found(HeadText),
    Fault(LinkFault),
}

/// What a listing answered.
#[derive(Drop)]
pub enum ListReply {
    /// Names, and whether more follow.
    Names(Page, bool),
    Fault(LinkFault),
}

/// One request with its answer.
#[derive(Drop)]
pub enum Call {
    Get {
        name: Text,
        verify: Option<Digest>,
        reply: GetReply,
    },
    Put {
        name: Text,
        body: Text,
        meta: Option<Meta>,
        fault: Option<LinkFault>,
    },
    Delete {
        name: Text,
        fault: Option<LinkFault>,
    },
    Head {
        name: Text,
        reply: HeadReply,
    },
    List {
        prefix: Text,
        marker: Text,
        reply: ListReply,
    },
}

/// A link to a store of objects.
pub trait Link {
    /// The calls so far, where it tells them.
    ghost log: { Self → Option (List Call) };

    /// How often it has failed.
    ghost faults: { Self → ℕ };

    /// Asks for an object of the length of `out`; one of another length fails with status 600. `Same` comes only where
    /// a digest was given, and leaves `out` as it was, as does a fault there. After `Absent`, and after a fault where
    /// none was given, `out` is unspecified.
    fn get(&mut self, name: &[u8], verify: Option<Digest>, out: &mut [u8]) -> Result<Got, LinkFault>
        ensures asked { IsAsked result verify }
        ensures unchanged { result ≡ Ok (Got.Same) → out.new ≡ out.old }
        ensures spared { IfSome verify (λ digest. IfErr result (λ fault. out.new ≡ out.old)) }
        ensures told { Gains (log self.old) (log self.new) (call.Get name.now verify (get_reply result out.new) ∷ []) }
        ensures cause { CountsFaults (faults self.old) (faults self.new) (HasFailed result) };

    /// Puts an object, with the texts of `meta` where it is given.
    fn put(&mut self, name: &[u8], body: &[u8], meta: Option<Meta>) -> Result<(), LinkFault>
        ensures told { Gains (log self.old) (log self.new) (call.Put name.now body.now meta (fault_of result) ∷ []) }
        ensures cause { CountsFaults (faults self.old) (faults self.new) (HasFailed result) };

    /// Deletes an object, `Ok` for a missing one too.
    fn delete(&mut self, name: &[u8]) -> Result<(), LinkFault>
        ensures told { Gains (log self.old) (log self.new) (call.Delete name.now (fault_of result) ∷ []) }
        ensures cause { CountsFaults (faults self.old) (faults self.new) (HasFailed result) };

    /// The texts that an object carries, `None` for a missing object.
    fn head(&mut self, name: &[u8]) -> Result<Option<HeadText>, LinkFault>
        ensures told { Gains (log self.old) (log self.new) (call.Head name.now (head_reply result) ∷ []) }
        ensures cause { CountsFaults (faults self.old) (faults self.new) (HasFailed result) };

    /// Asks for at most 1,000 names that begin with the prefix and stand after the marker in byte order. The page is
    /// what came; `true` means that more follow. After a fault the page is unspecified.
    fn list(&mut self, prefix: &[u8], marker: &[u8], page: &mut Page) -> Result<bool, LinkFault>
        ensures told { Gains (log self.old) (log self.new)
            (call.List prefix.now marker.now (list_reply result page.new) ∷ []) }
        ensures cause { CountsFaults (faults self.old) (faults self.new) (HasFailed result) };
}
