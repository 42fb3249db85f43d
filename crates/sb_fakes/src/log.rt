//! The log of a link in memory.

ghost use Rattle.std.specs.Prelude.{◌≡◌, Some, [], ◌∷◌, IfOk};
ghost use Rattle.sb_world.specs.Told.{Gains};
ghost use Rattle.sb_world.specs.Calls.{fault_of, get_reply, head_reply, list_reply};
ghost use Rattle.sb_world.specs.declared.link.Call.TheVariants as call;

use crate::kept::Kept;
use sb_base::{Digest, Text};
use sb_world::{Call, GetReply, Got, HeadReply, HeadText, LinkFault, ListReply, Meta, Page};
use std::alloc::{AllocError, Global};
use std::marker::Model;

/// The calls of a link, told the newest first.
#[derive(Drop)]
pub(crate) struct Log {
    alloc: Global,
    calls: Kept<Call>,
}

impl Model for Log {
    ghost use Rattle.std.specs.Prelude.{List, Option};
    ghost use Rattle.sb_world.specs.declared.link.Call.{Call};

    ghost Value = { Option (List Call) };

    ghost view = { λ log. log.calls };
}

impl Log {
    /// A log with no call.
    pub(crate) fn new(alloc: Global) -> Log
        ensures { result ≡ Some [] }
    {
        Log {
            alloc,
            calls: Kept::new(alloc),
        }
    }

    /// Notes a GET, with the bytes of its answer in `out`.
    pub(crate) fn get(
        &mut self,
        name: &[u8],
        verify: Option<Digest>,
        answer: Result<Got, LinkFault>,
        out: &[u8],
    )
        ensures { Gains self.old self.new (call.Get name.now verify (get_reply answer out.now) ∷ []) }
    {
        match get_call(self.alloc, name, verify, answer, out) {
            Ok(call) => self.calls.add(call),
            Err(_) => self.calls.forget(),
        }
    }

    /// Notes a put.
    pub(crate) fn put(
        &mut self,
        name: &[u8],
        body: &[u8],
        meta: Option<Meta>,
        answer: Result<(), LinkFault>,
    )
        ensures { Gains self.old self.new (call.Put name.now body.now meta (fault_of answer) ∷ []) }
    {
        match put_call(self.alloc, name, body, meta, answer) {
            Ok(call) => self.calls.add(call),
            Err(_) => self.calls.forget(),
        }
    }

    /// Notes a delete.
    pub(crate) fn delete(&mut self, name: &[u8], answer: Result<(), LinkFault>)
        ensures { Gains self.old self.new (call.Delete name.now (fault_of answer) ∷ []) }
    {
        match Text::of(self.alloc, name) {
            Ok(name) => self.calls.add(Call::Delete {
                name,
                fault: answer.err(),
            }),
            Err(_) => self.calls.forget(),
        }
    }

    /// Notes a HEAD.
    pub(crate) fn head(&mut self, name: &[u8], answer: &Result<Option<HeadText>, LinkFault>)
        ensures { Gains self.old self.new (call.Head name.now (head_reply answer.now) ∷ []) }
    {
        match head_call(self.alloc, name, answer) {
            Ok(call) => self.calls.add(call),
            Err(_) => self.calls.forget(),
        }
    }

    /// Notes a listing, with the names of its answer in `page`.
    pub(crate) fn list(
        &mut self,
        prefix: &[u8],
        marker: &[u8],
        answer: Result<bool, LinkFault>,
        page: &Page,
    )
        ensures { Gains self.old self.new (call.List prefix.now marker.now (list_reply answer page.now) ∷ []) }
    {
        match list_call(self.alloc, prefix, marker, answer, page) {
            Ok(call) => self.calls.add(call),
            Err(_) => self.calls.forget(),
        }
    }
}

/// A GET with its answer.
fn get_call(
    alloc: Global,
    name: &[u8],
    verify: Option<Digest>,
    answer: Result<Got, LinkFault>,
    out: &[u8],
) -> Result<Call, AllocError>
    ensures { IfOk result (λ made. made ≡ call.Get name.now verify (get_reply answer out.now)) }
{
    Ok(Call::Get {
        name: Text::of(alloc, name)?,
        verify,
        reply: reply_of(alloc, answer, out)?,
    })
}

/// What a GET answered, with its bytes owned.
fn reply_of(
    alloc: Global,
    answer: Result<Got, LinkFault>,
    out: &[u8],
) -> Result<GetReply, AllocError>
    ensures { IfOk result (λ reply. reply ≡ get_reply answer out.now) }
{
    match answer {
        Ok(Got::Absent) => Ok(GetReply::Absent),
        Ok(Got::Bytes) => Ok(GetReply::Bytes(Text::of(alloc, out)?)),
        Ok(Got::Same) => Ok(GetReply::Same),
        Err(fault) => Ok(GetReply::Fault(fault)),
    }
}

/// A put with its answer.
fn put_call(
    alloc: Global,
    name: &[u8],
    body: &[u8],
    meta: Option<Meta>,
    answer: Result<(), LinkFault>,
) -> Result<Call, AllocError>
    ensures { IfOk result (λ made. made ≡ call.Put name.now body.now meta (fault_of answer)) }
{
    Ok(Call::Put {
        name: Text::of(alloc, name)?,
        body: Text::of(alloc, body)?,
        meta,
        fault: answer.err(),
    })
}

/// A HEAD with its answer.
fn head_call(
    alloc: Global,
    name: &[u8],
    answer: &Result<Option<HeadText>, LinkFault>,
) -> Result<Call, AllocError>
    ensures { IfOk result (λ made. made ≡ call.Head name.now (head_reply answer.now)) }
{
    let reply = match answer {
        Ok(None) => HeadReply::Absent,
        Ok(Some(texts)) => HeadReply::Found(HeadText {
            size: copy_text(alloc, &texts.size)?,
            block_size: copy_text(alloc, &texts.block_size)?,
        }),
        Err(fault) => HeadReply::Fault(*fault),
    };
    Ok(Call::Head {
        name: Text::of(alloc, name)?,
        reply,
    })
}

/// A copy of a text, if there is one.
fn copy_text(alloc: Global, text: &Option<Text>) -> Result<Option<Text>, AllocError>
    ensures { IfOk result (λ copy. copy ≡ text.now) }
{
    match text {
        Some(text) => Ok(Some(Text::of(alloc, text.bytes())?)),
        None => Ok(None),
    }
}

/// A listing with its answer.
fn list_call(
    alloc: Global,
    prefix: &[u8],
    marker: &[u8],
    answer: Result<bool, LinkFault>,
    page: &Page,
) -> Result<Call, AllocError>
    ensures { IfOk result (λ made. made ≡ call.List prefix.now marker.now (list_reply answer page.now)) }
{
    let reply = match answer {
        Ok(more) => ListReply::Names(copy_page(alloc, page)?, more),
        Err(fault) => ListReply::Fault(fault),
    };
    Ok(Call::List {
        prefix: Text::of(alloc, prefix)?,
        marker: Text::of(alloc, marker)?,
        reply,
    })
}

/// A copy of the names of a page.
fn copy_page(alloc: Global, page: &Page) -> Result<Page, AllocError>
    ensures { IfOk result (λ copy. copy ≡ page.now) }
{
    let mut keys = Vec::new(alloc);
    for key in &page.keys {
        keys.push(Text::of(alloc, key.bytes())?)?;
    }
    Ok(Page { keys })
}
