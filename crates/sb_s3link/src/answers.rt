//! Answers of a link to what came back.

ghost use Rattle.std.specs.Prelude.{◌≡◌, ◌≢◌, ◌+◌, Ok, Err, Some, IfOk, IfErr, length, List, ℕ};
ghost use Rattle.sb_world.specs.Calls.{IsAsked};
ghost use Rattle.sb_world.specs.declared.link.LinkFault.TheVariants as link_fault;
ghost use Rattle.sb_http.specs.declared.fault.HttpFault.TheVariants as http;
ghost use Rattle.sb_s3link.specs.Statuses.{
  AreTexts,
  Fills,
  IsHeadAnswer,
  IsHeadFound,
  IsListAnswer,
  IsListed,
  answer_of_listing,
  delete_answer,
  failed_with,
  fault_of_ask,
  fault_of_body,
  fault_of_get,
  fault_of_http,
  get_answer,
  got_bytes,
  got_other,
  head_other,
  is_success,
  put_answer,
  value_of,
};
ghost use Rattle.sb_s3link.specs.declared.asking.AskFault.TheVariants as ask;

use crate::asking::AskFault;
use crate::listing::{ListingFault, read_listing};
use sb_base::{Digest, Text};
use sb_http::{HttpFault, Response};
use sb_sign::Pair;
use sb_world::{Got, HeadText, LinkFault, Page};
use std::alloc::{AllocError, Global};

/// A status of success.
fn is_success(status: u16) -> bool
    ensures { result ≡ is_success status }
{
    200 <= status && status < 300
}

/// The fault of a response without success.
fn failed_with(status: u16) -> LinkFault
    ensures is { result ≡ failed_with status }
    ensures outside { result ≢ link_fault.Failed 601 }
{
    let status = if status < 600 { status } else { 602 };
    LinkFault::Failed { status }
}

/// The fault of an exchange.
fn fault_of_http(fault: &HttpFault) -> LinkFault
    ensures is { result ≡ fault_of_http fault.now }
    ensures wire { result ≡ link_fault.Failed 601 → fault.now ≡ http.WireFault }
{
    match fault {
        HttpFault::WireFault => LinkFault::Failed { status: 601 },
        HttpFault::Memory => LinkFault::Memory,
        HttpFault::HeadCut { .. } => LinkFault::Failed { status: 602 },
        HttpFault::HeadTooLong => LinkFault::Failed { status: 602 },
        HttpFault::BadHead => LinkFault::Failed { status: 602 },
        HttpFault::TooManyHeaders => LinkFault::Failed { status: 602 },
        HttpFault::BadLength(_) => LinkFault::Failed { status: 602 },
        HttpFault::BodyCut { .. } => LinkFault::Failed { status: 602 },
        HttpFault::BadChunk { .. } => LinkFault::Failed { status: 602 },
        HttpFault::TooLong { .. } => LinkFault::Failed { status: 602 },
    }
}

/// The fault of a request.
fn fault_of_ask(fault: &AskFault) -> LinkFault
    ensures is { result ≡ fault_of_ask fault.now }
    ensures wire { result ≡ link_fault.Failed 601 → fault.now ≡ ask.Http http.WireFault }
{
    match fault {
        AskFault::NoDate => LinkFault::Failed { status: 604 },
        AskFault::Memory => LinkFault::Memory,
        AskFault::Http(fault) => fault_of_http(fault),
    }
}

/// The fault of a body that is longer than `limit`, for an object of so many bytes.
fn fault_of_length(size: usize, limit: u64) -> LinkFault
    ensures is { result ≡ fault_of_body size (http.TooLong limit) }
    ensures outside { result ≢ link_fault.Failed 601 }
{
    let status = if limit == size as u64 { 600 } else { 602 };
    LinkFault::Failed { status }
}

/// The fault of an exchange for an object of so many bytes.
fn fault_of_body(size: usize, fault: &HttpFault) -> LinkFault
    ensures is { result ≡ fault_of_body size fault.now }
    ensures wire { result ≡ link_fault.Failed 601 → fault.now ≡ http.WireFault }
{
    match fault {
        HttpFault::TooLong { limit } => fault_of_length(size, *limit),
        HttpFault::WireFault => LinkFault::Failed { status: 601 },
        HttpFault::Memory => LinkFault::Memory,
        HttpFault::HeadCut { .. } => LinkFault::Failed { status: 602 },
        HttpFault::HeadTooLong => LinkFault::Failed { status: 602 },
        HttpFault::BadHead => LinkFault::Failed { status: 602 },
        HttpFault::TooManyHeaders => LinkFault::Failed { status: 602 },
        HttpFault::BadLength(_) => LinkFault::Failed { status: 602 },
        HttpFault::BodyCut { .. } => LinkFault::Failed { status: 602 },
        HttpFault::BadChunk { .. } => LinkFault::Failed { status: 602 },
    }
}

/// The fault of a GET into so many bytes.
fn fault_of_get(size: usize, fault: &AskFault) -> LinkFault
    ensures is { result ≡ fault_of_get size fault.now }
    ensures wire { result ≡ link_fault.Failed 601 → fault.now ≡ ask.Http http.WireFault }
{
    match fault {
        AskFault::NoDate => LinkFault::Failed { status: 604 },
        AskFault::Memory => LinkFault::Memory,
        AskFault::Http(fault) => fault_of_body(size, fault),
    }
}

/// An object of so many bytes for a buffer of so many.
fn got_bytes(size: usize, count: usize) -> Result<Got, LinkFault>
    ensures is { result ≡ got_bytes size count }
    ensures outside { result ≢ Err (link_fault.Failed 601) }
    ensures fits { result ≡ Ok (Got.Bytes) → count ≡ size }
    ensures unasked { result ≢ Ok (Got.Same) }
{
    if count == size {
        Ok(Got::Bytes)
    } else {
        Err(LinkFault::Failed { status: 600 })
    }
}

/// What a GET found without success.
fn got_other(verify: Option<Digest>, status: u16) -> Result<Got, LinkFault>
    ensures is { result ≡ got_other verify status }
    ensures outside { result ≢ Err (link_fault.Failed 601) }
    ensures none { result ≢ Ok (Got.Bytes) }
    ensures asked { IsAsked result verify }
{
    if status == 404 {
        Ok(Got::Absent)
    } else if status == 304 && verify.is_some() {
        Ok(Got::Same)
    } else {
        Err(failed_with(status))
    }
}

/// The answer of a GET into so many bytes, with a body of so many.
pub(crate) fn get_answer(
    verify: Option<Digest>,
    size: usize,
    ending: &Result<Response, AskFault>,
    count: usize,
) -> Result<Got, LinkFault>
    ensures is { (content : List ℕ) → length content ≡ count
        → result ≡ get_answer verify size ending.now content }
    ensures wire { result ≡ Err (link_fault.Failed 601) → ending.now ≡ Err (ask.Http http.WireFault) }
    ensures fits { result ≡ Ok (Got.Bytes) → count ≡ size }
    ensures asked { IsAsked result verify }
{
    match ending {
        Ok(response) if is_success(response.status) => got_bytes(size, count),
        Ok(response) => got_other(verify, response.status),
        Err(fault) => Err(fault_of_get(size, fault)),
    }
}

/// Puts the body into the buffer of a GET, where it is the object.
pub(crate) fn fill(answer: Result<Got, LinkFault>, content: &[u8], out: &mut [u8])
    requires { answer ≡ Ok (Got.Bytes) → length content.now ≡ length out.now }
    ensures fills { Fills answer content.now out.old out.new }
    ensures unchanged { answer ≡ Ok (Got.Same) → out.new ≡ out.old }
    ensures spared { IfErr answer (λ fault. out.new ≡ out.old) }
{
    match answer {
        Ok(Got::Bytes) => out.copy_from_slice(content),
        Ok(Got::Absent) => {}
        Ok(Got::Same) => {}
        Err(_) => {}
    }
}

/// The answer of a PUT.
pub(crate) fn put_answer(ending: &Result<Response, AskFault>) -> Result<(), LinkFault>
    ensures is { result ≡ put_answer ending.now }
    ensures wire { result ≡ Err (link_fault.Failed 601) → ending.now ≡ Err (ask.Http http.WireFault) }
{
    match ending {
        Ok(response) if is_success(response.status) => Ok(()),
        Ok(response) => Err(failed_with(response.status)),
        Err(fault) => Err(fault_of_ask(fault)),
    }
}

/// The answer of a DELETE.
pub(crate) fn delete_answer(ending: &Result<Response, AskFault>) -> Result<(), LinkFault>
    ensures is { result ≡ delete_answer ending.now }
    ensures wire { result ≡ Err (link_fault.Failed 601) → ending.now ≡ Err (ask.Http http.WireFault) }
{
    match ending {
        Ok(response) if is_success(response.status) || response.status == 404 => Ok(()),
        Ok(response) => Err(failed_with(response.status)),
        Err(fault) => Err(fault_of_ask(fault)),
    }
}

/// The value of the first header of a name, if there is one.
fn value_of(alloc: Global, name: &[u8], headers: &[Pair]) -> Result<Option<Text>, AllocError>
    ensures { IfOk result (λ value. value ≡ value_of name.now headers.now) }
{
    for header in headers {
        if header.name.bytes() == name {
            return copied(alloc, &header.value);
        }
    }
    Ok(None)
}

/// The same text once more.
fn copied(alloc: Global, text: &Text) -> Result<Option<Text>, AllocError>
    ensures { IfOk result (λ copy. copy ≡ Some text.now) }
{
    Ok(Some(text.copy(alloc)?))
}

/// The texts of the sizes that an object carries.
fn texts_of(alloc: Global, headers: &[Pair]) -> Result<HeadText, AllocError>
    ensures { IfOk result (AreTexts headers.now) }
{
    Ok(HeadText {
        size: value_of(alloc, b"x-amz-meta-s3backer-filesize", headers)?,
        block_size: value_of(alloc, b"x-amz-meta-s3backer-blocksize", headers)?,
    })
}

/// What a HEAD found.
fn head_found(alloc: Global, response: &Response) -> Result<Option<HeadText>, LinkFault>
    ensures is { IsHeadFound response.now result }
    ensures outside { result ≢ Err (link_fault.Failed 601) }
{
    match texts_of(alloc, &response.headers) {
        Ok(texts) => Ok(Some(texts)),
        Err(_) => Err(LinkFault::Memory),
    }
}

/// What a HEAD found without success.
fn head_other(status: u16) -> Result<Option<HeadText>, LinkFault>
    ensures is { result ≡ head_other status }
    ensures outside { result ≢ Err (link_fault.Failed 601) }
{
    if status == 404 {
        Ok(None)
    } else {
        Err(failed_with(status))
    }
}

/// The answer of a HEAD.
pub(crate) fn head_answer(
    alloc: Global,
    ending: &Result<Response, AskFault>,
) -> Result<Option<HeadText>, LinkFault>
    ensures is { (content : List ℕ) → IsHeadAnswer result ending.now content }
    ensures wire { result ≡ Err (link_fault.Failed 601) → ending.now ≡ Err (ask.Http http.WireFault) }
{
    match ending {
        Ok(response) if is_success(response.status) => head_found(alloc, response),
        Ok(response) => head_other(response.status),
        Err(fault) => Err(fault_of_ask(fault)),
    }
}

/// The answer of the reading of a listing.
fn answer_of_listing(listed: Result<bool, ListingFault>) -> Result<bool, LinkFault>
    ensures is { result ≡ answer_of_listing listed }
    ensures outside { result ≢ Err (link_fault.Failed 601) }
{
    match listed {
        Ok(more) => Ok(more),
        Err(ListingFault::Memory) => Err(LinkFault::Memory),
        Err(ListingFault::NoTruncatedMark) => Err(LinkFault::Failed { status: 603 }),
        Err(ListingFault::KeyCut { .. }) => Err(LinkFault::Failed { status: 603 }),
    }
}

/// What a listing answers to a text, with its names in the page.
fn listed(alloc: Global, content: &[u8], page: &mut Page) -> Result<bool, LinkFault>
    ensures is { IsListed content.now page.new result }
    ensures outside { result ≢ Err (link_fault.Failed 601) }
{
    let listed = read_listing(alloc, content, page);
    answer_of_listing(listed)
}

/// The answer of a listing, with its names in the page.
pub(crate) fn list_answer(
    alloc: Global,
    ending: &Result<Response, AskFault>,
    content: &[u8],
    page: &mut Page,
) -> Result<bool, LinkFault>
    ensures is { IsListAnswer page.new result ending.now content.now }
    ensures wire { result ≡ Err (link_fault.Failed 601) → ending.now ≡ Err (ask.Http http.WireFault) }
{
    match ending {
        Ok(response) if is_success(response.status) => listed(alloc, content, page),
        Ok(response) => Err(failed_with(response.status)),
        Err(fault) => Err(fault_of_ask(fault)),
    }
}
