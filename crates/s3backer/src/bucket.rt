//! The words of a disk over a bucket.

ghost use Rattle.std.specs.Prelude.{◌≡◌, ◌≤◌, IfOk, Some, string_bytes, map, length};
ghost use Rattle.sb_base.specs.Shapes.{IsSound};
ghost use Rattle.sb_world.specs.Benches.{HasPauses};
ghost use Rattle.std.specs.List.{list_all};
ghost use Rattle.std.specs.Option.{option_map};
ghost use Rattle.sb_names.specs.declared.names.TheConstants.{MAX_PREFIX};
ghost use Rattle.s3backer.specs.Buckets.{
  bucket_plan,
  checked_bucket,
  checked_url,
  is_bucket,
  is_bucket_byte,
  is_bucket_length,
  plan_of_bucket,
};
ghost use Rattle.s3backer.specs.Read.{Answers, Plans, ReadsBucket, bucket_given_of, with_value};

use crate::plan::{Form, Plan};
use crate::url::place_of;
use crate::words::{
    PlanFault, Usage, bad_bucket, geometry_of, refused_as, size_and_last, strip_word, take_value,
};
use sb_base::{Access, Geometry, StorePlan, Text};
use std::alloc::{AllocError, Global};

/// The longest name of a bucket, in bytes.
const MAX_BUCKET: usize = 63;

/// The region that requests are signed for.
const REGION: &[u8] = b"us-east-1";

/// The first pause before a request is tried again, and the sum of all, in milliseconds.
const FIRST_PAUSE: u32 = 200;

const TOTAL_PAUSE: u32 = 30_000;

/// The values among the words of a disk over a bucket.
#[derive(Drop)]
pub(crate) struct BucketValues<'a> {
    url: &'a str,
    id: &'a str,
    key: &'a str,
    size: &'a str,
    bucket: &'a str,
}

/// The values of words of a disk over a bucket.
pub(crate) fn read_bucket(words: &[String]) -> Option<BucketValues<'_>>
    ensures { ReadsBucket (map string_bytes words.now) (option_map bucket_given_of result) }
{
    let words = strip_word(words, "--stdio")?;
    let (url, words) = take_value(words, "--baseURL=")?;
    let (id, words) = take_value(words, "--accessId=")?;
    let (key, words) = take_value(words, "--accessKey=")?;
    let (size, bucket) = size_and_last(words)?;
    Some(BucketValues {
        url,
        id,
        key,
        size,
        bucket,
    })
}

/// The plan by the values of the words.
pub(crate) fn plan_of_bucket(alloc: Global, values: &BucketValues<'_>) -> Result<Plan, PlanFault>
    ensures plan { Plans (plan_of_bucket (bucket_given_of values.now)) result }
    ensures sound { IfOk result (λ plan. IsSound plan.geometry) }
    ensures prefix { IfOk result (λ plan. length plan.prefix ≤ MAX_PREFIX) }
    ensures pauses { IfOk result (λ plan. HasPauses (Some plan.store)) }
{
    let geometry = match geometry_of(alloc, values.size) {
        Ok(geometry) => geometry,
        Err(fault) => return Err(fault),
    };
    match check_bucket(alloc, values.bucket) {
        Ok(()) => {}
        Err(fault) => return Err(fault),
    }
    let (host, port) = match read_url(alloc, values.url.as_bytes()) {
        Ok(place) => place,
        Err(fault) => return Err(fault),
    };
    match bucket_plan(
        alloc,
        geometry,
        host,
        port,
        values.bucket,
        values.id,
        values.key,
    ) {
        Ok(plan) => Ok(plan),
        Err(_) => Err(PlanFault::Memory),
    }
}

/// Checks the name of a bucket.
fn check_bucket(alloc: Global, name: &str) -> Result<(), PlanFault>
    ensures { Answers (checked_bucket name.now) result }
{
    if is_bucket(name.as_bytes()) {
        Ok(())
    } else {
        Err(refused_as(bad_bucket(alloc, name)))
    }
}

/// Whether a bucket may have this name: 1 to 63 letters, digits, `.`, `-` and `_`.
fn is_bucket(name: &[u8]) -> bool
    ensures { result ≡ is_bucket name.now }
{
    is_bucket_length(name.len()) && has_bucket_bytes(name)
}

/// Whether a bucket's name may have so many bytes.
fn is_bucket_length(count: usize) -> bool
    ensures { result ≡ is_bucket_length count }
{
    0 < count && count <= MAX_BUCKET
}

/// Whether all bytes may stand in a bucket's name.
fn has_bucket_bytes(name: &[u8]) -> bool
    ensures { result ≡ list_all is_bucket_byte name.now }
{
    name.iter().all(|byte| is_bucket_byte(*byte))
}

/// Whether a byte may stand in a bucket's name.
fn is_bucket_byte(byte: u8) -> bool
    ensures { result ≡ is_bucket_byte byte }
{
    byte.is_ascii_alphanumeric() || byte == b'.' || byte == b'-' || byte == b'_'
}

/// The host and the port of the base URL.
fn read_url(alloc: Global, url: &[u8]) -> Result<(&[u8], u16), PlanFault>
    ensures { Answers (checked_url url.now) (with_value (λ place. (place.0.now, place.1)) result) }
{
    if url.starts_with(b"https:") {
        return Err(PlanFault::Usage(Usage::HttpsRefused));
    }
    match place_of(url) {
        Some(place) => Ok(place),
        None => Err(refused_as(bad_url(alloc, url))),
    }
}

/// The fault of a base URL.
fn bad_url(alloc: Global, url: &[u8]) -> Result<Usage, AllocError>
    ensures { IfOk result (λ usage. usage ≡ Usage.BadUrl url.now) }
{
    Ok(Usage::BadUrl(Text::of(alloc, url)?))
}

/// The plan of a disk over a bucket.
fn bucket_plan(
    alloc: Global,
    geometry: Geometry,
    host: &[u8],
    port: u16,
    bucket: &str,
    id: &str,
    key: &str,
) -> Result<Plan, AllocError>
    ensures { IfOk result (λ plan. plan ≡ bucket_plan geometry host.now port bucket.now id.now key.now) }
{
    Ok(Plan {
        form: Form::Stdio,
        store: StorePlan::S3 {
            host: Text::of(alloc, host)?,
            port,
            bucket: Text::of(alloc, bucket.as_bytes())?,
            vhost: false,
            region: Text::of(alloc, REGION)?,
            access: Access::Given {
                id: Text::of(alloc, id.as_bytes())?,
                key: Text::of(alloc, key.as_bytes())?,
            },
            first_pause: FIRST_PAUSE,
            total_pause: TOTAL_PAUSE,
        },
        prefix: String::new(alloc),
        hashed: false,
        geometry,
        read_only: false,
    })
}
