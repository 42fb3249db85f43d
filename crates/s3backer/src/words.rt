//! The words that the program is called with.

ghost use Rattle.std.specs.Prelude.{◌≡◌, ◌≤◌, IfOk, Some, string_bytes, map, codes, length};
ghost use Rattle.sb_base.specs.Shapes.{IsSound};
ghost use Rattle.sb_base.specs.Sizes.{size_of};
ghost use Rattle.sb_world.specs.Benches.{HasPauses};
ghost use Rattle.std.specs.Option.{option_copied, option_map};
ghost use Rattle.sb_names.specs.declared.names.TheConstants.{MAX_PREFIX};
ghost use Rattle.s3backer.specs.Directories.{is_option, sized};
ghost use Rattle.s3backer.specs.Words.{IsPlan, plan_of};
ghost use Rattle.s3backer.specs.Read.{Answers, AreLast, ArePlaces, ArePlain, AreTwo, IsOnly, Plans, ReadsWords, StripsWord, TakesValue, given_of, refused_as};

use crate::bucket::{BucketValues, plan_of_bucket, read_bucket};
use crate::directory::{DirectoryValues, plan_of_directory, read_directory};
use crate::plan::Plan;
use sb_base::{Geometry, GeometryFault, Text, read_size};
use std::alloc::{AllocError, Global};

/// The block size of a disk, in bytes.
pub const BLOCK_SIZE: u32 = 4096;

/// Why words are not taken.
#[derive(Drop)]
pub enum Usage {
    /// The words are of no form that is built.
    NotBuilt,
    /// The word of an option is no size.
    BadSize { name: Text, word: Text },
    /// No disk has this size.
    Geometry(GeometryFault),
    /// The prefix is longer than 200 bytes, or has a byte that no name may have: one that isn't printable ASCII, or one
    /// of `<`, `>`, `&`, `"` and `'`.
    BadPrefix(Text),
    /// The prefix has a slash, and the store is a directory.
    PrefixSlash,
    /// The name of the bucket isn't 1 to 63 letters, digits, `.`, `-` and `_`, or the path of the directory is empty.
    BadBucket(Text),
    /// The base URL begins with `https:`.
    HttpsRefused,
    /// The base URL isn't `http://host/` or `http://host:port/`, with a host of letters, digits, `.` and `-`, and a port
    /// of 1 to 65,535.
    BadUrl(Text),
    /// The address isn't `HOST:PORT`, with a host of letters, digits, `.` and `-`, and a port of 0 to 65,535.
    BadAddress(Text),
}

/// Why there is no plan.
#[derive(Drop)]
pub enum PlanFault {
    Usage(Usage),
    Memory,
}

/// The values among words that are taken.
#[derive(Drop)]
enum Values<'a> {
    Directory(DirectoryValues<'a>),
    Bucket(BucketValues<'a>),
}

/// Reads the words `--stdio --test [--prefix=TEXT] [--blockHashPrefix] --size=SIZE DIR` of a disk over a directory, the
/// same without `--stdio` and with `HOST:PORT` behind them of one that is served at an address, or
/// `--stdio --baseURL=URL --accessId=ID --accessKey=KEY --size=SIZE BUCKET` of one over a bucket. Other words are
/// `NotBuilt`. Then the first fault is told, in this order: a size that doesn't read is `BadSize`, one that no disk has is
/// `Geometry`, and then come `BadPrefix`, `PrefixSlash`, `BadBucket`, `HttpsRefused`, `BadUrl` and `BadAddress`.
pub fn plan(alloc: Global, words: &[String]) -> Result<Plan, PlanFault>
    ensures plan { IsPlan (map string_bytes words.now) result }
    ensures sound { IfOk result (λ plan. IsSound plan.geometry) }
    ensures prefix { IfOk result (λ plan. length plan.prefix ≤ MAX_PREFIX) }
    ensures pauses { IfOk result (λ plan. HasPauses (Some plan.store)) }
{
    match read_words(words) {
        Some(given) => plan_of(alloc, &given),
        None => Err(PlanFault::Usage(Usage::NotBuilt)),
    }
}

/// The values of words of either form.
fn read_words(words: &[String]) -> Option<Values<'_>>
    ensures { ReadsWords (map string_bytes words.now) (option_map given_of result) }
{
    match read_directory(words) {
        Some(values) => Some(Values::Directory(values)),
        None => match read_bucket(words) {
            Some(values) => Some(Values::Bucket(values)),
            None => None,
        },
    }
}

/// The plan by the values of the words.
fn plan_of(alloc: Global, values: &Values<'_>) -> Result<Plan, PlanFault>
    ensures plan { Plans (plan_of (given_of values.now)) result }
    ensures sound { IfOk result (λ plan. IsSound plan.geometry) }
    ensures prefix { IfOk result (λ plan. length plan.prefix ≤ MAX_PREFIX) }
    ensures pauses { IfOk result (λ plan. HasPauses (Some plan.store)) }
{
    match values {
        Values::Directory(values) => plan_of_directory(alloc, values),
        Values::Bucket(values) => plan_of_bucket(alloc, values),
    }
}

/// The words behind this one, if it is the first.
pub(crate) fn strip_word<'a>(words: &'a [String], word: &str) -> Option<&'a [String]>
    ensures { StripsWord (map string_bytes words.now) word.now (option_map (λ x. map string_bytes x.now) result) }
{
    let (first, rest) = words.split_first()?;
    if first.as_str() == word {
        Some(rest)
    } else {
        None
    }
}

/// The value of an option that is the first word, and the words behind it.
pub(crate) fn take_value<'a>(words: &'a [String], name: &str) -> Option<(&'a str, &'a [String])>
    ensures { TakesValue (map string_bytes words.now) name.now
        (option_map (λ x. (x.0.now, map string_bytes x.1.now)) result) }
{
    match words {
        [first, rest @ ..] => match first.as_str().strip_prefix(name) {
            Some(value) => Some((value, rest)),
            None => None,
        },
        [] => None,
    }
}

/// The size and the last word, if the words are just these and the last one is no option.
pub(crate) fn size_and_last(words: &[String]) -> Option<(&str, &str)>
    ensures { AreLast (map string_bytes words.now) (option_map (λ x. (x.0.now, x.1.now)) result) }
{
    match words {
        [size, last] if !is_option(last.as_str()) => {
            Some((size.as_str().strip_prefix("--size=")?, last.as_str()))
        }
        _ => None,
    }
}

/// The size, the directory and the address where there is one, if the words are just these and none but the first is an
/// option. Over standard input and output there is none.
pub(crate) fn size_and_places(words: &[String], stdio: bool) -> Option<(&str, &str, Option<&str>)>
    ensures { ArePlaces stdio (map string_bytes words.now)
        (option_map (λ x. (x.0.now, x.1.now, option_copied x.2)) result) }
{
    match take_value(words, "--size=") {
        Some((size, places)) => match places_in(places, stdio) {
            Some((directory, address)) => Some((size, directory, address)),
            None => None,
        },
        None => None,
    }
}

/// The directory and the address where there is one, if the words are just these and no options.
fn places_in(words: &[String], stdio: bool) -> Option<(&str, Option<&str>)>
    ensures { ArePlain stdio (map string_bytes words.now) (option_map (λ x. (x.0.now, option_copied x.1)) result) }
{
    if stdio {
        match only_word(words) {
            Some(directory) => Some((directory, None)),
            None => None,
        }
    } else {
        match two_words(words) {
            Some((directory, address)) => Some((directory, Some(address))),
            None => None,
        }
    }
}

/// The only word, if it is no option.
fn only_word(words: &[String]) -> Option<&str>
    ensures { IsOnly (map string_bytes words.now) (option_copied result) }
{
    match words {
        [word] if !is_option(word.as_str()) => Some(word.as_str()),
        _ => None,
    }
}

/// The only two words, if they are no options.
fn two_words(words: &[String]) -> Option<(&str, &str)>
    ensures { AreTwo (map string_bytes words.now) (option_map (λ x. (x.0.now, x.1.now)) result) }
{
    match words {
        [first, second] if !is_option(first.as_str()) && !is_option(second.as_str()) => {
            Some((first.as_str(), second.as_str()))
        }
        _ => None,
    }
}

/// Whether a word begins with a dash and is longer.
pub(crate) fn is_option(word: &str) -> bool
    ensures { result ≡ is_option word.now }
{
    matches!(word.as_bytes(), [b'-', _, ..])
}

/// The geometry of a disk whose size is this word.
pub(crate) fn geometry_of(alloc: Global, size: &str) -> Result<Geometry, PlanFault>
    ensures answer { Answers (sized size.now (size_of size.now)) result }
    ensures sound { IfOk result IsSound }
{
    match read_size(size) {
        Ok(bytes) => match Geometry::make(bytes, BLOCK_SIZE) {
            Ok(geometry) => Ok(geometry),
            Err(fault) => Err(PlanFault::Usage(Usage::Geometry(fault))),
        },
        Err(_) => Err(refused_as(bad_size(alloc, size))),
    }
}

/// The fault of a size that doesn't read.
fn bad_size(alloc: Global, word: &str) -> Result<Usage, AllocError>
    ensures { IfOk result (λ usage. usage ≡ Usage.BadSize (codes "--size") word.now) }
{
    Ok(Usage::BadSize {
        name: Text::of(alloc, b"--size")?,
        word: Text::of(alloc, word.as_bytes())?,
    })
}

/// A fault of words, or want of memory for telling it.
pub(crate) fn refused_as(usage: Result<Usage, AllocError>) -> PlanFault
    ensures { result ≡ refused_as usage }
{
    match usage {
        Ok(usage) => PlanFault::Usage(usage),
        Err(_) => PlanFault::Memory,
    }
}

/// The fault of a bucket's name, or a directory's path.
pub(crate) fn bad_bucket(alloc: Global, bucket: &str) -> Result<Usage, AllocError>
    ensures { IfOk result (λ usage. usage ≡ Usage.BadBucket bucket.now) }
{
    Ok(Usage::BadBucket(Text::of(alloc, bucket.as_bytes())?))
}
