//! The words of a disk over a directory.

ghost use Rattle.std.specs.Prelude.{◌≡◌, ◌≤◌, nat_eq, IfOk, Some, string_bytes, map, length};
ghost use Rattle.sb_base.specs.Shapes.{IsSound};
ghost use Rattle.sb_world.specs.Benches.{HasPauses};
ghost use Rattle.std.specs.List.{list_any};
ghost use Rattle.std.specs.Option.{option_copied, option_map};
ghost use Rattle.sb_names.specs.declared.names.TheConstants.{MAX_PREFIX};
ghost use Rattle.s3backer.specs.Directories.{
  checked_address,
  checked_directory,
  checked_names,
  directory_plan,
  form_of,
  is_bad_prefix,
  is_odd,
  plan_of_directory,
};
ghost use Rattle.s3backer.specs.Read.{
  Answers,
  Plans,
  ReadsDirectory,
  TakesFlag,
  TakesOption,
  directory_given_of,
};

use crate::address::is_address;
use crate::plan::{Form, Plan};
use crate::words::{
    PlanFault, Usage, bad_bucket, geometry_of, refused_as, size_and_places, strip_word,
};
use sb_base::{Geometry, StorePlan, Text};
use sb_names::MAX_PREFIX;
use std::alloc::{AllocError, Global};

/// The values among the words of a disk over a directory.
#[derive(Drop)]
pub(crate) struct DirectoryValues<'a> {
    prefix: Option<&'a str>,
    hashed: bool,
    size: &'a str,
    directory: &'a str,
    /// Where the disk is served, and over standard input and output without it.
    address: Option<&'a str>,
}

/// The values of words of a disk over a directory.
pub(crate) fn read_directory(words: &[String]) -> Option<DirectoryValues<'_>>
    ensures { ReadsDirectory (map string_bytes words.now) (option_map directory_given_of result) }
{
    let (stdio, words) = take_flag(words, "--stdio");
    let words = strip_word(words, "--test")?;
    let (prefix, words) = take_option(words, "--prefix=");
    let (hashed, words) = take_flag(words, "--blockHashPrefix");
    let (size, directory, address) = size_and_places(words, stdio)?;
    Some(DirectoryValues {
        prefix,
        hashed,
        size,
        directory,
        address,
    })
}

/// The value of an option, if it is the first word, and the words behind it.
fn take_option<'a>(words: &'a [String], name: &str) -> (Option<&'a str>, &'a [String])
    ensures { TakesOption (map string_bytes words.now) name.now (option_copied result.0)
        (map string_bytes result.1.now) }
{
    match words {
        [first, rest @ ..] => match first.as_str().strip_prefix(name) {
            Some(value) => (Some(value), rest),
            None => (None, words),
        },
        [] => (None, words),
    }
}

/// Whether a flag is the first word, and the words behind it.
fn take_flag<'a>(words: &'a [String], name: &str) -> (bool, &'a [String])
    ensures { TakesFlag (map string_bytes words.now) name.now result.0 (map string_bytes result.1.now) }
{
    match strip_word(words, name) {
        Some(rest) => (true, rest),
        None => (false, words),
    }
}

/// The plan by the values of the words.
pub(crate) fn plan_of_directory(
    alloc: Global,
    values: &DirectoryValues<'_>,
) -> Result<Plan, PlanFault>
    ensures plan { Plans (plan_of_directory (directory_given_of values.now)) result }
    ensures sound { IfOk result (λ plan. IsSound plan.geometry) }
    ensures prefix { IfOk result (λ plan. length plan.prefix ≤ MAX_PREFIX) }
    ensures pauses { IfOk result (λ plan. HasPauses (Some plan.store)) }
{
    let geometry = match geometry_of(alloc, values.size) {
        Ok(geometry) => geometry,
        Err(fault) => return Err(fault),
    };
    let prefix = values.prefix.unwrap_or("");
    match check_names(alloc, prefix, values.directory) {
        Ok(()) => {}
        Err(fault) => return Err(fault),
    }
    match check_address(alloc, values.address) {
        Ok(()) => {}
        Err(fault) => return Err(fault),
    }
    match directory_plan(alloc, geometry, values) {
        Ok(plan) => Ok(plan),
        Err(_) => Err(PlanFault::Memory),
    }
}

/// The plan of a disk over a directory.
fn directory_plan(
    alloc: Global,
    geometry: Geometry,
    values: &DirectoryValues<'_>,
) -> Result<Plan, AllocError>
    ensures { IfOk result (λ plan. plan ≡ directory_plan geometry (directory_given_of values.now)) }
{
    Ok(Plan {
        form: form_of(alloc, values.address)?,
        store: StorePlan::Dir {
            path: Text::of(alloc, values.directory.as_bytes())?,
        },
        prefix: String::from_str(alloc, values.prefix.unwrap_or(""))?,
        hashed: values.hashed,
        geometry,
        read_only: false,
    })
}

/// How the disk is served.
fn form_of(alloc: Global, address: Option<&str>) -> Result<Form, AllocError>
    ensures { IfOk result (λ form. form ≡ form_of (option_copied address.entry)) }
{
    match address {
        Some(address) => Ok(Form::Server {
            address: Text::of(alloc, address.as_bytes())?,
        }),
        None => Ok(Form::Stdio),
    }
}

/// Checks the address, where there is one.
fn check_address(alloc: Global, address: Option<&str>) -> Result<(), PlanFault>
    ensures { Answers (checked_address (option_copied address.entry)) result }
{
    match address {
        Some(address) => {
            if is_address(address.as_bytes()) {
                Ok(())
            } else {
                Err(refused_as(bad_address(alloc, address)))
            }
        }
        None => Ok(()),
    }
}

/// The fault of an address.
fn bad_address(alloc: Global, address: &str) -> Result<Usage, AllocError>
    ensures { IfOk result (λ usage. usage ≡ Usage.BadAddress address.now) }
{
    Ok(Usage::BadAddress(Text::of(alloc, address.as_bytes())?))
}

/// Checks the prefix of names, and the path of a directory.
fn check_names(alloc: Global, prefix: &str, directory: &str) -> Result<(), PlanFault>
    ensures answer { Answers (checked_names prefix.now directory.now) result }
    ensures prefix { IfOk result (λ _. length prefix.now ≤ MAX_PREFIX) }
{
    if is_bad_prefix(prefix.as_bytes()) {
        Err(refused_as(bad_prefix(alloc, prefix)))
    } else if has_slash(prefix.as_bytes()) {
        Err(PlanFault::Usage(Usage::PrefixSlash))
    } else {
        check_directory(alloc, directory)
    }
}

/// Whether a prefix has a slash.
fn has_slash(prefix: &[u8]) -> bool
    ensures { result ≡ list_any (nat_eq 47) prefix.now }
{
    prefix.contains(&b'/')
}

/// Checks the path of a directory.
fn check_directory(alloc: Global, directory: &str) -> Result<(), PlanFault>
    ensures { Answers (checked_directory directory.now) result }
{
    if directory.is_empty() {
        Err(refused_as(bad_bucket(alloc, directory)))
    } else {
        Ok(())
    }
}

/// The fault of a prefix.
fn bad_prefix(alloc: Global, prefix: &str) -> Result<Usage, AllocError>
    ensures { IfOk result (λ usage. usage ≡ Usage.BadPrefix prefix.now) }
{
    Ok(Usage::BadPrefix(Text::of(alloc, prefix.as_bytes())?))
}

/// Whether a prefix is too long, or has a byte that no name may have.
fn is_bad_prefix(prefix: &[u8]) -> bool
    ensures { result ≡ is_bad_prefix prefix.now }
{
    prefix.len() > MAX_PREFIX || has_odd(prefix)
}

/// Whether a prefix has a byte that no name may have.
fn has_odd(prefix: &[u8]) -> bool
    ensures { result ≡ list_any is_odd prefix.now }
{
    prefix.iter().any(|byte| is_odd(*byte))
}

/// Whether a byte is none of the printable ASCII, or one that XML gives a meaning.
fn is_odd(byte: u8) -> bool
    ensures { result ≡ is_odd byte }
{
    !(0x20..=0x7e).contains(&byte) || matches!(byte, b'<' | b'>' | b'&' | b'"' | b'\'')
}
