//! The token, which is there while a disk is mounted.

ghost use Rattle.std.specs.Prelude.{◌≡◌, ◌⊎◌};
ghost use Rattle.sb_world.specs.Told.{CountsFaults};
ghost use Rattle.sb_names.specs.Names.{digits_of, token_name_of};
ghost use Rattle.sb_tools.specs.Asking.{Asks, LacksMemory};
ghost use Rattle.sb_tools.specs.Faults.{IsStoreFault};
ghost use Rattle.sb_tools.specs.Tokens.{DropsToken, LooksForToken, TakesToken, fault_of_token, is_other_length};

use crate::blocks::block_of;
use crate::fault::{ToolFault, answer_by, fault_by};
use sb_names::token_name;
use sb_world::{Got, Link, LinkFault};
use std::alloc::Global;

/// The status of a link whose object has another length than was asked for.
const OTHER_LENGTH: u16 = 600;

/// Takes the token of a disk: asks for it, and unless there is one puts `value` in eight lower-case hex digits. By force
/// it is put over one that is there, whatever that is.
///
/// `Mounted` and `BadToken` tell the token that is there; `StoreFault` comes where the GET or the put fails.
pub fn take_token<L: Link>(
    alloc: Global,
    link: &mut L,
    prefix: &str,
    value: u32,
    force: bool,
) -> Result<(), ToolFault>
    ensures told { Asks (L.log link.old) (L.log link.new) (λ calls.
        LacksMemory result calls ⊎ TakesToken (token_name_of prefix.now) (digits_of value) force result calls) }
    ensures cause { CountsFaults (L.faults link.old) (L.faults link.new) (IsStoreFault result) }
{
    match token_name(alloc, prefix) {
        Ok(name) => take_named(link, name.bytes(), value, force),
        Err(_) => Err(ToolFault::Memory),
    }
}

/// Takes the token of this name.
fn take_named<L: Link>(link: &mut L, name: &[u8], value: u32, force: bool) -> Result<(), ToolFault>
    ensures told { Asks (L.log link.old) (L.log link.new) (TakesToken name.now (digits_of value) force result) }
    ensures cause { CountsFaults (L.faults link.old) (L.faults link.new) (IsStoreFault result) }
{
    match look_for(link, name, force) {
        Ok(()) => answer_by(link.put(name, &digits(value), None)),
        Err(fault) => Err(fault),
    }
}

/// Asks for the token of this name, and answers what stands against taking it.
fn look_for<L: Link>(link: &mut L, name: &[u8], force: bool) -> Result<(), ToolFault>
    ensures told { Asks (L.log link.old) (L.log link.new) (LooksForToken name.now force result) }
    ensures cause { CountsFaults (L.faults link.old) (L.faults link.new) (IsStoreFault result) }
{
    let mut body = [0; 8];
    match link.get(name, None, &mut body) {
        Ok(Got::Absent) => Ok(()),
        Ok(Got::Same) => Ok(()),
        Ok(Got::Bytes) => {
            if force {
                Ok(())
            } else {
                Err(fault_of_token(body))
            }
        }
        Err(failure) => {
            if force && is_other_length(failure) {
                Ok(())
            } else {
                Err(fault_by(failure))
            }
        }
    }
}

/// Whether an object has another length than was asked for.
fn is_other_length(failure: LinkFault) -> bool
    ensures { result ≡ is_other_length failure }
{
    match failure {
        LinkFault::Failed { status } => status == OTHER_LENGTH,
        LinkFault::Memory => false,
    }
}

/// What a token of eight bytes says.
fn fault_of_token(body: [u8; 8]) -> ToolFault
    ensures { result ≡ fault_of_token body }
{
    match block_of("", false, &body) {
        Some(token) => ToolFault::Mounted { token },
        None => ToolFault::BadToken(body),
    }
}

/// A number in eight lower-case hex digits.
pub(crate) fn digits(value: u32) -> [u8; 8]
    ensures { result ≡ digits_of value }
{
    let mut digits = [0; 8];
    match hex::encode_to_slice(value.to_be_bytes(), &mut digits) {
        Ok(()) => digits,
        Err(_) => unreachable!(),
    }
}

/// Drops the token of a disk, with one DELETE, whether the disk is mounted or not. `StoreFault` comes where it fails.
pub fn drop_token<L: Link>(alloc: Global, link: &mut L, prefix: &str) -> Result<(), ToolFault>
    ensures told { Asks (L.log link.old) (L.log link.new) (λ calls.
        LacksMemory result calls ⊎ DropsToken (token_name_of prefix.now) result calls) }
    ensures cause { CountsFaults (L.faults link.old) (L.faults link.new) (IsStoreFault result) }
{
    match token_name(alloc, prefix) {
        Ok(name) => drop_named(link, name.bytes()),
        Err(_) => Err(ToolFault::Memory),
    }
}

/// Drops the token of this name.
pub(crate) fn drop_named<L: Link>(link: &mut L, name: &[u8]) -> Result<(), ToolFault>
    ensures told { Asks (L.log link.old) (L.log link.new) (DropsToken name.now result) }
    ensures cause { CountsFaults (L.faults link.old) (L.faults link.new) (IsStoreFault result) }
{
    answer_by(link.delete(name))
}
