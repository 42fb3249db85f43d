//! Signed requests.

ghost use Rattle.std.specs.Prelude.{◌≡◌, ◌↔◌, ◌⊎◌, IfErr, IsTrue, OnOk, not};
ghost use Rattle.sb_sign.specs.Date.{HasNoDate};
ghost use Rattle.sb_s3request.specs.Operations.{asked_of};
ghost use Rattle.sb_s3request.specs.Requests.{IsRequest};

use crate::head::write_head;
use crate::operation::Operation;
use crate::parts::parts_of;
use crate::site::Site;
use sb_sign::{SignFault, Signer};
use std::alloc::Global;

/// The last second of 9998, in UTC.
const LAST_MOMENT: i64 = 253_370_764_799;

/// Writes the head of a request, signed at a moment, in place of the bytes of `out`.
///
/// The moment is in seconds since the begin of 1970, in UTC. `MomentOutOfRange` comes before any memory is taken. The
/// form of a request is that of docs/FORMATS.md. After a fault `out` has nothing or a front of the head.
pub fn write_request(
    alloc: Global,
    site: &Site,
    signer: &mut Signer,
    operation: &Operation<'_>,
    moment: i64,
    out: &mut Vec<u8>,
) -> Result<(), SignFault>
    ensures head { OnOk result (IsRequest site.now signer.old (asked_of operation.now) moment out.new.items) }
    ensures moment { (result ≡ Err (SignFault.MomentOutOfRange moment)) ↔ HasNoDate moment }
    ensures fault { IfErr result (λ fault. (fault ≡ SignFault.MomentOutOfRange moment)
        ⊎ (fault ≡ SignFault.Memory)) }
    ensures stays { signer.new ≡ signer.old }
{
    if !has_date(moment) {
        return Err(SignFault::MomentOutOfRange(moment));
    }
    match write_signed(alloc, site, signer, operation, moment, out) {
        Ok(()) => Ok(()),
        Err(_) => Err(SignFault::Memory),
    }
}

/// Whether a moment has a date.
fn has_date(moment: i64) -> bool
    ensures { IsTrue (not result) ↔ HasNoDate moment }
{
    0 <= moment && moment <= LAST_MOMENT
}

/// Writes the head of a request, signed at a moment that has a date, in place of the bytes of `out`.
fn write_signed(
    alloc: Global,
    site: &Site,
    signer: &mut Signer,
    operation: &Operation<'_>,
    moment: i64,
    out: &mut Vec<u8>,
) -> Result<(), SignFault>
    requires { HasNoDate moment → ⊥ }
    ensures head { OnOk result (IsRequest site.now signer.old (asked_of operation.now) moment out.new.items) }
    ensures fault { IfErr result (λ fault. fault ≡ SignFault.Memory) }
    ensures stays { signer.new ≡ signer.old }
{
    let Ok(parts) = parts_of(alloc, site, operation) else {
        return Err(SignFault::Memory);
    };
    let Ok(signed) = signer.sign(alloc, &parts.request, moment) else {
        return Err(SignFault::Memory);
    };
    out.clear();
    match write_head(alloc, out, operation, &parts, &signed) {
        Ok(()) => Ok(()),
        Err(_) => Err(SignFault::Memory),
    }
}
