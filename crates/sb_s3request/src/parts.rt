//! What a head is made of.

ghost use Rattle.std.specs.Prelude.{◌≡◌, IfOk};
ghost use Rattle.sb_s3request.specs.Heads.{AreDigests};
ghost use Rattle.sb_s3request.specs.Operations.{asked_of};
ghost use Rattle.sb_s3request.specs.Requests.{AreParts, IsSigned};
ghost use Rattle.sb_s3request.specs.Sites.{host_of};

use crate::digests::{Digests, digests_of};
use crate::operation::Operation;
use crate::signed::signed_of;
use crate::site::{Site, host_of, path_of};
use crate::target::query_of;
use sb_base::Text;
use sb_sign::Request;
use std::alloc::{AllocError, Global};

/// What a head is made of, before it is signed.
#[derive(Drop)]
pub(crate) struct Parts {
    pub(crate) host: Text,
    pub(crate) digests: Digests,
    pub(crate) request: Request,
}

/// What the head of an operation is made of.
pub(crate) fn parts_of(
    alloc: Global,
    site: &Site,
    operation: &Operation<'_>,
) -> Result<Parts, AllocError>
    ensures { IfOk result (AreParts site.now operation.now) }
{
    let digests = digests_of(alloc, operation.method, operation.body)?;
    let host = host_of(alloc, site)?;
    let request = request_of(alloc, site, host.bytes(), operation, &digests)?;
    Ok(Parts {
        host,
        digests,
        request,
    })
}

/// What is signed of an operation.
fn request_of(
    alloc: Global,
    site: &Site,
    host: &[u8],
    operation: &Operation<'_>,
    digests: &Digests,
) -> Result<Request, AllocError>
    requires host { host.now ≡ host_of site.now }
    requires digests { AreDigests operation.now.method operation.now.body.now digests.now }
    ensures { IfOk result (IsSigned site.now (asked_of operation.now)) }
{
    Ok(Request {
        method: operation.method,
        path: path_of(alloc, site, operation.name)?,
        query: query_of(alloc, operation.listing)?,
        signed: signed_of(alloc, host, &digests.content, operation.meta)?,
        payload: digests.payload,
    })
}
