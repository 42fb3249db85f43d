//! Signing requests.

ghost use Rattle.std.specs.Prelude.{◌≡◌, ◌↔◌, ◌⊎◌, IfErr, IfOk};
ghost use Rattle.sb_sign.specs.Credentials.{Credentials};
ghost use Rattle.sb_sign.specs.Date.{HasNoDate};
ghost use Rattle.sb_sign.specs.Hmac.{IsKeyed};
ghost use Rattle.sb_sign.specs.Signatures.{authorization_of, signing_key_of};
ghost use Rattle.sb_sign.specs.SignatureTexts.{header_text_of, scope_of, text_to_sign_of};

use crate::date::date_of;
use crate::day::DayKey;
use crate::headers::{add_line, canonical_request, names, signed_headers};
use crate::hmac::{Keyed, take_key};
use crate::request::Request;
use sb_base::Text;
use sha2::{Digest, Sha256};
use std::alloc::{AllocError, Global};
use std::marker::Model;
use thiserror::Error;

/// Why a request is not signed.
#[derive(Drop, Clone, Copy, PartialEq, Eq, Debug, Error)]
pub enum SignFault {
    /// The moment, in seconds since the beginning of 1970, is before that or after 9998.
    #[error("moment {0} is out of range")]
    MomentOutOfRange(i64),
    #[error("out of memory")]
    Memory,
}

/// The two headers that sign a request.
#[derive(Drop)]
pub struct Authorization {
    /// The value of `x-amz-date`.
    pub date: [u8; 16],
    /// The value of `authorization`.
    pub header: Text,
}

/// An access id with its secret key, for a region. It has no `Debug`, so that nothing prints the secret.
#[derive(Drop)]
pub struct Signer {
    id: Text,
    secret: Text,
    region: Text,
    /// The hashers that have taken in `AWS4` and the secret.
    keyed: Keyed,
    /// The key of the day that was signed on last.
    latest: DayKey,
}

impl Model for Signer {
    ghost use Rattle.std.specs.Prelude.{◌++◌, codes};
    ghost use Rattle.sb_sign.specs.Credentials.{Credentials};
    ghost use Rattle.sb_sign.specs.DayKeys.{IsKeyOf};
    ghost use Rattle.sb_sign.specs.Hmac.{IsKeyed};

    ghost Value = { Credentials };

    ghost view = { λ s. record { id = s.id; secret = s.secret; region = s.region } };

    ghost invariant = { λ s. IsKeyed s.keyed (codes "AWS4" ++ s.secret)
        × IsKeyOf (record { id = s.id; secret = s.secret; region = s.region }) s.latest };
}

impl Signer {
    ghost use Rattle.sb_sign.specs.Signatures.{IsAuthorized};

    /// A signer with this id and secret for a region. The hashers of the secret are made here, once.
    pub fn new(alloc: Global, id: &[u8], secret: &[u8], region: &[u8]) -> Result<Signer, AllocError>
        ensures { IfOk result (λ signer. signer ≡ record { id = id.now; secret = secret.now; region = region.now }) }
    {
        let mut start = Vec::from_slice(alloc, b"AWS4")?;
        start.extend_from_slice(secret)?;
        let keyed = take_key(&start);
        let latest = DayKey::of(&keyed, region, &[0; 16]);
        Ok(Signer {
            id: Text::of(alloc, id)?,
            secret: Text::of(alloc, secret)?,
            region: Text::of(alloc, region)?,
            keyed,
            latest,
        })
    }

    /// The headers that sign a request at a moment, which is seconds since the beginning of 1970, in UTC. The key of a day
    /// is made for its first request, and kept for those that follow.
    ///
    /// `MomentOutOfRange` comes before any memory is taken, and `Memory` where it is not found.
    pub fn sign(
        &mut self,
        alloc: Global,
        request: &Request,
        moment: i64,
    ) -> Result<Authorization, SignFault>
        ensures signed { IfOk result (IsAuthorized self.old request.now moment) }
        ensures moment { (result ≡ Err (SignFault.MomentOutOfRange moment)) ↔ HasNoDate moment }
        ensures fault { IfErr result (λ fault. (fault ≡ SignFault.MomentOutOfRange moment)
            ⊎ (fault ≡ SignFault.Memory)) }
        ensures stays { self.new ≡ self.old }
    {
        let Some(date) = date_of(moment) else {
            return Err(SignFault::MomentOutOfRange(moment));
        };
        match self.authorization(alloc, request, &date) {
            Ok(header) => Ok(Authorization { date, header }),
            Err(_) => Err(SignFault::Memory),
        }
    }

    /// The value of `authorization` of a request at a date.
    fn authorization(
        &mut self,
        alloc: Global,
        request: &Request,
        date: &[u8; 16],
    ) -> Result<Text, AllocError>
        ensures is { IfOk result (λ header. header ≡ authorization_of self.old request.now date.now) }
        ensures stays { self.new ≡ self.old }
    {
        self.latest.turn_to(&self.keyed, self.region.bytes(), date);
        header_of(
            alloc,
            self.id.bytes(),
            self.region.bytes(),
            &self.latest,
            request,
            date,
        )
    }
}

/// The value of `authorization` of a request at a date, with the key of its day.
fn header_of(
    alloc: Global,
    id: &[u8],
    region: &[u8],
    key: &DayKey,
    request: &Request,
    date: &[u8; 16],
) -> Result<Text, AllocError>
    ensures { (credentials : Credentials) → credentials.id ≡ id.now → credentials.region ≡ region.now
        → IsKeyed key.now.keyed (signing_key_of credentials date.now)
        → IfOk result (λ header. header ≡ authorization_of credentials request.now date.now) }
{
    let headers = signed_headers(alloc, request, date)?;
    let names = names(alloc, &headers)?;
    let scope = scope(alloc, region, date)?;
    let canonical = canonical_request(alloc, request, &headers, &names)?;
    let signed = text_to_sign(alloc, date, &scope, &canonical)?;
    let signature = hex::encode(alloc, key.keyed.hmac(&signed))?;
    let text = header(alloc, id, &scope, &names, signature.as_bytes())?;
    Ok(text)
}

/// The scope of a signature.
#[tactic(auto, unfolding(crate::specs::SignatureTexts::scope_of))]
fn scope(alloc: Global, region: &[u8], date: &[u8; 16]) -> Result<Vec<u8>, AllocError>
    ensures { IfOk result (λ scope. scope.items ≡ scope_of region.now date.now) }
{
    let mut scope = Vec::from_slice(alloc, &date[..8])?;
    scope.extend_from_slice(b"/")?;
    scope.extend_from_slice(region)?;
    scope.extend_from_slice(b"/s3/aws4_request")?;
    Ok(scope)
}

/// The text that is signed.
#[tactic(auto, unfolding(crate::specs::SignatureTexts::text_to_sign_of))]
fn text_to_sign(
    alloc: Global,
    date: &[u8; 16],
    scope: &[u8],
    canonical: &[u8],
) -> Result<Vec<u8>, AllocError>
    ensures { IfOk result (λ text. text.items ≡ text_to_sign_of date.now scope.now canonical.now) }
{
    let digest = hex::encode(alloc, Sha256::digest(canonical))?;
    let mut text = Vec::new(alloc);
    add_line(&mut text, b"AWS4-HMAC-SHA256")?;
    add_line(&mut text, date)?;
    add_line(&mut text, scope)?;
    text.extend_from_slice(digest.as_bytes())?;
    Ok(text)
}

/// The value of `authorization` with these parts.
fn header(
    alloc: Global,
    id: &[u8],
    scope: &[u8],
    names: &[u8],
    signature: &[u8],
) -> Result<Text, AllocError>
    ensures { IfOk result (λ header. header ≡ header_text_of id.now scope.now names.now signature.now) }
{
    let mut header = Vec::from_slice(alloc, b"AWS4-HMAC-SHA256 Credential=")?;
    header.extend_from_slice(id)?;
    header.extend_from_slice(b"/")?;
    header.extend_from_slice(scope)?;
    header.extend_from_slice(b", SignedHeaders=")?;
    header.extend_from_slice(names)?;
    header.extend_from_slice(b", Signature=")?;
    header.extend_from_slice(signature)?;
    Ok(Text::from_vec(header))
}
