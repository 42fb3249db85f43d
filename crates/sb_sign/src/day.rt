//! The key that signs on a day.

ghost use Rattle.std.specs.Prelude.{◌≡◌, ◌++◌, codes, take, IsTrue};
ghost use Rattle.sb_sign.specs.Credentials.{Credentials};
ghost use Rattle.sb_sign.specs.Hmac.{IsKeyed};
ghost use Rattle.sb_sign.specs.Signatures.{signing_key_of};

use crate::hmac::{Keyed, hmac_sha256, take_key};

/// The hashers that have taken in the key of a day, which is that of all dates of the day.
#[derive(Drop)]
pub(crate) struct DayKey {
    /// A date of the day.
    pub(crate) date: [u8; 16],
    pub(crate) keyed: Keyed,
}

impl DayKey {
    ghost use Rattle.sb_sign.specs.DayKeys.{IsKeyOf};

    /// The key of the day of a date, from the hashers that have taken in `AWS4` and a secret.
    pub(crate) fn of(secret: &Keyed, region: &[u8], date: &[u8; 16]) -> DayKey
        ensures date { result.date ≡ date.now }
        ensures key { (credentials : Credentials) → IsKeyed secret.now (codes "AWS4" ++ credentials.secret)
            → credentials.region ≡ region.now → IsKeyed result.keyed (signing_key_of credentials date.now) }
    {
        DayKey {
            date: *date,
            keyed: take_key(&signing_key(secret, region, date)),
        }
    }

    /// Turns to the day of a date, if this is the key of another.
    pub(crate) fn turn_to(&mut self, secret: &Keyed, region: &[u8], date: &[u8; 16])
        ensures { (credentials : Credentials) → IsKeyed secret.now (codes "AWS4" ++ credentials.secret)
            → credentials.region ≡ region.now → IsKeyOf credentials self.old
            → IsKeyOf credentials self.new × IsKeyed self.new.keyed (signing_key_of credentials date.now) }
    {
        if !self.is_of(date) {
            *self = DayKey::of(secret, region, date);
        }
    }

    /// Whether it is the key of the day of a date.
    fn is_of(&self, date: &[u8; 16]) -> bool
        ensures { IsTrue result → take 8 self.now.date ≡ take 8 date.now }
    {
        self.date[..8] == date[..8]
    }
}

/// The key that signs on the day of a date.
fn signing_key(secret: &Keyed, region: &[u8], date: &[u8; 16]) -> [u8; 32]
    ensures { (credentials : Credentials) → IsKeyed secret.now (codes "AWS4" ++ credentials.secret)
        → credentials.region ≡ region.now → result ≡ signing_key_of credentials date.now }
{
    let day = secret.hmac(&date[..8]);
    let region = hmac_sha256(&day, region);
    let service = hmac_sha256(&region, b"s3");
    hmac_sha256(&service, b"aws4_request")
}
