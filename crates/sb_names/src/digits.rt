//! A block's number as text.

ghost use Rattle.std.specs.Prelude.{◌≡◌, ◌↔◌, ℕ, Some, false, []};
ghost use Rattle.sb_names.specs.Names.{digits_of, hash_of, IsNameOf};

use md5::{Digest, Md5};

/// A block's number in eight lower-case hex digits.
pub(crate) fn digits(block: u32) -> [u8; 8]
    ensures { result ≡ digits_of block }
{
    let mut digits = [0; 8];
    match hex::encode_to_slice(block.to_be_bytes(), &mut digits) {
        Ok(()) => digits,
        Err(_) => unreachable!(),
    }
}

/// The first eight lower-case hex digits of the MD5 of a block's digits.
#[tactic(auto, using(crate::proofs::HexFronts::encode_lower_front))]
pub(crate) fn hash(block: u32) -> [u8; 8]
    ensures { result ≡ hash_of block }
{
    let digest = Md5::digest(digits(block));
    let mut hash = [0; 8];
    match hex::encode_to_slice(&digest[..4], &mut hash) {
        Ok(()) => hash,
        Err(_) => unreachable!(),
    }
}

/// The block that has these digits. Upper-case digits are none.
pub(crate) fn read_digits(text: &[u8]) -> Option<u32>
    ensures { (block : ℕ) → (result ≡ Some block) ↔ IsNameOf [] false text.now block }
{
    let mut bytes = [0; 4];
    if hex::decode_to_slice(text, &mut bytes).is_err() {
        return None;
    }
    let block = u32::from_be_bytes(bytes);
    if text == digits(block).as_slice() {
        Some(block)
    } else {
        None
    }
}
