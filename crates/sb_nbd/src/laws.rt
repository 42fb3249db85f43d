//! Bytes are read as messages in one way.

ghost use Rattle.std.specs.Prelude.{◌≡◌, ◌++◌, List, ℕ};
ghost use Rattle.sb_nbd.specs.Numbers.{
  read_type,
  write_type,
  disc_type,
  flush_type,
  trim_type,
  write_zeroes_type,
  fua,
  no_hole,
  eperm,
  eio,
  enomem,
  einval,
  enospc,
  export_name,
  max_payload,
};
ghost use Rattle.sb_nbd.specs.Requests.{Request, IsRequest, request_bytes};
ghost use Rattle.sb_nbd.specs.RequestReading.{IsCutRequest};
ghost use Rattle.sb_nbd.specs.Options.{Option, IsOption, option_bytes};
ghost use Rattle.sb_nbd.specs.OptionReading.{IsCutOption};
ghost use Rattle.sb_nbd.specs.declared.answer.OptionAnswer.{OptionAnswer};
ghost use Rattle.sb_nbd.specs.OptionAnswers.{HasAnswer};

use crate::command::{DISC, FLUSH, FUA, NO_HOLE, READ, TRIM, WRITE, WRITE_ZEROES};
use crate::option::EXPORT_NAME;
use crate::reply::{EINVAL, EIO, ENOMEM, ENOSPC, EPERM};
use crate::request::MAX_PAYLOAD;

/// The constants that callers name are the numbers of the definitions.
pub fn constants_are_numbers()
    ensures types { (READ ≡ read_type) × (WRITE ≡ write_type) × (DISC ≡ disc_type) × (FLUSH ≡ flush_type)
        × (TRIM ≡ trim_type) × (WRITE_ZEROES ≡ write_zeroes_type) }
    ensures flags { (FUA ≡ fua) × (NO_HOLE ≡ no_hole) }
    ensures errors { (EPERM ≡ eperm) × (EIO ≡ eio) × (ENOMEM ≡ enomem) × (EINVAL ≡ einval) × (ENOSPC ≡ enospc) }
    ensures option { EXPORT_NAME ≡ export_name }
    ensures payload { MAX_PAYLOAD ≡ max_payload }
{}

/// No request's bytes begin another's.
pub fn one_request()
    ensures { (r s : Request) (x y : List ℕ) → IsRequest r → IsRequest s
        → request_bytes r ++ x ≡ request_bytes s ++ y → (r ≡ s) × (x ≡ y) }
{}

/// A cut request is no whole request, and begins with none.
pub fn no_cut_request()
    ensures { (r : Request) (x : List ℕ) → IsRequest r → IsCutRequest (request_bytes r ++ x) → ⊥ }
{}

/// No option's bytes begin another's.
pub fn one_option()
    ensures { (p q : Option) (x y : List ℕ) → IsOption p → IsOption q
        → option_bytes p ++ x ≡ option_bytes q ++ y → (p ≡ q) × (x ≡ y) }
{}

/// A cut option is no whole option, and begins with none.
pub fn no_cut_option()
    ensures { (o : Option) (x : List ℕ) → IsOption o → IsCutOption (option_bytes o ++ x) → ⊥ }
{}

/// An option has one answer.
pub fn one_answer()
    ensures { (o : Option) (a b : OptionAnswer) → HasAnswer o a → HasAnswer o b → a ≡ b }
{}
