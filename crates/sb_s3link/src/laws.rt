//! The law of listings. The function does nothing; its contract is the law.

ghost use Rattle.sb_s3link.specs.Laws.{ListingsAgree};

/// Each text of a listing has one answer, with the same names.
pub fn listings_agree()
    ensures { ListingsAgree }
{}
