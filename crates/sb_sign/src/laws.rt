//! The law of signatures. The function does nothing; its contract is the law.

ghost use Rattle.sb_sign.specs.Laws.{SignaturesAgree};

/// Each request has one signature at a moment, with one date.
pub fn signatures_agree()
    ensures { SignaturesAgree }
{}
