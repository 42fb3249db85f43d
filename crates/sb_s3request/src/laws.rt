//! The law of requests. The function does nothing; its contract is the law.

ghost use Rattle.sb_s3request.specs.Laws.{HeadsAgree};

/// Each operation has one head at a moment.
pub fn heads_agree()
    ensures { HeadsAgree }
{}
