//! Two answers to the same bytes. Each function does nothing; its contract is the law.

ghost use Rattle.sb_http.specs.Laws.{AnswersAgree, ExchangesAgree};

/// Two answers to the same bytes are one, and so is what the body carried.
pub fn answers_agree()
    ensures { AnswersAgree }
{}

/// Two exchanges over wires that tell the same bytes, in whatever pieces, have one answer, and leave the same room.
pub fn exchanges_agree()
    ensures { ExchangesAgree }
{}
