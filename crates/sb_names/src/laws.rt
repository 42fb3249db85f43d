//! The laws of names. Each function does nothing; its contract is the law.

ghost use Rattle.sb_names.specs.Names.{NamesDiffer, TokenIsNoBlock};

/// No two blocks have the same name, in either form.
pub fn names_differ()
    ensures { NamesDiffer }
{}

/// No block's name is that of the token, in either form.
pub fn token_is_no_block()
    ensures { TokenIsNoBlock }
{}
