//! The laws of names. Each function does nothing; its contract is the law.

ghost use Rattle.sb_dirstore.specs.Names.{BlocksAreObjects, TokenIsObject};

/// The name of each block may be an object's, in either form.
pub fn blocks_are_objects()
    ensures { BlocksAreObjects }
{}

/// The name of the token may be an object's.
pub fn token_is_object()
    ensures { TokenIsObject }
{}
