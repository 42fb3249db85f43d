//! The names of a disk's objects.
//!
//! | Object | Name |
//! |---|---|
//! | a block | the prefix and the block's number in eight lower-case hex digits |
//! | a block, in the hashed form | the prefix, the first eight lower-case hex digits of the MD5 of those digits, `-`,
//! and the digits | | the token | the prefix and `s3backer-mounted` |
#![tactic(auto)]

mod digits;
mod laws;
mod names;

pub use laws::{names_differ, token_is_no_block};
pub use names::{MAX_NAME, MAX_PREFIX, object_name, place_name, read_name, token_name};

#[cfg(test)]
mod tests;
