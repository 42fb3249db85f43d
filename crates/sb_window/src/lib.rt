//! The MD5 window: the last put of each block. It tells when the block's next put may begin, and which digest a GET of
//! it has to show.
//!
//! A block's entry, and the call that makes each move:
//!
//! | From | To | By |
//! |---|---|---|
//! | none | begun | `begin_put` |
//! | begun | ended, ok or not | `end_put` |
//! | ended | begun | `begin_put`, once the spacing is over |
//! | ended | none | `begin_put` and `purge`, once the entry is past its time |
#![tactic(auto)]

mod last_put;
mod laws;
mod table;
mod window;

pub use last_put::{Ending, LastPut};
pub use laws::{
    begin_represents, end_represents, expectation_stays, expects_the_last_put, new_represents,
    purge_represents, puts_are_spaced, puts_fit, waits_end, waits_lie_ahead,
};
pub use window::{PutWhen, Window};

#[cfg(test)]
mod tests;
