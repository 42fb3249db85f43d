//! Decides of a disk's recorded history whether its store was stale only within delays.
#![tactic(auto)]

mod begin;
mod content;
mod delays;
mod image;
mod puts;
mod staleness;
mod visible;

pub use delays::Delays;
pub use staleness::is_stale_within;

#[cfg(test)]
mod tests;
