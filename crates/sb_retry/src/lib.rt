//! When a request that failed is tried again.
#![tactic(auto)]

mod retry;
#[cfg(test)]
mod retry_tests;
mod schedule;
#[cfg(test)]
mod tests;

pub use retry::Retry;
pub use schedule::Schedule;
