//! Clients and workers of one disk, in threads of their own, over one store in memory.
#![tactic(auto)]

mod crew;
#[cfg(test)]
mod mount_tests;
#[cfg(test)]
mod tests;

pub use crew::{Crew, crew_over, serve_crew};
