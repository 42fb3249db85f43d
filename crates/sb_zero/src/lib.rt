//! The blocks of a disk that are known to be zeros.
#![tactic(auto)]

#[cfg(test)]
mod tests;
mod zeros;

pub use zeros::Zeros;
