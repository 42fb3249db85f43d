//! An S3 bucket as a link: one HTTP exchange a call, and the reading of a listing.
#![tactic(auto)]

mod answers;
mod asking;
mod entity;
mod laws;
mod link;
mod listing;
mod marks;
mod name;

pub use laws::listings_agree;
pub use link::S3Link;
pub use listing::{ListingFault, read_listing};

#[cfg(test)]
mod listing_tests;
#[cfg(test)]
mod tests;
