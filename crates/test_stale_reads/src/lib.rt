//! A disk for one caller over a store that shows old versions: what rows and tables over random versions are made of.
#![tactic(auto)]

#[cfg(test)]
mod cached_tests;
mod choices;
mod disks;
mod draws;
mod image;
mod plays;
mod shared;
mod steps;
mod stores;
#[cfg(test)]
mod table_tests;
mod tally;
#[cfg(test)]
mod tests;
mod versions;

pub use choices::Showing;
pub use disks::{BLOCK, GEOMETRY, SIZE, desk_over, disk_with, first_block, flushes, reads, writes};
pub use draws::Draws;
pub use image::Image;
pub use plays::{Counts, Ended, play};
pub use shared::SharedTape;
pub use steps::{Step, lines_of};
pub use tally::{Tally, fail_as_planned};
