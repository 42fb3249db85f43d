//! The words that every crate of the disk speaks: its geometry, its settings, and the entries of its history.
#![tactic(auto)]

mod access;
mod entry;
mod geometry;
mod line;
mod part;
mod range;
mod settings;
mod size;
mod text;

pub use access::{Access, StorePlan};
pub use entry::{Entry, EntryKind, Shown};
pub use geometry::{Geometry, GeometryFault};
pub use line::{Answer, Digest, Expect, Kind, Line, Why};
pub use part::{Part, parts};
pub use range::Parts;
pub use settings::{Settings, SettingsFault};
pub use size::{SizeFault, read_size};
pub use text::Text;

#[cfg(test)]
mod tests;
