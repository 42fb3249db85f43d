//! A folder of files as a link to a store, one file for each object.
//!
//! A put writes a temporary file, of the object's name and `.tmp`, and gives it the object's name, so that an object
//! changes only by a rename. Names that end in `.tmp` are the folder's own: they are no object's, and no listing has
//! them. A caller asks for none of them: no block's name and no token's ends so.
//!
//! | Fault | Status |
//! |---|---|
//! | the object has another length than was asked for | 600 |
//! | the folder failed | 605 |
#![tactic(auto)]

mod dir_link;
mod files;
mod laws;
mod listing;
mod names;

pub use dir_link::DirLink;
pub use files::{FOLDER_FAILED, OTHER_LENGTH};
pub use laws::{blocks_are_objects, token_is_object};
pub use names::is_temporary;

#[cfg(test)]
mod tests;
