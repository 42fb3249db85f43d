//! What a program does with a bucket beside serving its disk: the token of a mount, the disk's size, and the question
//! before all blocks are erased.
#![tactic(auto)]

mod blocks;
mod detection;
mod fault;
mod listing;
mod question;
mod show;
mod token;

pub use blocks::reads_names;
pub use detection::detect;
pub use fault::ToolFault;
pub use question::confirm;
pub use show::show_blocks;
pub use token::{drop_token, take_token};

#[cfg(test)]
mod tests;
