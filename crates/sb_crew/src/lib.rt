//! A disk for its callers: each call makes the requests that the core asks for, until it has an answer.
#![tactic(auto)]

mod alone;
mod calls;
mod desk;
mod disk;
mod flushes;
mod jobs;
mod names;
mod passes;
mod pauses;
mod reads;
mod requests;
mod shared;
mod shared_calls;
mod shared_requests;
mod turns;
mod work;
mod writes;

pub use alone::Alone;
pub use calls::{CallFault, Calls, FlushFault};
pub use desk::{Desk, DeskRefused};
pub use disk::Disk;
pub use names::Names;
pub use shared::Shared;
pub use work::WorkEnd;
