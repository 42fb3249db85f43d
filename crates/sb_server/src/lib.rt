//! Clients and workers of one disk, each in a thread of its own.
#![tactic(auto)]

mod caller;
mod client;
mod crowd;
mod gather;
mod handing;
mod mount;
mod server;
mod serving;
mod worker;

pub use caller::Caller;
pub use client::{Client, serve_client};
pub use crowd::serve_clients;
pub use gather::{gather_clients, gather_workers};
pub use handing::hand_over;
pub use mount::Mount;
pub use server::{Crew, ServeFault, ServerEnd, serve_mount};
pub use serving::{Served, serve_all};
pub use worker::{Worker, work_side_by_side};
