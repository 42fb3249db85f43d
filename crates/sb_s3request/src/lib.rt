//! The requests of an S3 bucket: their heads, signed.
#![tactic(auto)]

mod digests;
mod head;
mod headers;
mod laws;
mod operation;
mod parts;
mod request;
mod signed;
mod site;
mod target;

pub use laws::heads_agree;
pub use operation::Operation;
pub use request::write_request;
pub use site::Site;
