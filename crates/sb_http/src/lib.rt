//! One HTTP exchange over a wire: a request is sent, and one response read.
//!
//! What is answered is a function of the bytes that came, however they were cut.
#![tactic(auto)]

mod body;
mod chunked;
mod exchanging;
mod fault;
mod fields;
mod framing;
mod head;
mod incoming;
mod laws;
mod line;
mod reading;
mod receiving;
mod response;
mod window;

pub use exchanging::exchange;
pub use fault::HttpFault;
pub use framing::MAX_LENGTH;
pub use head::{MAX_HEAD, MAX_HEADERS, MAX_INTERIM};
pub use laws::{answers_agree, exchanges_agree};
pub use reading::MAX_LINE;
pub use response::{OTHER_LIMIT, Response};

#[cfg(test)]
mod tests;
