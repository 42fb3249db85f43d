//! A session over bytes: the greeting, the handshake and the requests of one client, over any source, any sink and any
//! disk.
//!
//! `serve` answers options until one begins the transmission. Then it reads one request after the other, does what it
//! asks for part by part, and writes its reply: READ, WRITE, TRIM and WRITE_ZEROES, with FUA or without, and FLUSH, until
//! DISC. Other requests get an error, and bytes that are no message end the session.
#![tactic(auto)]

mod alone;
mod answer;
mod buffer;
mod end;
mod haggling;
mod laws;
mod range;
mod serving;
mod shared;
mod transmission;
mod zeroing;

pub use alone::serve_alone;
pub use buffer::Buffer;
pub use end::SessionEnd;
pub use haggling::MAX_ANSWERS;
pub use laws::one_input;
pub use serving::serve;
pub use shared::serve_conn;

#[cfg(test)]
mod fakes;
#[cfg(test)]
mod messages;
#[cfg(test)]
mod table_tests;
#[cfg(test)]
mod tests;
#[cfg(test)]
mod zero_tests;
