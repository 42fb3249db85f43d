//! AWS Signature Version 4 in the Authorization header, for S3.
#![tactic(auto)]

mod date;
mod day;
mod encoding;
mod headers;
mod hmac;
mod laws;
mod request;
mod signer;

pub use encoding::{content_md5, encoded_path, encoded_query};
pub use hmac::hmac_sha256;
pub use laws::signatures_agree;
pub use request::{Method, Pair, Request};
pub use signer::{Authorization, SignFault, Signer};

#[cfg(test)]
mod tests;
