//! Why a bucket gave no response.

use sb_http::HttpFault;

/// Why a bucket gave no response.
#[derive(Drop)]
pub(crate) enum AskFault {
    /// The moment has no date.
    NoDate,
    /// Memory was not found for the request.
    Memory,
    /// The exchange failed.
    Http(HttpFault),
}
