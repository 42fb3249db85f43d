//! Requests, as far as they are signed.

ghost use Rattle.std.specs.Prelude.{◌≡◌};

use sb_base::Text;

/// A header, or a part of a query.
#[derive(Drop)]
pub struct Pair {
    pub name: Text,
    pub value: Text,
}

/// The methods of S3 that the disk uses.
#[derive(Drop, Clone, Copy, PartialEq, Eq, Debug)]
pub enum Method {
    Get,
    Put,
    Head,
    Delete,
}

/// What is signed of a request.
#[derive(Drop)]
pub struct Request {
    pub method: Method,
    /// The path before it is encoded.
    pub path: Text,
    /// The query before it is encoded, in byte order of the names, which is the order in which it is sent.
    pub query: Vec<Pair>,
    /// The headers that are signed, in any order, with names in lower case, but for `x-amz-content-sha256` and
    /// `x-amz-date`, which `Signer::sign` adds: `host`, for a PUT `content-md5`, and those that begin with
    /// `x-amz-meta-`.
    pub signed: Vec<Pair>,
    /// The SHA-256 of the body.
    pub payload: [u8; 32],
}

impl Method {
    ghost use Rattle.sb_sign.specs.Requests.{method_text};

    /// The method's word in a request line.
    pub fn text(&self) -> &'static [u8]
        ensures { result.now ≡ method_text self.now }
    {
        match self {
            Method::Get => b"GET",
            Method::Put => b"PUT",
            Method::Head => b"HEAD",
            Method::Delete => b"DELETE",
        }
    }
}
