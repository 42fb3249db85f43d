//! What a bucket is asked for.

ghost use Rattle.std.specs.Prelude.{◌≡◌};

use sb_base::Digest;
use sb_sign::Method;
use sb_world::Meta;

/// A page of a listing: the names that begin with the prefix and stand after the marker.
#[derive(Drop, Clone, Copy)]
pub(crate) struct Listing<'a> {
    pub(crate) prefix: &'a [u8],
    pub(crate) marker: &'a [u8],
}

/// What a bucket is asked for: an object is read, put, deleted or looked at, or names are listed.
#[derive(Drop, Clone, Copy)]
pub struct Operation<'a> {
    pub(crate) method: Method,
    /// The object's name, none for a listing.
    pub(crate) name: &'a [u8],
    pub(crate) listing: Option<Listing<'a>>,
    pub(crate) body: &'a [u8],
    pub(crate) verify: Option<Digest>,
    pub(crate) meta: Option<Meta>,
}

impl<'a> Operation<'a> {
    ghost use Rattle.sb_s3request.specs.Operations.{
      asked_of,
      get_asked,
      put_asked,
      delete_asked,
      head_asked,
      list_asked,
      is_head,
    };

    /// A GET of an object, unless it has the MD5 `verify`, where one is given.
    pub fn get(name: &'a [u8], verify: Option<Digest>) -> Operation<'a>
        ensures { asked_of result ≡ get_asked name.now verify }
    {
        Operation {
            method: Method::Get,
            name,
            listing: None,
            body: b"",
            verify,
            meta: None,
        }
    }

    /// A PUT of an object, which carries the sizes of `meta` where they are given.
    pub fn put(name: &'a [u8], body: &'a [u8], meta: Option<Meta>) -> Operation<'a>
        ensures { asked_of result ≡ put_asked name.now body.now meta }
    {
        Operation {
            method: Method::Put,
            name,
            listing: None,
            body,
            verify: None,
            meta,
        }
    }

    /// A DELETE of an object.
    pub fn delete(name: &'a [u8]) -> Operation<'a>
        ensures { asked_of result ≡ delete_asked name.now }
    {
        Operation {
            method: Method::Delete,
            name,
            listing: None,
            body: b"",
            verify: None,
            meta: None,
        }
    }

    /// A HEAD of an object.
    pub fn head(name: &'a [u8]) -> Operation<'a>
        ensures { asked_of result ≡ head_asked name.now }
    {
        Operation {
            method: Method::Head,
            name,
            listing: None,
            body: b"",
            verify: None,
            meta: None,
        }
    }

    /// A page of a listing, of at most 1,000 names that begin with the prefix and stand after the marker.
    pub fn list(prefix: &'a [u8], marker: &'a [u8]) -> Operation<'a>
        ensures { asked_of result ≡ list_asked prefix.now marker.now }
    {
        Operation {
            method: Method::Get,
            name: b"",
            listing: Some(Listing { prefix, marker }),
            body: b"",
            verify: None,
            meta: None,
        }
    }

    /// The body that is sent.
    pub fn body(&self) -> &'a [u8]
        ensures { result.now ≡ (asked_of self.now).body }
    {
        self.body
    }

    /// Whether the response has no body, as to HEAD.
    pub fn is_bodiless(&self) -> bool
        ensures { result ≡ is_head (asked_of self.now).method }
    {
        matches!(self.method, Method::Head)
    }
}
