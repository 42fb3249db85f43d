//! A listing as S3 sends it.

use std::alloc::{AllocError, Global};

/// A listing of so many names, with more behind it.
pub fn page_of(alloc: Global, names: u32) -> Result<Vec<u8>, AllocError> {
    let mut body = Vec::from_slice(
        alloc,
        b"<?xml version=\"1.0\" encoding=\"UTF-8\"?>\n<ListBucketResult xmlns=\"http://s3.amazonaws.com/doc/2006-03-01/\"><Name>disk</Name><Prefix></Prefix><Marker></Marker><MaxKeys>1000</MaxKeys><IsTruncated>true</IsTruncated>",
    )?;
    for number in 0..names {
        body.extend_from_slice(b"<Contents><Key>")?;
        let name = format!(in alloc; "{number:08x}")?;
        body.extend_from_slice(name.as_bytes())?;
        body.extend_from_slice(
            b"</Key><LastModified>2023-11-14T22:13:20.000Z</LastModified><ETag>&quot;900150983cd24fb0d6963f7d28e17f72&quot;</ETag><Size>4096</Size><Owner><ID>75aa57f09aa0c8caeab4f8c24e99d10f8e7faeebf76c078efc7c6caea54ba06a</ID><DisplayName>owner</DisplayName></Owner><StorageClass>STANDARD</StorageClass></Contents>",
        )?;
    }
    body.extend_from_slice(b"</ListBucketResult>")?;
    Ok(body)
}
