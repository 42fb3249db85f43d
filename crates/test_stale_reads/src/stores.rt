//! The stores of a play.

use crate::draws::Draws;
use crate::image::Image;
use sb_base::Text;
use sb_fakes::{Object, TimedStore};
use std::alloc::{AllocError, Global};

/// How many requests may be to fail.
const REQUESTS: u64 = 1000;

/// An object of these bytes.
fn object(alloc: Global, name: &[u8], body: &[u8]) -> Result<Object, AllocError> {
    Ok(Object {
        name: Text::of(alloc, name)?,
        body: Text::of(alloc, body)?,
    })
}

/// A store that begins with blocks 0 and 1 of an image.
pub(crate) fn store_of(
    alloc: Global,
    image: &Image,
    fails: Vec<u64>,
) -> Result<TimedStore, AllocError> {
    let mut start = Vec::new(alloc);
    start.push(object(alloc, b"00000000", image.block(0))?)?;
    start.push(object(alloc, b"00000001", image.block(1))?)?;
    Ok(TimedStore::new(alloc, start, Vec::new(alloc), fails))
}

/// The numbers of the requests that are to fail, one in 16.
pub(crate) fn to_fail(alloc: Global, draws: &mut Draws) -> Result<Vec<u64>, AllocError> {
    let mut planned = Vec::new(alloc);
    for number in 1..REQUESTS {
        if draws.below(16) == 0 {
            planned.push(number)?;
        }
    }
    Ok(planned)
}
