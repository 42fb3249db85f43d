//! Reading names.

ghost use Rattle.std.specs.Prelude.{◌≡◌, ◌≤◌, drop, length};
ghost use Rattle.sb_s3link.specs.Readings.{ReadsName};

use crate::entity::byte_at;
use sb_base::Text;
use std::alloc::{AllocError, Global};

/// What ends a name.
const END: &[u8] = b"</Key>";

/// A name, and how many bytes it takes with its end tag.
#[derive(Drop)]
pub(crate) struct Name {
    pub(crate) text: Text,
    pub(crate) length: usize,
}

/// Reads the name that stands behind `<Key>`, if one does.
pub(crate) fn read_name(alloc: Global, text: &[u8]) -> Result<Option<Name>, AllocError>
    ensures { ReadsName text.now result }
{
    let mut name = Vec::new(alloc);
    let mut at = 0;
    'bytes: while at < text.len() {
        let rest = &text[at..];
        if rest.starts_with(END) {
            return Ok(Some(Name {
                text: Text::from_vec(name),
                length: at + END.len(),
            }));
        }
        match byte_at(rest) {
            Some(written) => {
                name.push(written.byte)?;
                at += written.length;
            }
            None => return Ok(None),
        }
    }
    Ok(None)
}
