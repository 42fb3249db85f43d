//! The fields of a head.

ghost use Rattle.std.specs.Prelude.{◌≡◌, IfOk, IsTrue, ◌↔◌, All, length, take, map};
ghost use Rattle.http_header.specs.Token.{lowercase};
ghost use Rattle.httparse.specs.Spans.{IsHeaderWithin, header_bytes};
ghost use Rattle.sb_http.specs.Fields.{pair_of};

use httparse::spans::HeaderSpan;
use sb_base::Text;
use sb_sign::Pair;
use std::alloc::{AllocError, Global};

/// The fields that spans cover, with their names in lower case.
pub(crate) fn fields_of(
    alloc: Global,
    head: &[u8],
    spans: &[HeaderSpan],
) -> Result<Vec<Pair>, AllocError>
    requires { All (IsHeaderWithin (length head.now)) spans.now }
    ensures { IfOk result (λ pairs. pairs.items ≡ map pair_of (map (header_bytes head.now) spans.now)) }
{
    let mut pairs = Vec::new(alloc);
    for span in spans {
        pairs.push(Pair {
            name: in_lower_case(alloc, span.name.of(head))?,
            value: Text::of(alloc, span.value.of(head))?,
        })?;
    }
    Ok(pairs)
}

/// A text with its letters in lower case.
fn in_lower_case(alloc: Global, text: &[u8]) -> Result<Text, AllocError>
    ensures { IfOk result (λ lower. lower ≡ lowercase text.now) }
{
    let mut lower = Vec::from_slice(alloc, text)?;
    lower.as_mut_slice().make_ascii_lowercase();
    Ok(Text::from_vec(lower))
}
