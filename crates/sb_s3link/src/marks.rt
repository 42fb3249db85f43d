//! The marks of a listing that say whether it is cut short.

ghost use Rattle.std.specs.Prelude.{◌≡◌, ◌++◌, ◌∷◌, [], List, Bool};
ghost use Rattle.sb_s3link.specs.Items.{item_of, mark_at, mark_in};

/// What is kept of the marks so far.
#[derive(Drop, Clone, Copy)]
pub(crate) enum Marks {
    Nothing,
    One(bool),
    Several,
}

impl Marks {
    ghost use Rattle.sb_s3link.specs.Listings.{Keeps};

    /// The marks with one more.
    fn with(self, more: bool) -> Marks
        ensures { (marks : List Bool) → Keeps self marks → Keeps result (marks ++ more ∷ []) }
    {
        match self {
            Marks::Nothing => Marks::One(more),
            Marks::One(_) => Marks::Several,
            Marks::Several => Marks::Several,
        }
    }

    /// The marks with the one that stands at the begin of a text, if one does.
    pub(crate) fn behind(self, text: &[u8]) -> Marks
        ensures { (marks : List Bool) → Keeps self marks → Keeps result
            (marks ++ mark_in (item_of (mark_at text.now))) }
    {
        match mark_at(text) {
            Some(more) => self.with(more),
            None => self,
        }
    }
}

/// The mark that stands at the begin of a text, if one does.
fn mark_at(text: &[u8]) -> Option<bool>
    ensures { result ≡ mark_at text.now }
{
    if !matches!(text, [b'<', b'I', ..]) {
        None
    } else if text.starts_with(b"<IsTruncated>true</IsTruncated>") {
        Some(true)
    } else if text.starts_with(b"<IsTruncated>false</IsTruncated>") {
        Some(false)
    } else {
        None
    }
}
