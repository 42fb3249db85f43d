//! Which contents a store may show.

ghost use Rattle.std.specs.Prelude.{◌≡◌, ◌&&◌, Decides, not};
ghost use Rattle.std.specs.List.{list_any};
ghost use Rattle.sb_history.specs.Visibility.{ShowsOneOf};
ghost use Rattle.sb_staleness.specs.Showing.{is_settled, is_superseded, shows, visible_to};

use crate::begin::Begin;
use crate::content::shows;
use crate::delays::Delays;
use crate::puts::SeenPut;
use sb_base::{Digest, Shown};

/// What a store may show to a GET of a block: the block's puts so far, and its content at the start.
#[derive(Drop, Clone, Copy)]
pub(crate) struct Sight<'a> {
    pub delays: Delays,
    pub begin: Begin,
    pub start: &'a [u8],
    pub puts: &'a [SeenPut<'a>],
}

impl Sight<'_> {
    /// An answer shows one of the visible contents.
    pub(crate) fn shows(&self, block_size: u32, verify: Option<Digest>, answer: &Shown) -> bool
        ensures { Decides result (ShowsOneOf block_size (visible_to self.now) verify answer.now) }
    {
        match answer {
            Shown::Failed => true,
            _ => self.shows_content(block_size, verify, answer),
        }
    }

    /// An answer shows a visible content, where it isn't a failure.
    #[tactic(auto, using(crate::proofs::PutLemmas::any_visible))]
    fn shows_content(&self, block_size: u32, verify: Option<Digest>, answer: &Shown) -> bool
        ensures { result ≡ list_any (shows block_size verify answer.now) (visible_to self.now) }
    {
        self.shows_put(block_size, verify, answer)
            || !self.has_settled() && shows(block_size, verify, answer, self.start)
    }

    /// An answer shows the content of a visible put.
    fn shows_put(&self, block_size: u32, verify: Option<Digest>, answer: &Shown) -> bool
        ensures { result ≡ list_any (λ put. not (is_superseded self.now put)
            && shows block_size verify answer.now put.content.now) self.now.puts.now }
    {
        self.puts.iter().any(|put| !self.is_superseded(put)
            && shows(block_size, verify, answer, put.content))
    }

    /// A put has settled.
    fn has_settled(&self) -> bool
        ensures { result ≡ list_any (is_settled self.now) self.now.puts.now }
    {
        self.puts
            .iter()
            .any(|put| put.is_settled(self.delays.show, self.begin))
    }

    /// A put that has settled supersedes this one.
    fn is_superseded(&self, put: &SeenPut<'_>) -> bool
        ensures { result ≡ is_superseded self.now put.now }
    {
        self.puts.iter().any(|later| {
            later.is_settled(self.delays.show, self.begin)
                && later.supersedes(self.delays.order, put)
        })
    }
}
