//! The names of a bucket that begin with a prefix, page by page.

ghost use Rattle.std.specs.Prelude.{◌≡◌, ◌<◌, Some, None, [], length, get_or, IfOk, MatchOption};
ghost use Rattle.sb_world.specs.Told.{CountsFaults};
ghost use Rattle.sb_tools.specs.Asking.{Asks};
ghost use Rattle.sb_tools.specs.Faults.{IsStoreFault};
ghost use Rattle.sb_tools.specs.Listings.{AsksPage, disorder_in, fallen_in, is_above, more_unless};
ghost use Rattle.sb_tools.specs.Pages.{end_of};

use crate::fault::{ToolFault, fault_by};
use sb_base::Text;
use sb_world::{Link, Page};
use std::alloc::Global;

/// How many pages are asked for at most.
pub(crate) const MAX_PAGES: u64 = 4_294_967_296;

/// A listing that is asked for page by page. Its pages take no memory of its own.
#[derive(Drop)]
pub(crate) struct Listing {
    page: Page,
    marker: Text,
}

impl Listing {
    /// A listing of which no page was asked for.
    pub(crate) fn new(alloc: Global) -> Listing
        ensures { end_of result ≡ [] }
    {
        Listing {
            page: Page {
                keys: Vec::new(alloc),
            },
            marker: Text::from_vec(Vec::new(alloc)),
        }
    }

    /// The names of the page that came last.
    pub(crate) fn names(&self) -> &[Text]
        ensures { result.now ≡ self.now.page }
    {
        &self.page.keys
    }

    /// Asks for the next page, with one request, and answers whether more follow.
    ///
    /// `BadOrder` comes where a name of the page isn't above the one before it, or the page has none and tells that
    /// more follow, and `StoreFault` where the request fails.
    pub(crate) fn next_page<L: Link>(
        &mut self,
        alloc: Global,
        link: &mut L,
        prefix: &str,
    ) -> Result<bool, ToolFault>
        ensures told { Asks (L.log link.old) (L.log link.new)
            (AsksPage prefix.now (end_of self.old) result self.new.page) }
        ensures marker { self.new.marker ≡ end_of self.old }
        ensures cause { CountsFaults (L.faults link.old) (L.faults link.new) (IsStoreFault result) }
    {
        self.turn();
        match link.list(prefix.as_bytes(), self.marker.bytes(), &mut self.page) {
            Ok(more) => self.more_in_order(alloc, more),
            Err(failure) => Err(fault_by(failure)),
        }
    }

    /// The last name of the page is what the next one is asked for from.
    fn turn(&mut self)
        ensures { self.new.marker ≡ end_of self.old }
    {
        if let Some(name) = self.page.keys.pop() {
            self.marker = name;
        }
    }

    /// Whether more follow, unless the page is out of order.
    fn more_in_order(&mut self, alloc: Global, more: bool) -> Result<bool, ToolFault>
        ensures answer { result ≡ more_unless more (disorder_in self.old.marker self.old.page more) }
        ensures marker { self.new.marker ≡ self.old.marker }
        ensures page { IfOk result (λ more. self.new.page ≡ self.old.page) }
    {
        if more && self.page.keys.is_empty() {
            return Err(ToolFault::BadOrder(Text::from_vec(Vec::new(alloc))));
        }
        match first_fallen(self.marker.bytes(), &self.page.keys) {
            Some(place) => Err(ToolFault::BadOrder(self.page.keys.swap_remove(place))),
            None => Ok(more),
        }
    }
}

/// The place of the first name that isn't above the one before it.
fn first_fallen(before: &[u8], names: &[Text]) -> Option<usize>
    ensures { MatchOption result (fallen_in before.now names.now ≡ None)
        (λ place. (place < length names.now) × (fallen_in before.now names.now ≡ Some (get_or names.now place []))) }
{
    let mut last = before;
    for (place, name) in names.iter().enumerate() {
        if !is_above(last, name.bytes()) {
            return Some(place);
        }
        last = name.bytes();
    }
    None
}

/// Whether a name is above another in byte order.
fn is_above(before: &[u8], name: &[u8]) -> bool
    ensures { result ≡ is_above before.now name.now }
{
    name > before
}
