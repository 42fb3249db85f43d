//! The versions of an object.

ghost use Rattle.std.specs.Prelude.{◌≡◌, [], MatchOption, MatchResult};
ghost use Rattle.std.specs.Option.{option_copied};
ghost use Rattle.sb_fakes.specs.Versions.{versions_in, versions_of, with_version, newest_of, body_at, body_shown};
ghost use Rattle.sb_fakes.specs.Versions.{number_shown};
ghost use Rattle.sb_fakes.specs.Versions.{AddsVersion, SparesAllVersions};

use crate::content::Content;
use sb_base::Text;
use std::alloc::{AllocError, Global};

/// The versions of an object after its start, none where it was deleted.
#[derive(Drop)]
pub(crate) struct History {
    pub(crate) name: Text,
    versions: Vec<Option<Content>>,
    /// The number of the newest version that ended ok, 0 for the start.
    newest: usize,
}

impl History {
    /// What the newest version that ended ok is, if it is not the start.
    pub(crate) fn newest(&self) -> Option<&Option<Content>>
        ensures { option_copied result ≡ newest_of (versions_in self.now) }
    {
        match self.newest {
            0 => None,
            number => self.versions.get(number - 1),
        }
    }

    /// The number of the version that is shown.
    fn number_shown(&self, chosen: Option<u32>) -> usize
        ensures { result ≡ number_shown chosen (versions_in self.now) }
    {
        match chosen {
            Some(number) if number as usize <= self.versions.len() => number as usize,
            _ => self.newest,
        }
    }

    /// What the object is at a version.
    fn body_at<'a>(&'a self, start: Option<&'a [u8]>, number: usize) -> Option<&'a [u8]>
        ensures { option_copied result ≡ body_at (option_copied start.entry) self.now.versions.items number }
    {
        if number == 0 {
            return start;
        }
        match self.versions.get(number - 1) {
            Some(Some(content)) => Some(content.body.bytes()),
            _ => None,
        }
    }

    /// Adds a version, and whether it ended ok.
    fn add(&mut self, content: Option<Content>, ended: bool) -> Result<(), AllocError>
        ensures name { self.new.name ≡ self.old.name }
        ensures added { MatchResult result
            (λ _. versions_in self.new ≡ with_version content ended (versions_in self.old))
            (λ _. versions_in self.new ≡ versions_in self.old) }
    {
        self.versions.push(content)?;
        if ended {
            self.newest = self.versions.len();
        }
        Ok(())
    }
}

/// The history of a name, if it has one.
pub(crate) fn history_of<'a>(histories: &'a [History], name: &[u8]) -> Option<&'a History>
    ensures { MatchOption result (versions_of histories.now name.now ≡ record { kept = []; newest = 0 })
        (λ history. versions_of histories.now name.now ≡ versions_in history.now) }
{
    for history in histories {
        if history.name.bytes() == name {
            return Some(history);
        }
    }
    None
}

/// What an object is at the version that is shown.
pub(crate) fn body_shown<'a>(
    histories: &'a [History],
    start: Option<&'a [u8]>,
    name: &[u8],
    chosen: Option<u32>,
) -> Option<&'a [u8]>
    ensures { option_copied result ≡ body_shown (option_copied start.entry) (versions_of histories.now name.now)
        chosen }
{
    match history_of(histories, name) {
        Some(history) => history.body_at(start, history.number_shown(chosen)),
        None => start,
    }
}

/// Adds a version of a name, and whether it ended ok.
pub(crate) fn add_version(
    alloc: Global,
    histories: &mut Vec<History>,
    name: &[u8],
    content: Option<Content>,
    ended: bool,
) -> Result<(), AllocError>
    ensures { MatchResult result
        (λ _. AddsVersion name.now content ended (versions_of histories.old.items) (versions_of histories.new.items))
        (λ _. SparesAllVersions (versions_of histories.old.items) (versions_of histories.new.items)) }
{
    for history in histories.iter_mut() {
        if history.name.bytes() == name {
            return history.add(content, ended);
        }
    }
    let mut history = History {
        name: Text::of(alloc, name)?,
        versions: Vec::new(alloc),
        newest: 0,
    };
    history.add(content, ended)?;
    histories.push(history)?;
    Ok(())
}
