//! The core: the state of a disk.

ghost use Rattle.std.specs.Prelude.{ℕ, ◌≡◌, ◌≢◌, ◌<◌, ◌≤◌, ◌^◌, length, Some, IfOk, IsTrue};
ghost use Rattle.md5.specs.Md5.{md5};
ghost use Rattle.sb_base.specs.Shapes.{IsSound};
ghost use Rattle.sb_base.specs.SettingsTable.{IsChecked};
ghost use Rattle.sb_history.specs.Contents.{zeros};
ghost use Rattle.sb_history.specs.Eviction.{count};
ghost use Rattle.sb_zero.specs.Sets.{blocks_of, is_marked};
ghost use Rattle.sb_core.specs.PutWindow.{IsWindowOf, OpensWith};
ghost use Rattle.sb_core.specs.Fitting.{IsCacheOf, ExpectsNone};

use crate::bytes::digest_of;
use sb_base::{Digest, Geometry, Settings};
use sb_blocks::Blocks;
use sb_window::Window;
use sb_zero::Zeros;
use std::alloc::{AllocError, Global};

/// The state of a disk. It does no IO: each call but the readers is one event, and tells the caller what to do outside.
#[derive(Drop)]
pub struct Core {
    pub(crate) geometry: Geometry,
    pub(crate) settings: Settings,
    /// The greatest reading so far, in milliseconds.
    pub(crate) reading: u64,
    /// How many flushes have begun.
    pub(crate) epoch: u64,
    /// The mark of the last one, the greatest that was given.
    pub(crate) last_mark: Option<u64>,
    /// Whether the disk was closed.
    pub(crate) closed: bool,
    /// The place of the next entry in the history.
    pub(crate) place: u64,
    pub(crate) blocks: Blocks,
    pub(crate) window: Window,
    /// Which blocks are known to be zeros in the store.
    pub(crate) marks: Zeros,
    /// The MD5 that an absent object counts as, that of one block of zeros, where the window is on.
    pub(crate) absent: Digest,
    ghost limit: { reading ≤ 2 ^ 62 },
    ghost given: { window.reading ≤ reading },
    ghost its_window: { IsWindowOf geometry settings window },
    ghost its_cache: { IsCacheOf geometry settings blocks },
    ghost its_marks: { blocks_of marks ≡ geometry.blocks },
    ghost opens: { OpensWith blocks.cached window },
    ghost expects: { ExpectsNone settings blocks.cached },
    ghost absent_of: { settings.md5_size ≢ 0 → absent ≡ md5 (zeros geometry.block_size) },
}

/// The MD5 of a content, where it is wanted. It isn't computed elsewhere.
pub(crate) fn digest_if(wanted: bool, content: &[u8]) -> Digest
    ensures { IsTrue wanted → result ≡ md5 content.now }
{
    if wanted { digest_of(content) } else { [0; 16] }
}

impl Core {
    ghost use Rattle.sb_core.specs.Cores.{Represents, geometry_of, settings_of, reading_of, marks_of, Ticks};
    ghost use Rattle.sb_core.specs.Opening.{opening};
    ghost use Rattle.sb_core.specs.Standing.{StandsFor, entries_in, opening_of};
    ghost use Rattle.sb_core.specs.Leads.{IsIdle};

    /// A core whose cache has no entry. These blocks are known to be zeros in the store. It takes the memory of the cache
    /// and of the window.
    pub fn new(
        alloc: Global,
        geometry: Geometry,
        settings: Settings,
        zeros: Zeros,
    ) -> Result<Core, AllocError>
        requires sound { IsSound geometry }
        requires checked { IsChecked settings (Some geometry.blocks) }
        requires zeros { blocks_of zeros ≡ geometry.blocks }
        ensures represents { IfOk result (λ core. Represents core (opening (is_marked zeros) geometry.blocks)) }
        ensures marks { IfOk result (λ core. (block : ℕ) → marks_of core block ≡ is_marked zeros block) }
        ensures idle { IfOk result IsIdle }
        ensures geometry { IfOk result (λ core. geometry_of core ≡ geometry) }
        ensures settings { IfOk result (λ core. settings_of core ≡ settings) }
        ensures reading { IfOk result (λ core. reading_of core ≡ 0) }
        ensures stands { IfOk result (λ core. StandsFor core (entries_in (opening_of core))) }
    {
        let blocks = Blocks::new(alloc, &geometry, settings.cache_size)?;
        let window = Window::new(alloc, &geometry, &settings)?;
        let absent = digest_of_zeros(alloc, settings.md5_size != 0, geometry.block_size)?;
        Ok(Core {
            geometry,
            settings,
            reading: 0,
            epoch: 0,
            last_mark: None,
            closed: false,
            place: zeros.count() as u64,
            blocks,
            window,
            marks: zeros,
            absent,
        })
    }

    /// The disk's geometry.
    pub fn geometry(&self) -> Geometry
        ensures { result ≡ geometry_of self.now }
    {
        self.geometry
    }

    /// The disk's settings.
    pub fn settings(&self) -> Settings
        ensures { result ≡ settings_of self.now }
    {
        self.settings
    }

    /// Whether a block is known to be zeros in the store.
    pub fn marked(&self, block: u32) -> bool
        requires { block < (geometry_of self.now).blocks }
        ensures { result ≡ marks_of self.now block }
    {
        self.marks.is_zero(block)
    }

    /// How many blocks are known to be zeros in the store.
    pub fn known_zeros(&self) -> u32
        ensures { result ≡ count (marks_of self.now) (geometry_of self.now).blocks }
    {
        self.marks.count()
    }

    /// Begins an event: its reading is this one, if that isn't below the greatest so far, and its entry gets a place.
    pub(crate) fn tick(&mut self, now: u64) -> u64
        requires now { now ≤ 2 ^ 62 }
        ensures { Ticks self.old self.new now result }
    {
        let place = self.place;
        self.reading = now.max(self.reading);
        self.place = place.saturating_add(1);
        place
    }
}

/// The MD5 of so many zeros, where it is wanted.
fn digest_of_zeros(alloc: Global, wanted: bool, size: u32) -> Result<Digest, AllocError>
    ensures { IfOk result (λ digest. IsTrue wanted → digest ≡ md5 (zeros size)) }
{
    let mut content = Vec::new(alloc);
    content.resize(size as usize, 0)?;
    Ok(digest_if(wanted, &content))
}
