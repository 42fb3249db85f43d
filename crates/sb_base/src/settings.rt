//! The settings of a disk.

ghost use Rattle.std.specs.Prelude.{◌≡◌, Ok, IfOk};
ghost use Rattle.sb_base.specs.SettingsTable.{IsChecked, check_of, numbers_check, uncovered_blocks};

use thiserror::Error;

/// The most entries of the MD5 window.
pub const MAX_MD5_SIZE: u32 = 1_048_576;

/// The most blocks that are cached.
pub const MAX_CACHE_SIZE: u32 = 1_048_576;

/// The longest time in which a GET is asked anew, in milliseconds: an hour.
pub const MAX_STALE_LIMIT: u32 = 3_600_000;

/// The most blocks that are read ahead.
pub const MAX_READ_AHEAD: u32 = 1024;

/// The most workers.
pub const MAX_THREADS: u32 = 64;

/// The most connections that are served at once.
pub const MAX_CLIENTS: u32 = 16;

/// Why a disk can't have some settings. The texts name the options by which they are given.
#[derive(Drop, Clone, Copy, PartialEq, Eq, Debug, Error)]
pub enum SettingsFault {
    #[error("--md5CacheSize 0 needs --minWriteDelay 0 and --md5CacheTime 0, not {min_write_delay} and {md5_time}")]
    TimesWithoutWindow { min_write_delay: u32, md5_time: u32 },
    #[error("--md5CacheSize {0} is above 1048576")]
    WindowSize(u32),
    #[error("--md5CacheTime {md5_time} is below --minWriteDelay {min_write_delay}")]
    WindowShort { md5_time: u32, min_write_delay: u32 },
    #[error("--md5CacheTime 0 needs --md5CacheSize {blocks}, one entry for each block, not {md5_size}")]
    WindowSmall { md5_size: u32, blocks: u32 },
    #[error("--blockCacheSize {0} is not between 1 and 1048576")]
    CacheSize(u32),
    #[error("--blockCacheMaxDirty {max_dirty} is above --blockCacheSize {cache_size}")]
    MaxDirty { max_dirty: u32, cache_size: u32 },
    #[error("--staleLimit {0} is above 3600000")]
    StaleLimit(u32),
    #[error("--readAhead {0} is above 1024")]
    ReadAhead(u32),
    #[error("--blockCacheThreads {0} is not between 1 and 64")]
    Threads(u32),
    #[error("--clients {0} is not between 1 and 16")]
    Clients(u32),
}

/// The settings of a disk. Delays, times and the limit are milliseconds, sizes and counts are blocks, but for
/// `md5_size`, the entries of the MD5 window, and `threads` and `clients`.
#[derive(Drop, Clone, Copy, PartialEq, Eq, Debug)]
pub struct Settings {
    /// How long after the end of a put of a block its next put may begin.
    pub min_write_delay: u32,
    /// How long the MD5 of a put is kept after its end; 0 is for ever.
    pub md5_time: u32,
    /// For how many blocks an MD5 is kept; 0 turns the window off.
    pub md5_size: u32,
    /// How many blocks are cached.
    pub cache_size: u32,
    /// How long a block may be dirty before a worker puts it.
    pub write_delay: u32,
    /// How long a clean block may be unused before a worker drops it; 0 is for ever.
    pub clean_time: u32,
    /// How many blocks may be dirty; 0 is no limit.
    pub max_dirty: u32,
    /// How long after a put a GET that shows an older version is asked anew.
    pub stale_limit: u32,
    /// How many blocks are read ahead.
    pub read_ahead: u32,
    /// After how many blocks read in a row; 0 is never.
    pub read_ahead_trigger: u32,
    /// How many workers there are.
    pub threads: u32,
    /// How many connections are served at once.
    pub clients: u32,
}

impl Settings {
    /// Checks that a disk can have the settings, where its number of blocks may be unknown. The first fault in the
    /// order of `SettingsFault` is told. It takes no memory.
    pub fn check(&self, blocks: Option<u32>) -> Result<(), SettingsFault>
        ensures answer { result ≡ check_of self.now blocks }
        ensures sound { IfOk result (λ _. IsChecked self.now blocks) }
        ensures complete { IsChecked self.now blocks → result ≡ Ok tt }
    {
        let min_write_delay = self.min_write_delay;
        let md5_time = self.md5_time;
        if self.md5_size == 0 && (min_write_delay != 0 || md5_time != 0) {
            return Err(SettingsFault::TimesWithoutWindow {
                min_write_delay,
                md5_time,
            });
        }
        if self.md5_size > MAX_MD5_SIZE {
            return Err(SettingsFault::WindowSize(self.md5_size));
        }
        if md5_time != 0 && md5_time < min_write_delay {
            return Err(SettingsFault::WindowShort {
                md5_time,
                min_write_delay,
            });
        }
        if let Some(blocks) = self.uncovered_blocks(blocks) {
            return Err(SettingsFault::WindowSmall {
                md5_size: self.md5_size,
                blocks,
            });
        }
        self.check_numbers()
    }

    /// The blocks for which a window that keeps each MD5 for ever is too small, where they are known.
    fn uncovered_blocks(&self, blocks: Option<u32>) -> Option<u32>
        ensures { result ≡ uncovered_blocks self.now blocks }
    {
        blocks.filter(|blocks| {
            self.md5_size != 0 && self.md5_time == 0 && *blocks > self.md5_size
        })
    }

    /// Checks the size of the cache and the numbers behind it.
    fn check_numbers(&self) -> Result<(), SettingsFault>
        ensures { result ≡ numbers_check self.now }
    {
        if self.cache_size == 0 || self.cache_size > MAX_CACHE_SIZE {
            return Err(SettingsFault::CacheSize(self.cache_size));
        }
        if self.max_dirty > self.cache_size {
            return Err(SettingsFault::MaxDirty {
                max_dirty: self.max_dirty,
                cache_size: self.cache_size,
            });
        }
        if self.stale_limit > MAX_STALE_LIMIT {
            return Err(SettingsFault::StaleLimit(self.stale_limit));
        }
        if self.read_ahead > MAX_READ_AHEAD {
            return Err(SettingsFault::ReadAhead(self.read_ahead));
        }
        if self.threads == 0 || self.threads > MAX_THREADS {
            return Err(SettingsFault::Threads(self.threads));
        }
        if self.clients == 0 || self.clients > MAX_CLIENTS {
            return Err(SettingsFault::Clients(self.clients));
        }
        Ok(())
    }
}
