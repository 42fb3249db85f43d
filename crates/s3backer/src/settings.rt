//! The settings of a disk.

use sb_base::Settings;

/// The settings of every disk: puts of a block are 500 ms apart, and the MD5s of the last 10,000 blocks that were put
/// are kept for 10 s. 1,000 blocks are cached, all of which may be dirty. The values from `write_delay` on have no effect
/// yet, but for `max_dirty` and `stale_limit`.
pub const SETTINGS: Settings = Settings {
    min_write_delay: 500,
    md5_time: 10_000,
    md5_size: 10_000,
    cache_size: 1000,
    write_delay: 250,
    clean_time: 0,
    max_dirty: 0,
    stale_limit: 5000,
    read_ahead: 4,
    read_ahead_trigger: 0,
    threads: 20,
    clients: 4,
};
