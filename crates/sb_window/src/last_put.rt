//! The last put of a block.

ghost use Rattle.std.specs.Prelude.{◌≡◌};
ghost use Rattle.sb_window.specs.LastPuts.{is_kept};

use sb_base::Digest;

/// How a put ended, and when, and the MD5 of its content.
#[derive(Drop, Clone, Copy, PartialEq, Eq, Debug)]
pub struct Ending {
    /// The disk's clock, in milliseconds.
    pub reading: u64,
    pub ok: bool,
    pub digest: Digest,
}

/// The last put of a block: how it ended, unless it is begun and not ended.
#[derive(Drop, Clone, Copy, PartialEq, Eq, Debug)]
pub struct LastPut {
    pub ending: Option<Ending>,
}

impl LastPut {
    /// Whether it isn't past its time: it has not ended, or less than `md5_time` ago, or that is 0, which is for ever.
    pub(crate) fn is_kept(&self, md5_time: u32, now: u64) -> bool
        ensures { result ≡ is_kept md5_time now self.now }
    {
        match self.ending {
            None => true,
            Some(ending) => md5_time == 0 || now.saturating_sub(ending.reading) < md5_time as u64,
        }
    }
}
