//! The laws of a core. Each function does nothing; its contract is the law.

ghost use Rattle.sb_core.specs.Leads.{GetUndone};
ghost use Rattle.sb_core.specs.Causes.{ReadsHaveCauses, WritesHaveCauses, FlushesHaveCauses};
ghost use Rattle.sb_core.specs.JobCauses.{JobsHaveCauses};

/// Where a GET begins and its answer isn't taken, as many events are left for each block as before.
pub fn get_undone()
    ensures { GetUndone }
{}

/// An answer to a read has its cause in every history that the core represents: the block is held or known to be zeros, a
/// GET of it is open, or it is neither, and an entry is free, the victim leaves, or the next put decides.
pub fn reads_have_causes()
    ensures { ReadsHaveCauses }
{}

/// So has an answer to a write: the next put decides too where it would make one more block dirty than may be, and zeros
/// in a block that is known to be zeros make none dirty.
pub fn writes_have_causes()
    ensures { WritesHaveCauses }
{}

/// So has an answer to a step of a flush that has begun: it is done just where it has to wait for no block.
pub fn flushes_have_causes()
    ensures { FlushesHaveCauses }
{}

/// So has an answer to a worker: there is nothing more to do just where the disk was closed; a block is put that is due,
/// the victim leaves that is unused, or the worker rests until the least reading at which one of these can come.
pub fn jobs_have_causes()
    ensures { JobsHaveCauses }
{}
