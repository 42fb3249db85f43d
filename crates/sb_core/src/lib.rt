//! The disk as a machine without IO: one call is one event, and adds one entry to the history.
#![tactic(auto)]

mod bytes;
mod flushes;
mod job;
mod jobs;
mod laws;
mod machine;
mod marks;
mod puts;
mod reads;
mod room;
mod standing;
mod step;
mod writes;

pub use job::{GetJob, Mark, PutJob};
pub use laws::{
    flushes_have_causes, get_undone, jobs_have_causes, reads_have_causes, writes_have_causes,
};
pub use machine::Core;
pub use puts::put_digest;
pub use standing::{Fixed, Timed};
pub use step::{FlushStep, GetDone, JobStep, ReadStep, WriteStep};

#[cfg(test)]
mod tests;
#[cfg(test)]
mod trials;
