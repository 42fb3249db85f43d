//! The callers of a disk and their passes, which are split from one pass and joined to it.

ghost use Rattle.std.specs.Prelude.{◌≡◌};
ghost use Rattle.std.specs.List.{AllByRecursion};
ghost use Rattle.sb_crew.specs.SharedDisks.{MayUse};
ghost use Rattle.sb_server.specs.Callers.{HasPass, GotPasses, TookPasses};

use sb_core::Core;
use sb_crew::Disk;
use sb_turn::Pass;
use std::sync::Wait;

/// What one caller of a disk works with, and its pass while it does.
#[derive(Drop)]
pub struct Caller<T> {
    pub tools: T,
    pub(crate) pass: Option<Pass<Core>>,
}

impl<T> Caller<T> {
    /// A caller that has no pass yet.
    pub fn new(tools: T) -> Caller<T>
        ensures { result.tools ≡ tools }
    {
        Caller { tools, pass: None }
    }

    /// What it works with.
    pub fn into_tools(self) -> T
        ensures { result ≡ self.tools }
    {
        let Caller { tools, pass: _ } = self;
        tools
    }
}

/// Gives each caller a pass of its own, split from this one.
pub(crate) fn give_passes<R: Wait, T>(
    rt: &R,
    disk: &Disk,
    pass: &mut Pass<Core>,
    callers: &mut [Caller<T>],
)
    requires { MayUse disk.now pass.old }
    ensures { GotPasses disk.now pass.old pass.new callers.old callers.new }
{
    if let Some((caller, others)) = callers.split_first_mut() {
        caller.pass = Some(disk.split(rt, pass));
        give_passes(rt, disk, pass, others);
    }
}

/// Joins the pass of each caller to this one.
pub(crate) fn take_passes<T>(disk: &Disk, pass: &mut Pass<Core>, callers: &mut [Caller<T>])
    requires pass { MayUse disk.now pass.old }
    requires have { AllByRecursion (HasPass disk.now) callers.old }
    ensures { TookPasses disk.now pass.old pass.new callers.old callers.new }
{
    if let Some((caller, others)) = callers.split_first_mut() {
        match caller.pass.take() {
            Some(theirs) => disk.join(pass, theirs),
            None => unreachable!(),
        }
        take_passes(disk, pass, others);
    }
}
