//! The laws of a disk's history. Each function does nothing; its contract is the law, which holds of every history.

ghost use Rattle.sb_history.specs.Laws.{
  AckedIsPossible,
  CheckedSettingsCover,
  ClockTracesJoin,
  EntryIsTicked,
  NextMountIsRecent,
  OnePassIsAll,
  OtherPassIsUnticked,
  PassesJoin,
  PlainTraceHolds,
  RequestsJoin,
  SettledIsPossible,
  SmallerDelaysAreWithin,
  SoundFlushes,
  SoundIsLegal,
  SoundSurvivesCrash,
  StaleIsYoung,
  StampsAreEpochs,
  StatesGoByTable,
  UnwindowedExpectsNothing,
  UnwindowedFlushes,
  UnwindowedIsLegal,
  UnwindowedSurvivesCrash,
};

/// Over a store that is stale only within the delays, reads are those of registers.
pub fn sound_is_legal()
    ensures { SoundIsLegal }
{}

/// At the end of a flush the store may come to hold only what each block held since the flush began.
pub fn sound_flushes()
    ensures { SoundFlushes }
{}

/// At each moment the store may come to hold only what each block held since the last flush that is done began.
pub fn sound_survives_crash()
    ensures { SoundSurvivesCrash }
{}

/// Without a window, and over a store that shows the latest versions, reads are those of registers, whatever MD5s
/// collide.
pub fn unwindowed_is_legal()
    ensures { UnwindowedIsLegal }
{}

/// The same of flushes.
pub fn unwindowed_flushes()
    ensures { UnwindowedFlushes }
{}

/// The same of crashes.
pub fn unwindowed_survives_crash()
    ensures { UnwindowedSurvivesCrash }
{}

/// Without a window no GET has a digest to show, so that an answer that did not fail may be taken.
pub fn unwindowed_expects_nothing()
    ensures { UnwindowedExpectsNothing }
{}

/// After a crash the next mount reads what each block held since the last flush that is done began.
pub fn next_mount_is_recent()
    ensures { NextMountIsRecent }
{}

/// What a settled store shows is what it may come to hold.
pub fn settled_is_possible()
    ensures { SettledIsPossible }
{}

/// What a put acknowledged last is what the store may come to hold.
pub fn acked_is_possible()
    ensures { AckedIsPossible }
{}

/// An answer that differs from what was expected is to a GET that began before the delay was over.
pub fn stale_is_young()
    ensures { StaleIsYoung }
{}

/// The states that a history gives go by the table, whatever the store shows.
pub fn states_go_by_table()
    ensures { StatesGoByTable }
{}

/// A write stands before a flush began exactly where the epoch at the write is at most the flush's mark.
pub fn stamps_are_epochs()
    ensures { StampsAreEpochs }
{}

/// Checked settings cover any delay up to the spacing of writes.
pub fn checked_settings_cover()
    ensures { CheckedSettingsCover }
{}

/// A store that is stale within smaller delays is so within larger ones.
pub fn smaller_delays_are_within()
    ensures { SmallerDelaysAreWithin }
{}

/// The calls of two segments of a history are those of both.
pub fn requests_join()
    ensures { RequestsJoin }
{}

/// The ticks of two segments of a history are those of both.
pub fn clock_traces_join()
    ensures { ClockTracesJoin }
{}

/// An entry of the caller's pass adds the reading taken for it, and the ticks of its pause.
pub fn entry_is_ticked()
    ensures { EntryIsTicked }
{}

/// An entry of another pass adds nothing to the caller's ticks.
pub fn other_pass_is_unticked()
    ensures { OtherPassIsUnticked }
{}

/// Where no entry is followed by a pause, one reading for each is the clock's trace.
pub fn plain_trace_holds()
    ensures { PlainTraceHolds }
{}

/// The entries of a pass in two segments of a history are those in both.
pub fn passes_join()
    ensures { PassesJoin }
{}

/// Where each entry is of one pass, its entries are the history.
pub fn one_pass_is_all()
    ensures { OnePassIsAll }
{}
