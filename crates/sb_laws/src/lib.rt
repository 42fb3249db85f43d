//! The laws of a disk's history, each the contract of a public function that does nothing.
#![tactic(auto)]

mod laws;
mod worked;

pub use laws::{
    acked_is_possible, checked_settings_cover, clock_traces_join, entry_is_ticked,
    next_mount_is_recent, one_pass_is_all, other_pass_is_unticked, passes_join, plain_trace_holds,
    requests_join, settled_is_possible, smaller_delays_are_within, sound_flushes, sound_is_legal,
    sound_survives_crash, stale_is_young, stamps_are_epochs, states_go_by_table,
    unwindowed_expects_nothing, unwindowed_flushes, unwindowed_is_legal, unwindowed_survives_crash,
};
pub use worked::{
    clock_that_stands_still, failed_put_shown_late, flush_waits_for_its_put,
    old_value_read_is_illegal, old_version_shown_for_good, old_version_shown_twice,
    stale_answer_refused, write_while_a_get_is_open, zeros_are_deleted, zeros_over_known_zeros,
};
