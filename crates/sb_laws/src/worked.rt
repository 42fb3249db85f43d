//! Worked histories over blocks of one or two bytes: what the definitions say of them.

ghost use Rattle.std.specs.Prelude.{◌≡◌, ◌≢◌, List, [], ◌∷◌, Option, Some, None, Bool, true, false};
ghost use Rattle.md5.specs.Md5.{md5};
ghost use Rattle.sb_history.specs.Contents.{zeros};
ghost use Rattle.sb_history.specs.Values.{IsLegal};
ghost use Rattle.sb_history.specs.Visibility.{IsStaleWithin};
ghost use Rattle.sb_history.specs.Durability.{FlushesAreDurable};
ghost use Rattle.sb_history.specs.Cache.{cached_content, is_known_zero};
ghost use Rattle.sb_history.specs.Writes.{unacked_writes};
ghost use Rattle.sb_history.specs.CachePolicy.{FollowsCachePolicy};
ghost use Rattle.sb_history.specs.Soundness.{IsCollisionFree, IsSoundHistory};
ghost use Rattle.sb_history.specs.Requests.{RequestLog};
ghost use Rattle.sb_history.specs.ClockTrace.{ClockTrace};
ghost use Rattle.sb_laws.specs.Histories.{
  all_zeros,
  a_at_0,
  b,
  both,
  c,
  failed_put_shown,
  flushed_after_failure,
  flushed_in_order,
  flushed_too_early,
  FollowsAllButOne,
  nothing_found,
  old_value_read,
  shown_for_good,
  shown_twice,
  six,
  small,
  spaced,
  spaced_by_5,
  spacing_awaited,
  stale_refused,
  tiny,
  write_during_get,
  zeros_flushed,
  zeros_written,
  zeros_written_blindly,
};
ghost use Rattle.sb_laws.specs.Traces.{
  alone,
  failed_put_calls,
  failed_put_ticks,
  name_of,
  shown_twice_calls,
  sizes,
  stalled_ticks,
  zeros_calls,
};

/// An old version is shown at 1,000 and at 1,100, after a put that ended at 1,000, and the new one is read at 1,200:
/// the store is stale for more than 100 ms, and the history is legal.
pub fn old_version_shown_twice()
    ensures within { IsStaleWithin 1 a_at_0 (both 101) shown_twice }
    ensures not_within { IsStaleWithin 1 a_at_0 (both 100) shown_twice → ⊥ }
    ensures legal { IsLegal a_at_0 shown_twice }
    ensures calls { RequestLog name_of (Some sizes) shown_twice shown_twice_calls }
{}

/// The old version is shown up to 6,000, after a put that ended at 1,000: the store is stale for more than 5,000 ms.
pub fn old_version_shown_for_good()
    ensures within { IsStaleWithin 1 a_at_0 (both 5001) shown_for_good }
    ensures not_within { IsStaleWithin 1 a_at_0 (both 5000) shown_for_good → ⊥ }
{}

/// A put that failed is shown once more to a GET that begins when the next put ended: any delay but 0 allows it. The
/// caller pauses for the spacing, and after the stale answer.
pub fn failed_put_shown_late()
    ensures within_1 { IsStaleWithin 1 a_at_0 (both 1) failed_put_shown }
    ensures within_500 { IsStaleWithin 1 a_at_0 (both 500) failed_put_shown }
    ensures not_within_0 { IsStaleWithin 1 a_at_0 (both 0) failed_put_shown → ⊥ }
    ensures calls { RequestLog name_of (Some sizes) failed_put_shown failed_put_calls }
    ensures pauses { md5 b ≢ md5 c → ClockTrace tiny spaced alone [] failed_put_shown None failed_put_ticks }
{}

/// A clock that stands still over the pause has one more reading.
pub fn clock_that_stands_still()
    ensures { ClockTrace tiny spaced alone [] spacing_awaited None stalled_ticks }
{}

/// A flush of zeros asks for one delete.
pub fn zeros_are_deleted()
    ensures { RequestLog name_of (Some sizes) zeros_flushed zeros_calls }
{}

/// A read of what a write replaced isn't legal.
pub fn old_value_read_is_illegal()
    ensures { IsLegal a_at_0 old_value_read → ⊥ }
{}

/// A flush is durable after the put of what was written ended ok, and neither before its end nor after it failed.
pub fn flush_waits_for_its_put()
    ensures durable { FlushesAreDurable a_at_0 flushed_in_order }
    ensures not_while_open { FlushesAreDurable a_at_0 flushed_too_early → ⊥ }
    ensures not_after_failure { FlushesAreDurable a_at_0 flushed_after_failure → ⊥ }
{}

/// A history in which a stale answer is refused meets all premises of the laws.
pub fn stale_answer_refused()
    ensures { md5 (zeros 2) ≢ md5 six
        → IsSoundHistory small spaced_by_5 nothing_found all_zeros (both 5) stale_refused }
{}

/// Why no write stands while a GET of its block is open: a history that follows all other rules, and isn't legal.
pub fn write_while_a_get_is_open()
    ensures rules { FollowsAllButOne spaced_by_5 nothing_found write_during_get }
    ensures policy { FollowsCachePolicy small spaced_by_5 nothing_found write_during_get }
    ensures within_0 { IsStaleWithin 2 all_zeros (both 0) write_during_get }
    ensures collision_free { IsCollisionFree 2 all_zeros nothing_found write_during_get }
    ensures illegal { IsLegal all_zeros write_during_get → ⊥ }
{}

/// Zeros that are written over known zeros owe nothing and aren't cached; over what isn't known they are cached and owed.
pub fn zeros_over_known_zeros()
    ensures marked { is_known_zero 2 nothing_found zeros_written 3 ≡ true }
    ensures uncached { cached_content 2 nothing_found zeros_written 3 ≡ None }
    ensures nothing_owed { unacked_writes 2 nothing_found zeros_written 3 ≡ [] }
    ensures unmarked { is_known_zero 2 nothing_found zeros_written_blindly 3 ≡ false }
    ensures cached { cached_content 2 nothing_found zeros_written_blindly 3 ≡ Some (zeros 2) }
    ensures owed { unacked_writes 2 nothing_found zeros_written_blindly 3 ≡ 0 ∷ [] }
{}
