//! Worked values, as facts: what breaks a law on frames is seen.
ghost use Rattle.std.specs.Prelude.{◌≡◌, true, false, count_by};
ghost use Rattle.trace_model.specs.Entry.{takes};
ghost use Rattle.trace_model.specs.Laws.{counts_up, ends_in_order, ends_metadata, is_whole_or_failed, late_after_early, releases_what_is_there, rises};
ghost use Rattle.run_model.specs.Worked.{ended_backwards, exposed_at_once, exposed_backwards, failed_backwards, first_twice, lost_backwards, never_ended, released_unfilled, second_alone, sent_and_dropped, seventh_part, signalled_unasked, whole_and_lost};

/// Short pasts that break a law, worked out by hand: what the laws say of legal runs isn't true of them. (An error of
/// the whole request may come in any order.)
pub fn breaches_on_frames_are_seen()
    ensures order { rises exposed_backwards ≡ false }
    ensures time { rises exposed_at_once ≡ false }
    ensures ends { ends_in_order ended_backwards ≡ false }
    ensures errors { ends_in_order lost_backwards ≡ false }
    ensures requests { ends_in_order failed_backwards ≡ true }
    ensures seventh { counts_up 0 seventh_part ≡ false }
    ensures second { counts_up 0 second_alone ≡ false }
    ensures twice { counts_up 0 first_twice ≡ false }
    ensures whole { is_whole_or_failed 0 whole_and_lost ≡ false }
    ensures unended { is_whole_or_failed 0 never_ended ≡ false }
    ensures ended { count_by (ends_metadata 0) whole_and_lost ≡ 2 }
    ensures item { count_by (takes 0 0) sent_and_dropped ≡ 2 }
    ensures signal { late_after_early signalled_unasked ≡ false }
    ensures release { releases_what_is_there released_unfilled ≡ false }
{}
