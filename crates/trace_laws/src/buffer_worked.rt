//! Worked values, as facts: what breaks a law is seen.
ghost use Rattle.std.specs.Prelude.{◌≡◌, ◌==◌, true, false, count_by};
ghost use Rattle.std.specs.List.{list_all};
ghost use Rattle.trace_model.specs.Complete.{device_fences, released};
ghost use Rattle.trace_model.specs.Entry.{is_early_with, is_late_with, releases_fence, returns_target};
ghost use Rattle.trace_model.specs.Laws.{delivers_in_order, early_buffers, returns_buffer, signals_after_release};
ghost use Rattle.trace_model.specs.Place.{Pool, is_at, place};
ghost use Rattle.trace_laws.specs.BufferLaws.{sends_what_is_home};
ghost use Rattle.trace_laws.specs.BufferWorked.{filled_twice, given_twice, never_home, of_two_streams, released_twice, returned_twice, sent_again, signalled_early, swapped};

/// Short pasts that break a law, worked out by hand: what the laws say of legal runs isn't true of them. (Two streams
/// may come in any order.)
pub fn breaches_are_seen()
    ensures order { delivers_in_order swapped ≡ false }
    ensures streams { delivers_in_order of_two_streams ≡ true }
    ensures frame { count_by (returns_target 0 0) returned_twice ≡ 2 }
    ensures buffer { count_by (returns_buffer 4) returned_twice ≡ 1 }
    ensures fence { list_all (λ f. count_by (releases_fence f) released_twice == 1) (released released_twice) ≡ false }
    ensures signal { signals_after_release signalled_early ≡ false }
    ensures early_once { list_all (λ d. count_by (is_early_with d) given_twice == 1) (device_fences given_twice) ≡ false }
    ensures late_once { list_all (λ d. count_by (is_late_with d) filled_twice == 1) (device_fences filled_twice) ≡ false }
    ensures home { list_all (λ b. is_at (place b never_home) Pool) (early_buffers never_home) ≡ false }
    ensures resent { sends_what_is_home sent_again ≡ false }
{}
