//! Laws on buffers: functions that do nothing, and whose contracts hold of every script and every past.
ghost use Rattle.std.specs.Prelude.{◌≡◌, ◌+◌, ℕ, true, ◌∷◌, [], List, length};
ghost use Rattle.cam_types.specs.declared.script.Script.{Script as SomeScript};
ghost use Rattle.trace_model.specs.declared.entry.Entry.{Entry as SomeEntry};
ghost use Rattle.trace_model.specs.Complete.{is_all_signalled};
ghost use Rattle.trace_model.specs.Configuration.{is_buffer, made_count};
ghost use Rattle.trace_model.specs.Fence.{early_fence_of, fence_of, is_late, is_signalled};
ghost use Rattle.trace_model.specs.Legal.{IsLegal};
ghost use Rattle.trace_model.specs.Numbers.{next_early, next_fence};
ghost use Rattle.trace_model.specs.Place.{all_in_pool, place};
ghost use Rattle.trace_model.specs.Release.{release_due, signal_due};
ghost use Rattle.trace_model.specs.Send.{at_device_count, least_in_pool};
ghost use Rattle.state_facts.specs.Homes.{all_home, all_signalled, at_device_in, fence_in, first_buffer, held_in, homes, late_in, least_in, no_homes, homes_after, place_in, release_in, signal_in, signalled_in};

/// Before the first entry there are no buffers; the state after each entry of a legal run is what the entry makes of the
/// state before it.
#[tactic(auto, using(crate::proofs::BufferSteps::noted_is))]
pub fn each_entry_moves_buffers()
    ensures first { homes [] ≡ no_homes }
    ensures next { (script : SomeScript) (past : List SomeEntry) (e : SomeEntry) →
        IsLegal script (e ∷ past) → homes (e ∷ past) ≡ homes_after e (homes past) }
{}

/// Each buffer's place is read from the state, whether all are in the pool, and how many buffers were made.
#[tactic(auto, using(crate::proofs::BufferReadings::place_is, crate::proofs::BufferReadings::pool_is, crate::proofs::BufferReadings::made_is))]
pub fn places_are_read()
    ensures place { (script : SomeScript) (past : List SomeEntry) (b : ℕ) →
        IsLegal script past → place b past ≡ place_in (homes past) b }
    ensures pool { (script : SomeScript) (past : List SomeEntry) →
        IsLegal script past → all_in_pool past ≡ all_home (homes past) }
    ensures made { (past : List SomeEntry) → made_count past ≡ (homes past).first + length (homes past).places }
{}

/// The fence of each of the configuration's buffers is read from the state, and which fences are signalled.
#[tactic(auto, using(crate::proofs::BufferReadings::fence_is, crate::proofs::BufferReadings::signalled_is, crate::proofs::BufferReadings::fences_are, crate::proofs::BufferReadings::all_signalled_is))]
pub fn fences_are_read()
    ensures fence { (script : SomeScript) (past : List SomeEntry) (b : ℕ) →
        IsLegal script past → is_buffer past b ≡ true → fence_of b past ≡ fence_in (homes past) b }
    ensures signalled { (script : SomeScript) (past : List SomeEntry) (f : ℕ) →
        IsLegal script past → is_signalled f past ≡ signalled_in (homes past) f }
    ensures count { (past : List SomeEntry) → next_fence past ≡ length (homes past).signalled }
    ensures all { (script : SomeScript) (past : List SomeEntry) →
        IsLegal script past → is_all_signalled past ≡ all_signalled (homes past) }
{}

/// The device fence of each of the configuration's buffers is read from the state, and which device fences are
/// signalled.
#[tactic(auto, using(crate::proofs::BufferReadings::held_is, crate::proofs::BufferReadings::late_is, crate::proofs::BufferReadings::earlies_are))]
pub fn device_fences_are_read()
    ensures held { (script : SomeScript) (past : List SomeEntry) (b : ℕ) →
        IsLegal script past → is_buffer past b ≡ true → early_fence_of b past ≡ held_in (homes past) b }
    ensures late { (script : SomeScript) (past : List SomeEntry) (d : ℕ) →
        IsLegal script past → is_late d past ≡ late_in (homes past) d }
    ensures count { (past : List SomeEntry) → next_early past ≡ length (homes past).late }
{}

/// The releases and signals that are due are read from the state.
#[tactic(auto, using(crate::proofs::BufferReadings::release_is, crate::proofs::BufferReadings::signal_is))]
pub fn due_steps_are_read()
    ensures release { (script : SomeScript) (past : List SomeEntry) (b : ℕ) →
        IsLegal script past → release_due past b ≡ release_in (homes past) b }
    ensures signal { (script : SomeScript) (past : List SomeEntry) (f : ℕ) →
        IsLegal script past → signal_due past f ≡ signal_in (homes past) f }
{}

/// How many of a stream's buffers are at the device, and the least in the pool, are read from the state.
#[tactic(auto, using(crate::proofs::BufferReadings::at_device_is, crate::proofs::BufferReadings::least_is))]
pub fn streams_are_read()
    ensures device { (script : SomeScript) (past : List SomeEntry) (s : ℕ) →
        IsLegal script past → at_device_count past s ≡ at_device_in (homes past) s }
    ensures least { (script : SomeScript) (past : List SomeEntry) (s : ℕ) →
        IsLegal script past → least_in_pool past s ≡ least_in (homes past) s }
{}
