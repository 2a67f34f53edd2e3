//! Laws on brightness and on searches: functions that do nothing, and whose contracts hold of all settings.
ghost use Rattle.std.specs.Prelude.{◌≡◌, ℕ, ◌≤◌, ◌<◌};
ghost use Rattle.cam_types.specs.declared.item.Settings.{Settings as SomeSettings};
ghost use Rattle.auto_call.specs.Brightness.{at_step, least, mean};
ghost use Rattle.auto_call.specs.Scene.{measured};
ghost use Rattle.auto_call.specs.Search.{IsHalved, Spans, decided, searched, state_of};

/// The mean of a solid scene or of bars doesn't fall as the exposure grows, whatever the frames.
pub fn mean_grows_with_the_exposure()
    ensures { (s : SomeSettings) (shorter longer n m : ℕ) → s.pattern ≤ 1 → shorter ≤ longer →
        mean (record s { exposure = shorter }) n ≤ mean (record s { exposure = longer }) m }
{}

/// The mean of a solid scene or of bars doesn't depend on the frame.
pub fn mean_is_the_same_in_each_frame()
    ensures { (s : SomeSettings) (n m : ℕ) → s.pattern ≤ 1 → mean s n ≡ mean s m }
{}

/// The least step is from 1 to 1,001. Of a solid scene or of bars just the steps from it on are bright enough, in each
/// frame.
pub fn the_least_step_is_the_first_that_is_bright_enough()
    ensures from_one { (s : SomeSettings) (target : ℕ) → 1 ≤ least s target }
    ensures to_none { (s : SomeSettings) (target : ℕ) → least s target ≤ 1001 }
    ensures too_dark { (s : SomeSettings) (target step n : ℕ) → s.pattern ≤ 1 → 1 ≤ step → step < least s target →
        mean (at_step s step) n < target }
    ensures bright_enough { (s : SomeSettings) (target step n : ℕ) → s.pattern ≤ 1 → step ≤ 1000 →
        least s target ≤ step → target ≤ mean (at_step s step) n }
{}

/// The search of a solid scene or of bars follows the path of its least step. This is always among the steps that are
/// left, which are halved with each frame, and after ten frames it is found, or told that there is none.
pub fn a_search_is_right()
    ensures path { (s : SomeSettings) (target first frames : ℕ) → s.pattern ≤ 1 →
        measured s target first frames ≡ searched (least s target) frames }
    ensures spans { (s : SomeSettings) (target first frames : ℕ) → s.pattern ≤ 1 →
        Spans (measured s target first frames) (least s target) }
    ensures halved { (s : SomeSettings) (target first frames : ℕ) → IsHalved (measured s target first frames) frames }
    ensures decides { (s : SomeSettings) (target first frames : ℕ) → s.pattern ≤ 1 → 10 ≤ frames →
        state_of (measured s target first frames) ≡ decided (least s target) }
{}
