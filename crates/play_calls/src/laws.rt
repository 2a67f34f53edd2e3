//! Laws on generated scripts: functions that do nothing, and whose contracts hold of every seed; with worked values.
ghost use Rattle.std.specs.Prelude.{◌≡◌, ◌≤◌, ◌∷◌, [], ℕ, true};
ghost use Rattle.cam_types.specs.Script.{is_valid};
ghost use Rattle.cam_types.specs.Worked.{shot};
ghost use Rattle.trace_laws.specs.Typed.{is_typed};
ghost use Rattle.play_calls.specs.Generated.{commands_of, faults_of, generated, targets_by, two_streams};
ghost use Rattle.play_calls.specs.Words.{word};

use cam_types::Command;

/// A generated script is valid.
#[tactic(auto, using(crate::proofs::Valid::generated_valid))]
pub fn generated_scripts_are_valid()
    ensures { (seed count : ℕ) → count ≤ 200 → is_valid (generated seed count) ≡ true }
{}

/// A generated script has patterns and streams of a byte.
#[tactic(auto, using(crate::proofs::Valid::generated_typed))]
pub fn generated_scripts_are_typed()
    ensures { (seed count : ℕ) → is_typed (generated seed count) ≡ true }
{}

/// The first words of the seed 1234567, as they are published.
#[tactic(auto, unfolding(crate::specs::Words::word, crate::specs::Words::state_after))]
pub fn first_words_of_a_seed()
    ensures first { word 1234567 1 ≡ 6457827717110365317 }
    ensures second { word 1234567 2 ≡ 3203168211198807973 }
    ensures third { word 1234567 3 ≡ 9817491932198370423 }
    ensures fourth { word 1234567 4 ≡ 4593380528125082431 }
    ensures fifth { word 1234567 5 ≡ 16408922859458223821 }
{}

/// The script of the first word of the seed 1234567: it repeats an item for both streams, and has no fault.
#[tactic(auto, unfolding(crate::specs::Words::word, crate::specs::Words::state_after))]
pub fn script_of_one_word()
    ensures commands { commands_of 1234567 1
        ≡ Command.Configure two_streams
        ∷ Command.Repeat (record { settings = shot 2 249 10000000 100; targets = targets_by 2 } ∷ [])
        ∷ Command.Close ∷ [] }
    ensures faults { faults_of 1234567 1 ≡ [] }
{}
