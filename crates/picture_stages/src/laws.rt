//! Bounds on what the sensor reads.
ghost use Rattle.std.specs.Prelude.{ℕ, ◌≤◌};
ghost use Rattle.std.specs.List.{All};
ghost use Rattle.cam_types.specs.Picture.{readout};
ghost use Rattle.cam_types.specs.declared.item.Settings.{Settings as SomeSettings};

/// The values of a readout lie between 64, without light, and 1023, in full light.
pub fn a_readout_lies_between_dark_and_full()
    ensures { (s : SomeSettings) (n : ℕ) → All (λ v. (64 ≤ v) × (v ≤ 1023)) (readout s n) }
{}
