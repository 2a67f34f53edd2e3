//! A law: a function that does nothing, and whose contract holds of every picture.
ghost use Rattle.std.specs.Prelude.{◌≡◌, ℕ, IsTrue};
ghost use Rattle.cam_types.specs.Picture.{is_offered, picture};
ghost use Rattle.cam_types.specs.declared.item.Settings.{Settings as SomeSettings};
ghost use Rattle.cam_types.specs.declared.stream.StreamSpec.{StreamSpec as SomeSpec};
ghost use Rattle.picture_stages.specs.Keys.{key_of, picture_by};

/// The picture of a stream that is offered is that of its key: so pictures with equal keys are equal.
pub fn a_picture_is_that_of_its_key()
    ensures value { (spec : SomeSpec) (s : SomeSettings) (n : ℕ) → IsTrue (is_offered spec) →
        picture spec s n ≡ picture_by (key_of spec s n) }
    ensures equal { (spec other : SomeSpec) (s t : SomeSettings) (n m : ℕ) →
        IsTrue (is_offered spec) → IsTrue (is_offered other) → key_of spec s n ≡ key_of other t m →
        picture spec s n ≡ picture other t m }
{}
