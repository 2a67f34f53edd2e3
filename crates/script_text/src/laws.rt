//! A law on the plain profile: a function that does nothing, and whose contract holds of every profile.

ghost use Rattle.std.specs.Prelude.{◌≡◌, true};
ghost use Rattle.cam_types.specs.declared.profile.Profile.{Profile as SomeProfile};
ghost use Rattle.cam_types.specs.Profile.{is_plain};
ghost use Rattle.script_text.specs.Grammar.{plain_profile};

/// The profile of a script that names none is plain, and no other profile is.
pub fn one_profile_is_plain()
    ensures plain { is_plain plain_profile ≡ true }
    ensures alone { (p : SomeProfile) → is_plain p ≡ true → p ≡ plain_profile }
{}
