//! The buffers that a configuration makes, in the order of its streams.
ghost use Rattle.std.specs.Prelude.{◌≡◌, ◌++◌, option_to_list, OnOk};
ghost use Rattle.cam_types.specs.Four.{four_list};

use cam_types::{Four, Made, NoMemory};

fn add_one(made: &mut Vec<Made>, one: Option<Made>) -> Result<(), NoMemory>
    ensures { OnOk result (made.new.items ≡ made.old.items ++ option_to_list one) }
{
    if let Some(one) = one {
        made.push(one)?;
    }
    Ok(())
}

/// Puts the buffers of each stream in place of the old ones.
#[tactic(auto, using(crate::proofs::HomeLemmas::made_four))]
pub(crate) fn replace_made(made: &mut Vec<Made>, each: &Four<Made>) -> Result<(), NoMemory>
    ensures { OnOk result (made.new.items ≡ four_list each.now) }
{
    made.clear();
    add_one(made, each.a)?;
    add_one(made, each.b)?;
    add_one(made, each.c)?;
    add_one(made, each.d)?;
    Ok(())
}
