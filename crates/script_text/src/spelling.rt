//! The text of a whole script.

ghost use Rattle.std.specs.Prelude.{◌≡◌, ◌++◌, true, OnOk, IfOk, IsTrue, string_bytes};
ghost use Rattle.cam_types.specs.Script.{is_valid};
ghost use Rattle.script_text.specs.Spelling.{text_of};
ghost use Rattle.script_text.specs.Fits.{fits, is_typed};

use crate::spelled_line::{
    write_commands, write_device, write_early, write_faults, write_picks, write_version,
};
use cam_types::{NoMemory, Script};
use std::alloc::Global;

/// Writes a script.
#[tactic(auto, unfolding(crate::specs::Spelling::text_of))]
fn write_script(out: &mut String, script: &Script) -> Result<(), NoMemory>
    ensures text { OnOk result (string_bytes out.new ≡ string_bytes out.old ++ text_of script.now) }
    ensures typed { OnOk result (is_typed script.now ≡ true) }
{
    write_version(out, script.version)?;
    write_device(out, script.version, script.profile)?;
    write_early(out, script.early)?;
    write_faults(out, script.faults.as_slice())?;
    write_picks(out, script.picks.as_slice())?;
    write_commands(out, script.commands.as_slice())
}

/// The text of a valid script, as `docs/FORMATS.md` has it: the version, the device of a script of the second version,
/// `early` where it stands, faults, one line of picks, commands; settings as four numbers, single spaces, and the added
/// `close` like any other.
pub fn print(alloc: Global, script: &Script) -> Result<Vec<u8>, NoMemory>
    requires { IsTrue (is_valid script.now) }
    ensures text { IfOk result (λ text. text.items ≡ text_of script.now) }
    // Its numbers are within their types, so that what is printed can be read again.
    ensures fits { IfOk result (λ text. IsTrue (fits script.now)) }
{
    let mut out = String::new(alloc);
    write_script(&mut out, script)?;
    Ok(out.into_bytes())
}
