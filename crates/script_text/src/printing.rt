//! What is printed is read again.

ghost use Rattle.std.specs.Prelude.{◌≡◌, ◌≤◌, Ok, length, IsTrue, IfOk};
ghost use Rattle.cam_types.specs.Script.{is_valid};
ghost use Rattle.script_text.specs.Spelling.{text_of};
ghost use Rattle.text_parts.specs.LineReading.{text_limit};
ghost use Rattle.script_text.specs.Grammar.{script_of};

use crate::spelling;
use cam_types::{NoMemory, Script};
use std::alloc::Global;

/// The text of a valid script, as `docs/FORMATS.md` has it. `read` turns it back into the script where it has at most
/// 65,536 bytes.
pub fn print(alloc: Global, script: &Script) -> Result<Vec<u8>, NoMemory>
    requires { IsTrue (is_valid script.now) }
    ensures text { IfOk result (λ text. text.items ≡ text_of script.now) }
    ensures again { IfOk result (λ text. length text.items ≤ text_limit → script_of text.items ≡ Ok script.now) }
{
    let text = spelling::print(alloc, script)?;
    Ok(text)
}
