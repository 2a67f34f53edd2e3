//! What is printed is read again.

ghost use Rattle.std.specs.Prelude.{◌≡◌, ◌≤◌, Ok, length, IsTrue, IfOk};
ghost use Rattle.hal_model.specs.Fits.{is_valid};
ghost use Rattle.hal_model.specs.Spelling.{text_of};
ghost use Rattle.hal_text.specs.Meaning.{log_of, said, text_limit};

use cam_types::NoMemory;
use hal_model::HalEvent;
use std::alloc::Global;

/// The text of a valid log, as `docs/FORMATS.md` has it. `read` turns it back into the count and the events where it
/// has at most 134,217,728 bytes.
pub fn print(alloc: Global, parts: u32, events: &[HalEvent]) -> Result<Vec<u8>, NoMemory>
    requires { IsTrue (is_valid parts events.now) }
    ensures text { IfOk result (λ text. text.items ≡ text_of parts events.now) }
    ensures again { IfOk result (λ text. length text.items ≤ text_limit →
        said (log_of text.items) ≡ Ok (parts, events.now)) }
{
    let text = hal_model::print(alloc, parts, events)?;
    Ok(text)
}
