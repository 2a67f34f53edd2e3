//! The line that refuses a text.

ghost use Rattle.std.specs.Prelude.{◌≡◌, IfOk};
ghost use Rattle.hal_text.specs.Refusal.{refused_text};

use cam_types::NoMemory;
use hal_lines::Cause;
use std::alloc::Global;

/// The line that refuses a text: `refused hal LINE CAUSE`.
pub fn refused_text(alloc: Global, line: u32, cause: Cause) -> Result<Vec<u8>, NoMemory>
    ensures { IfOk result (λ text. text.items ≡ refused_text line cause) }
{
    let cause = cause.number();
    let mut out = String::new(alloc);
    writeln!(&mut out, "refused hal {line} {cause}")?;
    Ok(out.into_bytes())
}
