//! Two cameras are run by the script's picks to their end, and told.
ghost use Rattle.std.specs.Prelude.{◌≡◌, IfOk, length};
ghost use Rattle.run_model.specs.Played.{pick_at};
ghost use Rattle.logical_call.specs.Both.{at_first};
ghost use Rattle.logical_call.specs.Logical.{IsRunText};

use crate::lines::{put_entry, put_pair};
use crate::{Logical, LogicalStep};
use cam_types::{NoMemory, Script};
use std::alloc::Global;
use trace_text::Printer;

/// Pick number `made` of the script, and 0 where it has none.
fn pick_at(script: &Script, made: usize) -> u32
    ensures { result ≡ pick_at script.now made }
{
    match script.picks.as_slice().get(made) {
        Some(pick) => *pick,
        None => 0,
    }
}

/// Makes the steps that the script's picks name until both runs are complete, and tells them.
pub fn run_text(alloc: Global, cameras: &mut Logical) -> Result<Vec<u8>, NoMemory>
    requires { cameras.old ≡ at_first cameras.old.script }
    ensures { IfOk result (λ text. IsRunText cameras.old.script text.items) }
{
    let mut printer = Printer::new(alloc, None)?;
    let mut out = b"logical 1\n".to_vec(alloc)?;
    let mut made = 0;
    while let LogicalStep::Did {
        camera,
        entry,
        paired,
    } = cameras.step(pick_at(cameras.script(), made))
    {
        cameras.is_a_run();
        put_entry(alloc, &mut out, &mut printer, camera, entry)?;
        put_pair(alloc, &mut out, paired)?;
        made += 1;
    }
    out.extend_from_slice(b"end\n")?;
    Ok(out)
}
