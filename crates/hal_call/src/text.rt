//! The text of the hal log of a legal trace.
ghost use Rattle.std.specs.Prelude.{◌≡◌, IfOk, IsTrue, reverse};
ghost use Rattle.cam_types.specs.Script.{is_valid};
ghost use Rattle.trace_model.specs.Legal.{IsLegal};
ghost use Rattle.hal_call.specs.Printed.{log_text};

use crate::text_laws::hal_logs_of_legal_traces_print;
use crate::{fences_of_legal_traces_fit, hal_log};
use cam_types::{NoMemory, PARTIAL_RESULT_COUNT, Script};
use hal_model::print;
use std::alloc::Global;
use trace_model::Entry;

/// The text of the hal log of a legal trace of a valid script.
pub fn hal_log_text(alloc: Global, script: &Script, entries: &[Entry]) -> Result<Vec<u8>, NoMemory>
    requires valid { IsTrue (is_valid script.now) }
    requires legal { IsLegal script.now (reverse entries.now) }
    ensures { IfOk result (λ text. text.items ≡ log_text script.now entries.now) }
{
    fences_of_legal_traces_fit();
    hal_logs_of_legal_traces_print();
    let log = hal_log(alloc, script, entries)?;
    print(alloc, u32::from(PARTIAL_RESULT_COUNT), log.as_slice())
}
