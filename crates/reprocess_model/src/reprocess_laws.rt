//! The laws. Each function's contract is one.
ghost use Rattle.std.specs.Prelude.{◌≡◌, ℕ, ◌+◌, ◌<◌, ◌≤◌, List, count_by, length, IsTrue, not};
ghost use Rattle.reprocess_model.specs.declared.entry.ReEntry.{ReEntry as AnEntry};
ghost use Rattle.reprocess_model.specs.declared.plan.Plan.{Plan as APlan};
ghost use Rattle.reprocess_model.specs.Laws.{line_bound};
ghost use Rattle.reprocess_model.specs.Past.{input_holder, output_holder, request_count};
ghost use Rattle.reprocess_model.specs.Plan.{is_plan};
ghost use Rattle.reprocess_model.specs.Run.{IsRun, candidates, is_complete};
ghost use Rattle.reprocess_model.specs.ReprocessLaws.{ends, fills_rise, one_held, returns_input, returns_output, takes_input, takes_output};

/// An input buffer is at home or at the device, and comes back once for each take: it was taken as often as it came
/// back, and once more where it is at the device.
pub fn an_input_comes_back_once_for_each_take()
    ensures { (plan : APlan) (i : ℕ) (past : List AnEntry) → IsRun plan past →
        count_by (takes_input i) past ≡ one_held (input_holder i past) + count_by (returns_input i) past }
{}

/// And so does an output buffer.
pub fn an_output_comes_back_once_for_each_take()
    ensures { (plan : APlan) (b : ℕ) (past : List AnEntry) → IsRun plan past →
        count_by (takes_output b) past ≡ one_held (output_holder b past) + count_by (returns_output b) past }
{}

/// Each request that is called ends once in a complete run: its input comes back, or it is dropped.
pub fn each_request_ends_once()
    ensures { (plan : APlan) (n : ℕ) (past : List AnEntry) → IsRun plan past → IsTrue (is_complete plan past) →
        n < request_count past → count_by (ends n) past ≡ 1 }
{}

/// Outputs of a stream that are filled rise by request.
pub fn filled_outputs_rise_by_request()
    ensures { (plan : APlan) (past : List AnEntry) → IsRun plan past → IsTrue (fills_rise past) }
{}

/// A run that isn't complete has a step that is ready.
pub fn an_unfinished_run_has_a_candidate()
    ensures { (plan : APlan) (past : List AnEntry) → IsTrue (is_plan plan) → IsRun plan past →
        IsTrue (not (is_complete plan past)) → 1 ≤ length (candidates plan past) }
{}

/// A run has at most eight lines for each request of its plan and two for each flush.
pub fn a_run_has_eight_lines_for_a_request()
    ensures { (plan : APlan) (past : List AnEntry) → IsTrue (is_plan plan) → IsRun plan past →
        length past ≤ line_bound plan }
{}
