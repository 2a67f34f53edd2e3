//! A law of reports: a function that does nothing, and whose contract holds of every log.
ghost use Rattle.std.specs.Prelude.{ℕ, List};
ghost use Rattle.hal_model.specs.declared.event.HalEvent.{HalEvent as SomeEvent};
ghost use Rattle.hal_model.specs.declared.rule.Rule.{Rule as SomeRule};
ghost use Rattle.hal_text.specs.Plain.{ReportHasLines};

/// Where each event of a log has a line, each breach in its report has the line of its event. (`log` has the newest
/// event first.)
#[tactic(auto, using(crate::proofs::Places::report_has_lines))]
pub fn each_breach_has_its_line()
    ensures { (rules : List SomeRule) (k : ℕ) (log : List SomeEvent) (lines : List ℕ) → ReportHasLines rules k log lines }
{}
