//! Laws of logs: a function that does nothing, and whose contract holds of every list of lines.
ghost use Rattle.std.specs.Prelude.{◌≡◌, ℕ, true, [], List};
ghost use Rattle.std.specs.List.{list_all};
ghost use Rattle.arbiter_call.specs.Answers.{log_after, log_of};
ghost use Rattle.arbiter_call.specs.Laws.{IsOver, KeepsLaws};
ghost use Rattle.arbiter_call.specs.Ranges.{is_line};
ghost use Rattle.arbiter_call.specs.declared.line.ArbiterLine.{ArbiterLine as ALine};

/// After each line of every log at most one client holds a camera, and no client holds two; each session ends once, and
/// has ended once the last holders have left.
pub fn every_log_keeps_the_laws()
    ensures laws { (cameras : ℕ) (lines : List ALine) → list_all (is_line cameras) lines ≡ true →
        KeepsLaws (log_after cameras [] lines) }
    ensures at_the_end { (cameras : ℕ) (lines : List ALine) → list_all (is_line cameras) lines ≡ true →
        KeepsLaws (log_of cameras lines) × IsOver (log_of cameras lines) }
{}
