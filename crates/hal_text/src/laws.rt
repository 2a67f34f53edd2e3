//! What holds of all hal logs.

ghost use Rattle.std.specs.Prelude.{◌≡◌, ◌≤◌, ℕ, List, Ok, IsTrue, length};
ghost use Rattle.hal_model.specs.declared.event.HalEvent.{HalEvent as AnEvent};
ghost use Rattle.hal_model.specs.Fits.{fits};
ghost use Rattle.hal_model.specs.Spelling.{text_of};
ghost use Rattle.text_parts.specs.Lines.{lines_of};
ghost use Rattle.hal_text.specs.declared.log.HalLog.{HalLog as ALog};
ghost use Rattle.hal_text.specs.Told.{IsTold};
ghost use Rattle.hal_text.specs.Meaning.{log_of, said, text_limit};

/// The spelling of a log means that log: the same partial result count and the same events.
pub fn spelled_is_read()
    ensures { (parts : ℕ) (events : List AnEvent) → IsTrue (fits parts events) →
        length (text_of parts events) ≤ text_limit → said (log_of (text_of parts events)) ≡ Ok (parts, events) }
{}

/// Of each event that is read the line with its number means just that event.
pub fn read_is_on_its_line()
    ensures { (text : List ℕ) (log : ALog) → log_of text ≡ Ok log → IsTold (lines_of text) log }
{}
