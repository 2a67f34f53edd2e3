//! What holds of all traces.

ghost use Rattle.std.specs.Prelude.{◌≡◌, ℕ, List, Ok, Option, IsTrue};
ghost use Rattle.std.specs.List.{list_all};
ghost use Rattle.cam_types.specs.declared.profile.Profile.{Profile as AProfile};
ghost use Rattle.trace_model.specs.Printable.{is_printable};
ghost use Rattle.trace_model.specs.declared.entry.Entry.{Entry as AnEntry};
ghost use Rattle.trace_model.specs.declared.list.TraceList.{TraceList as ATrace};
ghost use Rattle.trace_text.specs.Spelling.{first_line_fits, spelling};
ghost use Rattle.trace_reader.specs.Grammar.{trace_of};

/// The spelling of a trace means that trace, wherever its first line stands.
pub fn spelled_is_read()
    ensures { (first : ℕ) (profile : Option AProfile) (entries : List AnEntry) → IsTrue (first_line_fits profile) →
        IsTrue (list_all is_printable entries) →
        trace_of first (spelling profile entries) ≡ Ok (record { profile = profile; entries = entries }) }
{}

/// A text means a trace only where it is the spelling of that trace, whose profile has numbers in their range, and each
/// of whose entries has a line.
pub fn read_is_spelled()
    ensures { (first : ℕ) (text : List ℕ) (trace : ATrace) → trace_of first text ≡ Ok trace →
        (text ≡ spelling trace.profile trace.entries) × IsTrue (first_line_fits trace.profile)
        × IsTrue (list_all is_printable trace.entries) }
{}
