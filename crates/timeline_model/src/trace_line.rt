//! How much of an entry's line is shown.
ghost use Rattle.std.specs.Prelude.{◌≡◌, IsTrue};
ghost use Rattle.trace_model.specs.Printable.{is_printable};
ghost use Rattle.timeline_model.specs.TraceLines.{shown_length, shown_line};

use crate::front_of;
use trace_model::Entry;
use trace_text::Printer;

/// How much of an entry's line is shown. Of digests and packed metadata only a front is.
fn shown_length(entry: Entry) -> usize
    ensures { result ≡ shown_length entry }
{
    match entry {
        Entry::Partial { .. } => 40,
        Entry::Filled { .. } => 40,
        Entry::Late { .. } => 40,
        _ => 160,
    }
}

/// What is shown of an entry's line in the trace.
pub fn shown_line(printer: &mut Printer, entry: Entry) -> &[u8]
    requires { IsTrue (is_printable entry) }
    ensures { result.now ≡ shown_line entry }
{
    front_of(printer.line(entry), shown_length(entry))
}
