//! What a single line is.
ghost use Rattle.std.specs.Prelude.{◌≡◌};
ghost use Rattle.reprocess_model.specs.Lines.{is_begin_flush as is_begin_by, is_call as is_call_of, is_called as is_called_of, is_error_of as is_error_by, is_fill_of as is_fill_by, is_input_of as is_input_by, is_return_of as is_return_by, leaves as leaves_by, takes as takes_by};

use reprocess_model::ReEntry;

/// Whether a command is answered.
pub fn is_call(line: &ReEntry) -> bool
    ensures { result ≡ is_call_of line.now }
{
    matches!(line, ReEntry::Called { .. } | ReEntry::Flushed { .. })
}

/// Whether a request is called.
pub fn is_called(line: &ReEntry) -> bool
    ensures { result ≡ is_called_of line.now }
{
    matches!(line, ReEntry::Called { .. })
}

/// Whether a flush begins.
pub fn is_begin_flush(line: &ReEntry) -> bool
    ensures { result ≡ is_begin_by line.now }
{
    matches!(line, ReEntry::BeginFlush)
}

/// Whether a request is taken.
pub fn takes(line: &ReEntry, request: u32) -> bool
    ensures { result ≡ takes_by request line.now }
{
    matches!(line, ReEntry::Take { frame, .. } if frame.0 == request)
}

/// Whether a request is taken or dropped.
pub fn leaves(line: &ReEntry, request: u32) -> bool
    ensures { result ≡ leaves_by request line.now }
{
    matches!(line, ReEntry::Take { frame, .. } | ReEntry::Dropped { frame } if frame.0 == request)
}

/// Whether it is the error of a request.
pub fn is_error_of(line: &ReEntry, request: u32) -> bool
    ensures { result ≡ is_error_by request line.now }
{
    matches!(line, ReEntry::Error { frame } if frame.0 == request)
}

/// Whether an output of a request is filled.
pub fn is_fill_of(line: &ReEntry, request: u32) -> bool
    ensures { result ≡ is_fill_by request line.now }
{
    matches!(line, ReEntry::Fill { frame, .. } if frame.0 == request)
}

/// Whether the buffer of a request for an output comes back.
pub fn is_return_of(line: &ReEntry, request: u32, output: u8) -> bool
    ensures { result ≡ is_return_by request output line.now }
{
    match line {
        ReEntry::Failed { frame, stream, .. } | ReEntry::Fill { frame, stream, .. } => {
            frame.0 == request && stream.0 == output
        }
        _ => false,
    }
}

/// Whether the input of a request comes back.
pub fn is_input_of(line: &ReEntry, request: u32) -> bool
    ensures { result ≡ is_input_by request line.now }
{
    matches!(line, ReEntry::Input { frame, .. } if frame.0 == request)
}
