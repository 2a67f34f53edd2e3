//! How much of a line is shown.
ghost use Rattle.std.specs.Prelude.{◌≡◌};
ghost use Rattle.timeline_model.specs.Lines.{front_of};

/// The front of a line, without its end, at most so many bytes.
pub fn front_of(line: &[u8], most: usize) -> &[u8]
    ensures { result.now ≡ front_of most line.now }
{
    let length = line.len().saturating_sub(1).min(most);
    &line[..length]
}
