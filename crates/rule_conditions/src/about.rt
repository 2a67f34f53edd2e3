//! What an entry is, whatever stands before it.
ghost use Rattle.std.specs.Prelude.{◌≡◌};
ghost use Rattle.rule_conditions.specs.Mentions.{is_any_shutter, is_begin, is_of_settings, is_stop_line};

use judge_entries::entry::{configures, is_stop, is_stop_word};
use trace_model::Entry;

/// Whether a flush or a disconnect begins or is answered by the entry, or the device fails.
pub fn is_stop_line(entry: &Entry) -> bool
    ensures { result ≡ is_stop_line entry.now }
{
    match entry {
        Entry::Call { word, .. } => is_stop_word(*word),
        _ => is_stop(entry),
    }
}

/// Whether a command begins by the entry.
pub fn is_begin(entry: &Entry) -> bool
    ensures { result ≡ is_begin entry.now }
{
    matches!(entry, Entry::Begin { .. })
}

/// Whether the entry is a shutter.
pub fn is_any_shutter(entry: &Entry) -> bool
    ensures { result ≡ is_any_shutter entry.now }
{
    matches!(entry, Entry::Shutter { .. })
}

/// Whether the entry is a send or a configuration.
pub fn is_of_settings(entry: &Entry) -> bool
    ensures { result ≡ is_of_settings entry.now }
{
    matches!(entry, Entry::Send { .. }) || configures(entry)
}
