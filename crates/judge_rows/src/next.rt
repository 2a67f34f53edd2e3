//! What the next item says of a send.
ghost use Rattle.std.specs.Prelude.{◌≡◌};
ghost use Rattle.state_facts.specs.Turns.{repeats_next, settings_next};

use cam_types::{Queued, Settings};

/// Settings where none are known.
pub(crate) const NO_SETTINGS: Settings = Settings {
    pattern: 0,
    level: 0,
    exposure: 0,
    iso: 0,
};

/// The settings of the next item.
pub(crate) fn settings_next(next: Option<Queued>) -> Settings
    ensures { result ≡ settings_next next }
{
    match next {
        Some(next) => next.item.settings,
        None => NO_SETTINGS,
    }
}

/// Whether the next item is of the list that repeats.
pub(crate) fn repeats_next(next: Option<Queued>) -> bool
    ensures { result ≡ repeats_next next }
{
    match next {
        Some(next) => next.repeating,
        None => false,
    }
}
