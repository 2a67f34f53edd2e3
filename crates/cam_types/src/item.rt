//! What a capture asks for: settings and targets.
ghost use Rattle.std.specs.Prelude.{◌≡◌, ◌==◌};
ghost use Rattle.std.specs.List.{list_all};
ghost use Rattle.cam_types.specs.Script.{item_fits, settings_fit, targets_fit};

use crate::limit::TARGET_LIMIT;
use crate::list::Listing;

/// The settings of a capture.
#[derive(Clone, Copy, Debug, PartialEq, Eq)]
pub struct Settings {
    /// The test pattern: 0 solid, 1 bars, 2 ramp.
    pub pattern: u8,
    /// The pattern's brightness, 0 to 255.
    pub level: u32,
    /// The exposure time in nanoseconds, 100,000 to 100,000,000.
    pub exposure: u64,
    /// The sensitivity, 100 to 1,600.
    pub iso: u32,
}

/// The streams that an item asks pictures of: the first `count` of `list`, in the order in which they were written.
#[derive(Clone, Copy, Debug, PartialEq, Eq)]
pub struct Targets {
    pub count: u8,
    pub list: [u8; 8],
}

/// One capture of a request.
#[derive(Clone, Copy, Debug, PartialEq, Eq)]
pub struct Item {
    pub settings: Settings,
    pub targets: Targets,
}

/// The items of a `burst` or a `repeat`.
pub type ItemList = Listing<Item>;

impl Settings {
    /// Whether a script may hold the settings.
    pub fn fits(self) -> bool
        ensures { result ≡ settings_fit self }
    {
        self.level < 1 << 31 && (self.exposure < 1 << 63 && self.iso < 1 << 31)
    }
}

fn all_zero(places: &[u8]) -> bool
    ensures { result ≡ list_all (λ s. s == 0) places.now }
{
    places.iter().all(|place| *place == 0)
}

impl Targets {
    /// Whether a script may hold the targets.
    pub fn fits(self) -> bool
        ensures { result ≡ targets_fit self }
    {
        self.count <= TARGET_LIMIT && all_zero(&self.list[self.count as usize..])
    }
}

impl Item {
    /// Whether a script may hold the item.
    pub fn fits(self) -> bool
        ensures { result ≡ item_fits self }
    {
        self.settings.fits() && self.targets.fits()
    }
}
