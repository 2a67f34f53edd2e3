//! The settings that templates stand for.
ghost use Rattle.std.specs.Prelude.{◌≡◌, None};
ghost use Rattle.cam_types.specs.Metadata.{range_fault};
ghost use Rattle.metadata.specs.Templates.{template_of};

use crate::rule::Template;
use cam_types::Settings;

/// The settings that a template stands for, all of them in range.
pub fn template(kind: Template) -> Settings
    ensures settings { result ≡ template_of kind }
    ensures in_range { range_fault result ≡ None }
{
    match kind {
        Template::Preview => Settings {
            pattern: 2,
            level: 128,
            exposure: 10_000_000,
            iso: 100,
        },
        Template::Still => Settings {
            pattern: 1,
            level: 200,
            exposure: 20_000_000,
            iso: 100,
        },
    }
}
