//! In which form a timeline is written.
ghost use Rattle.std.specs.Prelude.{◌≡◌, IfOk};
ghost use Rattle.run_views.specs.Fronts.{text_in};

use cam_types::NoMemory;
use std::alloc::Global;
use timeline_json::json_text;
use timeline_model::Chart;
use timeline_svg::svg_text;

/// The form of a timeline.
#[derive(Clone, Copy, PartialEq, Eq)]
pub enum Form {
    /// A picture, as SVG.
    Svg,
    /// Events, as JSON that Perfetto's page and Chrome's open.
    Perfetto,
}

/// The text of a chart.
pub fn text_in(alloc: Global, form: Form, chart: &Chart) -> Result<Vec<u8>, NoMemory>
    ensures { IfOk result (λ text. text.items ≡ text_in form chart.now) }
{
    match form {
        Form::Svg => svg_text(alloc, chart),
        Form::Perfetto => json_text(alloc, chart),
    }
}
