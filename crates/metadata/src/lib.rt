//! Packed metadata: entries of tagged values, ascending by tag, and their one spelling in bytes. And the camera's tags:
//! ranges of settings, templates, what each of a frame's partial results says, settings and results as packed metadata.
#![tactic(auto)]

mod element;
mod entry;
mod laws;
mod limit;
mod number;
mod packed;
mod packed_part;
mod places;
mod preset;
mod reading;
mod refused;
mod result_part;
mod rule;
mod rule_laws;
mod settings;
mod values;
mod writing;

pub use element::ElementType;
pub use entry::Entry;
pub use laws::{read_is_spelled, spelled_is_read};
pub use limit::{AREA_LIMIT, COUNT_LIMIT, ENTRY_LIMIT};
pub use packed::Packed;
pub use packed_part::{PART_BYTES, PartBytes, part_bytes, part_of};
pub use preset::template;
pub use refused::{AddRefused, PackedRefused};
pub use result_part::part;
pub use rule::{EXPOSURE, LEVEL, PATTERN, SENSITIVITY, TIMESTAMP, Template, range_fault};
pub use rule_laws::{parts_read_back, settings_read_back};
pub use settings::{SettingsRefused, packed_of, settings_of};
pub use values::{ByteList, Int32List, Int64List, Ratio, RationalList, Values};
