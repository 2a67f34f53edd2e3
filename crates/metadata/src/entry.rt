//! An entry: a tag and its values.
use crate::values::Values;

/// A tag and its values.
#[derive(Drop)]
pub struct Entry {
    pub tag: u32,
    pub values: Values,
}
