//! The forms of a report.

/// For whom a report is written.
#[derive(Clone, Copy, PartialEq, Eq)]
pub enum Form {
    /// For a person: each breach with its lines and sentences.
    Person,
    /// For tools: a line for each breach.
    Plain,
}
