//! What a step answers.
use trace_model::Entry;

/// What a step of the service answers that gives out no job.
#[derive(Clone, Copy)]
pub enum Step {
    /// The step was made, and added this entry.
    Did(Entry),
    /// The step isn't ready; the service is as it was.
    NotReady,
}
