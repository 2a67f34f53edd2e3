//! The kinds of lines, and what the words behind the first may say.

use hal_model::HalError;

/// The kinds of lines, each with its own first word.
#[derive(Clone, Copy)]
pub enum Kind {
    Open,
    Init,
    Template,
    Configure,
    Request,
    Shutter,
    Error,
    Result,
    Flush,
    Close,
}

/// How a call ends.
#[derive(Clone, Copy)]
pub enum Ending {
    Ok,
    Error(HalError),
}

/// The stages of a call for a template.
#[derive(Clone, Copy)]
pub enum TemplateStage {
    Begin,
    Ok,
    Null,
}
