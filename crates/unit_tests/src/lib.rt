//! What a flush makes of a frame by the stage at which it finds it, threads who take turns of which none is lost, threads
//! who share an arbiter, the digests of pictures, the one spelling of scripts, the bytes of metadata, and ends that fail;
//! and that the words for settings are the templates.
#![tactic(auto)]

#[cfg(test)]
mod arbiters;
#[cfg(test)]
mod ends;
#[cfg(test)]
mod flushes;
mod laws;
#[cfg(test)]
mod packed;
#[cfg(test)]
mod pictures;
#[cfg(test)]
mod scripts;
#[cfg(test)]
mod tallies;

pub use laws::words_are_templates;
