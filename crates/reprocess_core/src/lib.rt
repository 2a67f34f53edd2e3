//! A reprocessing device: it makes the steps of a plan's run, each as its pick says, with the pictures of its inputs
//! and outputs. A plan with the lines of its run so far is a course; an output's picture is the input's, made smaller.
#![tactic(auto)]

mod candidates;
mod course;
mod device;
mod due;
mod home;
mod input;
mod key;
mod line;
mod memory;
mod output;
mod picture;
mod plane;
mod reads;
mod smaller;
mod steps;
mod ticket;

pub use course::Course;
pub use device::{ReStep, Reprocess};
pub use smaller::{draw_reduced, reduce};
pub use ticket::InputTicket;
