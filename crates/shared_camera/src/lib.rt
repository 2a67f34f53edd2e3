//! A camera that works by itself: threads that make its steps, expose its frames and fill its buffers side by side, by
//! turns.
//!
//! A `Shared` keeps a service in a turnstile. Each call whose name ends in `_turn` waits for the turn, makes one move
//! of the service or none, and gives the turn up; the jobs of sensor and stages are worked on between turns. What a
//! seat has seen is a history of the service, and each turn says which move ends it: so what is known on one thread of
//! a service that is its own is known here of the one history that all threads make.
//!
//! `run_workers` starts a loop for each part of the camera: the client, the requests, the sensor, so many stages, the
//! results and the consumer. Each loop has a seat of its own, and makes turns of its own kinds only. Frames are exposed
//! and buffers are filled between turns, so a loop that draws keeps no other from its turn. A loop that finds no work
//! lets its processor go, and looks again after a while.
#![tactic(auto)]

mod camera;
mod crew;
mod gate;
mod idle;
mod job_turns;
mod laws;
mod loop_turns;
mod loops;
mod moves;
mod part;
mod shared;
mod turns;
mod workers;

pub use camera::{CamSeat, Camera};
pub use gate::{Gate, OpenGate};
pub use laws::{no_job_is_out_of_an_idle_root, the_jobs_that_are_out};
pub use service_core::{Shuttered, Step as Turned};
pub use shared::Shared;
pub use workers::run_workers;
