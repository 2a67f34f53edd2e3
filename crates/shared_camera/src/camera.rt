//! What a turnstile keeps of a camera.
use cam_types::{JobView, Script};
use run_model::Move;
use service_core::Service;
use turn_lock::{Kept, Seat};

/// A service in a turnstile: its script is fixed, its moves are the entries, and its jobs are those that are out.
pub struct Camera {
    pub(crate) service: Service,
}

impl Kept for Camera {
    ghost use Rattle.shared_camera.specs.Cameras.{jobs_of, moves_of, script_of};

    type Fixed = Script;

    type Entry = Move;

    type Job = JobView;

    ghost fixed = { script_of };

    ghost entries = { moves_of };

    ghost jobs = { jobs_of };
}

/// A thread's place at a shared camera. It can't be let go: `join` or `close` spends it.
pub type CamSeat = Seat<Camera>;
