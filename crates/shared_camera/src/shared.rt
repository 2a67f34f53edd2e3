//! Sharing a camera: its seats are made, joined and closed.
ghost use Rattle.std.specs.Prelude.{◌≡◌, [], IfErr, IfOk, IsPermutation, reverse};
ghost use Rattle.service_core.specs.Answers.{IsNoJobOut};
ghost use Rattle.turn_lock.specs.Lending.{IsIdle, IsReady};
ghost use Rattle.turn_lock.specs.Seats.{fixed_of, view};
ghost use Rattle.turn_lock.specs.Turns.{Joins, Looks, split_off, splitting};
ghost use Rattle.turn_lock.specs.Views.{root_view};
ghost use Rattle.shared_camera.specs.Cameras.{script_of};
ghost use Rattle.shared_camera.specs.JobsOut.{jobs_out};

use crate::camera::{CamSeat, Camera};
use service_core::Service;
use std::alloc::Global;
use turn_lock::Turnstile;

/// A camera that threads share. It is spent by `close`.
pub struct Shared {
    pub(crate) turnstile: Turnstile<Camera>,
}

impl Shared {
    /// Shares a service, and gives its root. `Err` comes only for want of memory, and gives the service back.
    pub fn new(alloc: Global, service: Service) -> Result<(Shared, CamSeat), Service>
        requires { IsNoJobOut service.history }
        ensures made { IfOk result (λ s. IsReady script_of s.0.turnstile s.1
            × (fixed_of script_of s.0.turnstile ≡ service.script)) }
        ensures root { IfOk result (λ s. view s.1 ≡ root_view service.script (reverse service.history)) }
        ensures back { IfErr result (λ same. same ≡ service) }
    {
        service.is_a_run();
        let moves = service.moves();
        match Turnstile::new(alloc, Camera { service }, moves) {
            Ok((turnstile, root)) => Ok((Shared { turnstile }, root)),
            Err(Camera { service }) => Err(service),
        }
    }

    /// A new seat, which has seen what the root has, and has no job.
    pub fn split(&self, root: &mut CamSeat) -> CamSeat
        requires seat { IsReady script_of self.now.turnstile root.old }
        requires root { (view root.old).number ≡ 0 }
        ensures seats { IsReady script_of self.now.turnstile root.new × IsReady script_of self.now.turnstile result }
        ensures root { view root.new ≡ splitting (view root.old) }
        ensures split_off { view result ≡ split_off (view root.old) }
    {
        self.turnstile.split(root)
    }

    /// The root takes in another seat, and has then seen all that both had.
    pub fn join(&self, root: &mut CamSeat, other: CamSeat)
        requires seats { IsReady script_of self.now.turnstile root.old × IsIdle script_of self.now.turnstile other }
        requires root { (view root.old).number ≡ 0 }
        ensures seat { IsReady script_of self.now.turnstile root.new }
        ensures joined { Joins (view root.old) (view other) (view root.new) }
    {
        self.turnstile.join(root, other);
    }

    /// How many moves the history has at some moment of this call. It takes no turn, and doesn't wait: of the camera it
    /// tells nothing else, and another seat may have made more since.
    pub fn moves(&self, seat: &mut CamSeat) -> u64
        requires { IsReady script_of self.now.turnstile seat.old }
        ensures seat { IsReady script_of self.now.turnstile seat.new }
        ensures look { Looks (view seat.old) result (view seat.new) }
    {
        self.turnstile.count(seat)
    }

    /// The service, once all other seats were joined: its history is what the root has seen, and the jobs that are out
    /// are the root's.
    pub fn close(self, root: CamSeat) -> Service
        requires seat { IsReady script_of self.turnstile root }
        requires root { (view root).number ≡ 0 }
        requires alone { (view root).others ≡ [] }
        ensures script { result.script ≡ fixed_of script_of self.turnstile }
        ensures history { result.history ≡ reverse (view root).seen }
        ensures jobs { IsPermutation (jobs_out result.script result.history) (view root).jobs }
    {
        let Shared { turnstile } = self;
        let Camera { service } = turnstile.close(root);
        service
    }
}
