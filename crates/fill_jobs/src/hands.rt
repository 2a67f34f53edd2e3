//! The jobs in hand.
ghost use Rattle.std.specs.Prelude.{◌≡◌, ◌↔◌, ◌<◌, [], IfNone, IfSome, IsTrue, None, length, slice_get};
ghost use Rattle.std.specs.Option.{option_map};
ghost use Rattle.fill_jobs.specs.Held.{IsWith, fill_job_in, held_at, name_of, sensor_job_in};

use crate::handed_job::Job;
use crate::name::JobName;
use crate::places::{
    Places, end_places, first_name, free_place, make_places, put, take_exposure, take_fill,
    taken_place,
};
use crate::{FillJob, FilledJob};
use cam_types::{FrameNo, StreamIx};
use picture_stages::{DigestMemory, SensorJob};
use std::marker::Model;

/// How many jobs may be in hand at once.
pub const HANDS_LIMIT: usize = 16;

/// The jobs that are in hand, in the order of their places: a job goes into the first free place. They can't be let
/// go: `close` ends them. They may have a memory of digests, which no contract sees.
pub struct Hands {
    places: Places,
    memory: Option<DigestMemory>,
}

impl Model for Hands {
    ghost use Rattle.std.specs.Prelude.{◌≡◌, List, true};
    ghost use Rattle.cam_types.specs.declared.job.JobView.{JobView};
    ghost use Rattle.fill_jobs.specs.Places.{are_fitting, held_in};

    ghost Value = { List JobView };

    ghost view = { λ h. held_in h.places };

    ghost invariant = { λ h. are_fitting h.places ≡ true };
}

impl Hands {
    /// No job.
    pub fn new() -> Hands
        ensures { result ≡ [] }
    {
        Hands {
            places: make_places(),
            memory: None,
        }
    }

    /// No job, and a memory of digests: each picture that it knows is hashed no more.
    pub fn with_memory(memory: DigestMemory) -> Hands
        ensures { result ≡ [] }
    {
        Hands {
            places: make_places(),
            memory: Some(memory),
        }
    }

    /// Whether there is a place for one more.
    pub fn has_room(&self) -> bool
        ensures { IsTrue result ↔ (length self.now < HANDS_LIMIT) }
    {
        free_place(&self.places).is_some()
    }

    /// Keeps a job of the sensor.
    pub fn put_sensor(&mut self, job: SensorJob)
        requires room { length self.old < HANDS_LIMIT }
        ensures { IsWith job self.old self.new }
    {
        let _ = job.frame();
        put(&mut self.places, Job::Exposure(job));
    }

    /// Keeps a job of a stage.
    pub fn put_fill(&mut self, job: FillJob)
        requires room { length self.old < HANDS_LIMIT }
        ensures { IsWith job self.old self.new }
    {
        let _ = job.stream();
        put(&mut self.places, Job::Fill(job));
    }

    /// Takes the sensor's job of a frame. None exactly where the first job of the frame is a fill, or there is none.
    pub fn take_sensor(&mut self, frame: FrameNo) -> Option<SensorJob>
        ensures value { result ≡ sensor_job_in (held_at frame.0 self.old) }
        ensures taken { IfSome result (λ job. IsWith job self.new self.old) }
        ensures stays { IfNone result (self.new ≡ self.old) }
    {
        take_exposure(&mut self.places, frame)
    }

    /// Takes a stage's job of a frame and a stream. None exactly where the first job of the frame isn't a fill of the
    /// stream, or there is none.
    pub fn take_fill(&mut self, frame: FrameNo, stream: StreamIx) -> Option<FillJob>
        ensures value { result ≡ fill_job_in stream.0 (held_at frame.0 self.old) }
        ensures taken { IfSome result (λ job. IsWith job self.new self.old) }
        ensures stays { IfNone result (self.new ≡ self.old) }
    {
        take_fill(&mut self.places, frame, stream)
    }

    /// Fills the buffer of a job that is in hand no more, with the memory of digests where there is one. It takes no
    /// lock and no memory.
    pub fn fill(&mut self, job: FillJob) -> FilledJob
        ensures filled { result ≡ job }
        ensures stays { self.new ≡ self.old }
    {
        match &mut self.memory {
            Some(memory) => job.fill_with(memory),
            None => job.fill(),
        }
    }

    /// Whether no job is in hand.
    pub fn is_empty(&self) -> bool
        ensures { IsTrue result ↔ (self.now ≡ []) }
    {
        taken_place(&self.places).is_none()
    }

    /// The name of the first job. None exactly where no job is in hand.
    pub fn first(&self) -> Option<JobName>
        ensures { result ≡ option_map name_of (slice_get self.now 0) }
    {
        first_name(&self.places)
    }

    /// Ends hands that have no job.
    pub fn close(self)
        requires { self ≡ [] }
    {
        let Hands { places, memory: _ } = self;
        end_places(places);
    }
}
