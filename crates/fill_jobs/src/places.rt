//! The places for jobs, each free or taken.
ghost use Rattle.std.specs.Prelude.{◌≡◌, ◌<◌, ℕ, IfNone, IfSome, IsTrue, None, is_none, is_some, length, slice_get, slice_index_or};
ghost use Rattle.std.specs.List.{position_from};
ghost use Rattle.std.specs.Option.{option_map};
ghost use Rattle.fill_jobs.specs.Held.{IsWith, fill_job_in, held_at, name_of, sensor_job_in};
ghost use Rattle.fill_jobs.specs.Places.{are_fitting, fits_in, free_places, has_exposure, has_fill, has_frame, held_in, is_fitting, view_of};

use crate::FillJob;
use crate::handed_job::Job;
use crate::name::JobName;
use cam_types::{FrameNo, StreamIx};
use picture_stages::SensorJob;

/// A place for each job that may be in hand at once.
pub(crate) type Places = [Option<Job>; 16];

/// No job.
pub(crate) fn make_places() -> Places
    ensures { result ≡ free_places }
{
    [
        None, None, None, None, None, None, None, None, None, None, None, None, None, None, None,
        None,
    ]
}

/// Puts a job into the first free place.
pub(crate) fn put(places: &mut [Option<Job>], job: Job)
    requires room { length (held_in places.old) < length places.old }
    requires fits { IsTrue (is_fitting job) }
    requires fit { IsTrue (are_fitting places.old) }
    ensures put { IsWith (view_of job) (held_in places.old) (held_in places.new) }
    ensures fit { IsTrue (are_fitting places.new) }
{
    let Some(place) = free_place(places) else {
        unreachable!();
    };
    match places[place].replace(job) {
        None => {}
        Some(_job) => unreachable!(),
    }
}

/// The first free place.
pub(crate) fn free_place(places: &[Option<Job>]) -> Option<usize>
    ensures value { result ≡ position_from (λ place. is_none place) 0 places.now }
    ensures within { IfSome result (λ place. place < length places.now) }
{
    places.iter().position(|place| place.is_none())
}

/// The first place that is taken.
pub(crate) fn taken_place(places: &[Option<Job>]) -> Option<usize>
    ensures value { result ≡ position_from (λ place. is_some place) 0 places.now }
    ensures within { IfSome result (λ place. place < length places.now) }
{
    places.iter().position(|place| place.is_some())
}

/// The first place that has a job of the frame.
fn frame_place(places: &[Option<Job>], frame: FrameNo) -> Option<usize>
    ensures value { result ≡ position_from (λ place. has_frame frame.0 place) 0 places.now }
    ensures within { IfSome result (λ place. place < length places.now) }
{
    places.iter().position(|place| is_of_frame(place, frame))
}

/// Whether a place has a job of the frame.
fn is_of_frame(place: &Option<Job>, frame: FrameNo) -> bool
    ensures { result ≡ has_frame frame.0 place.now }
{
    match place {
        Some(job) => job.frame().0 == frame.0,
        None => false,
    }
}

/// The name of the job at a place.
fn name_in(place: &Option<Job>) -> Option<JobName>
    requires { IsTrue (fits_in place.now) }
    ensures { result ≡ option_map (λ job. name_of (view_of job)) place.now }
{
    match place {
        Some(job) => Some(job.name()),
        None => None,
    }
}

/// The name of the first job.
pub(crate) fn first_name(places: &[Option<Job>]) -> Option<JobName>
    requires { IsTrue (are_fitting places.now) }
    ensures { result ≡ option_map name_of (slice_get (held_in places.now) 0) }
{
    let place = taken_place(places)?;
    name_in(&places[place])
}

/// Whether a place has an exposure.
fn is_exposure_in(place: &Option<Job>) -> bool
    ensures { result ≡ has_exposure place.now }
{
    match place {
        Some(Job::Exposure(_)) => true,
        Some(Job::Fill(_)) => false,
        None => false,
    }
}

/// Whether a place has a fill of the stream.
fn is_fill_in(place: &Option<Job>, stream: StreamIx) -> bool
    ensures { result ≡ has_fill stream.0 place.now }
{
    match place {
        Some(job) => job.is_fill_of(stream),
        None => false,
    }
}

/// Takes the job of a frame, where it is an exposure.
pub(crate) fn take_exposure(places: &mut [Option<Job>], frame: FrameNo) -> Option<SensorJob>
    requires { IsTrue (are_fitting places.old) }
    ensures value { result ≡ sensor_job_in (held_at frame.0 (held_in places.old)) }
    ensures taken { IfSome result (λ job. IsWith job (held_in places.new) (held_in places.old)) }
    ensures stays { IfNone result (held_in places.new ≡ held_in places.old) }
    ensures fit { IsTrue (are_fitting places.new) }
{
    let place = frame_place(places, frame)?;
    if !is_exposure_in(&places[place]) {
        return None;
    }
    match places[place].take() {
        Some(Job::Exposure(job)) => Some(job),
        Some(Job::Fill(_job)) => unreachable!(),
        None => unreachable!(),
    }
}

/// Takes the job of a frame, where it is a fill of the stream.
pub(crate) fn take_fill(
    places: &mut [Option<Job>],
    frame: FrameNo,
    stream: StreamIx,
) -> Option<FillJob>
    requires { IsTrue (are_fitting places.old) }
    ensures value { result ≡ fill_job_in stream.0 (held_at frame.0 (held_in places.old)) }
    ensures taken { IfSome result (λ job. IsWith job (held_in places.new) (held_in places.old)) }
    ensures stays { IfNone result (held_in places.new ≡ held_in places.old) }
    ensures fit { IsTrue (are_fitting places.new) }
{
    let place = frame_place(places, frame)?;
    if !is_fill_in(&places[place], stream) {
        return None;
    }
    match places[place].take() {
        Some(Job::Fill(job)) => Some(job),
        Some(Job::Exposure(_job)) => unreachable!(),
        None => unreachable!(),
    }
}

/// Ends the places, which are all free. An array whose values can't be let go ends by a pattern that names each.
pub(crate) fn end_places(places: Places)
    requires { (k : ℕ) → slice_index_or places k None ≡ None }
{
    let [a, b, c, d, e, f, g, h, i, j, k, l, m, n, o, p] = places;
    end(a);
    end(b);
    end(c);
    end(d);
    end(e);
    end(f);
    end(g);
    end(h);
    end(i);
    end(j);
    end(k);
    end(l);
    end(m);
    end(n);
    end(o);
    end(p);
}

fn end(place: Option<Job>)
    requires { place ≡ None }
{
    match place {
        None => {}
        Some(_job) => unreachable!(),
    }
}
