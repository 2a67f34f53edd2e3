//! `video` and `picture`: a script is read and played, and the pictures that its buffers brought are written as a file
//! that others show. The film of a stream is which pictures its good buffers brought in a run, in the order of
//! delivery. See `specs/`.
#![tactic(auto)]

mod call;
mod calls;
mod choice;
mod chosen;
mod colours;
mod easel;
mod files;
mod film;
mod laws;
mod refusal;
mod samples;
mod shot;
mod wanted;
mod write;

pub use call::{picture_call, video_call};
pub use choice::{NoFilm, film_or_none, shot_or_none};
pub use files::{film_head, frame_head, make_body, picture_file};
pub use film::film_of;
pub use laws::the_digest_is_the_pictures;
pub use shot::Shot;
pub use wanted::Wanted;
