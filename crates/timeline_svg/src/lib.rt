//! The picture of a chart, as one SVG text. See `specs/`.
#![tactic(auto)]

mod bar;
mod group;
mod lane;
mod level;
mod mark;
mod pen;
mod picture;
mod place;
mod style;
mod word;

pub use picture::svg_text;
