//! The device behind `camera3_device_t` for C: a static library over `hal_device`. `pauvigre_device.h` declares it.
#![tactic(auto)]

mod answer;
mod framework;
mod handle;
mod opening;
mod records;
mod room;
mod rows;
mod steps;
