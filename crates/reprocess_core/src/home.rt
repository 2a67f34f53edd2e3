//! Which buffers are at home, and which request waits longest.
ghost use Rattle.std.specs.Prelude.{◌≡◌, ◌^◌, ◌<◌, length, reverse};
ghost use Rattle.reprocess_model.specs.Past.{all_inputs_home as inputs_home_in, all_outputs_home as outputs_home_in, is_input_home as input_home_in, is_output_home as output_home_in, least_input as least_input_in, least_output as least_output_in, least_queued as least_queued_in};

use crate::reads::{input_holder, is_gone, output_holder, request_count};
use reprocess_model::ReEntry;

/// The least request that waits.
pub fn least_queued(lines: &[ReEntry]) -> Option<u32>
    requires { length lines.now < 2 ^ 32 }
    ensures { result ≡ least_queued_in (reverse lines.now) }
{
    let count = request_count(lines) as u32;
    for request in 0..count {
        if !is_gone(lines, request) {
            return Some(request);
        }
    }
    None
}

fn is_input_home(lines: &[ReEntry], buffer: u32) -> bool
    ensures { result ≡ input_home_in (reverse lines.now) buffer }
{
    input_holder(lines, buffer).is_none()
}

fn is_output_home(lines: &[ReEntry], buffer: u32) -> bool
    ensures { result ≡ output_home_in (reverse lines.now) buffer }
{
    output_holder(lines, buffer).is_none()
}

/// The least input buffer that is at home.
pub fn least_input(lines: &[ReEntry]) -> Option<u32>
    ensures { result ≡ least_input_in (reverse lines.now) }
{
    if is_input_home(lines, 0) {
        Some(0)
    } else if is_input_home(lines, 1) {
        Some(1)
    } else if is_input_home(lines, 2) {
        Some(2)
    } else {
        None
    }
}

/// The least buffer of an output that is at home.
pub fn least_output(lines: &[ReEntry], output: u8) -> Option<u32>
    requires { output < 4 }
    ensures { result ≡ least_output_in output (reverse lines.now) }
{
    let first = 4 * u32::from(output);
    let second = first + 1;
    let third = second + 1;
    let fourth = third + 1;
    if is_output_home(lines, first) {
        Some(first)
    } else if is_output_home(lines, second) {
        Some(second)
    } else if is_output_home(lines, third) {
        Some(third)
    } else if is_output_home(lines, fourth) {
        Some(fourth)
    } else {
        None
    }
}

/// Whether no input buffer is at the device.
pub fn all_inputs_home(lines: &[ReEntry]) -> bool
    ensures { result ≡ inputs_home_in (reverse lines.now) }
{
    is_input_home(lines, 2) && (is_input_home(lines, 1) && is_input_home(lines, 0))
}

/// Whether no output buffer is at the device.
pub fn all_outputs_home(lines: &[ReEntry]) -> bool
    ensures { result ≡ outputs_home_in (reverse lines.now) }
{
    for buffer in 0..12 {
        if !is_output_home(lines, buffer) {
            return false;
        }
    }
    true
}
