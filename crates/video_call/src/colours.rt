//! A YUV picture in red, green and blue.
ghost use Rattle.std.specs.Prelude.{◌≡◌, ◌+◌, ◌*◌, ◌<◌, ◌≤◌, ◌++◌, OnOk, slice_index};
ghost use Rattle.video_call.specs.Colours.{as_byte, blue_of, cell_of, colours, green_of, pixel, red_of};

use cam_types::NoMemory;

/// (more - less) / 256 as a byte, from 0 to 255.
fn as_byte(more: u32, less: u32) -> u8
    ensures { result ≡ as_byte more less }
{
    (more.saturating_sub(less) / 256).min(255) as u8
}

/// How red a place is, by its brightness and its red difference.
fn red_of(luma: u8, red: u8) -> u8
    ensures { result ≡ red_of luma red }
{
    as_byte(
        256 * u32::from(luma) + 359 * u32::from(red) + 128,
        359 * 128,
    )
}

/// How green a place is, by its brightness and both differences.
fn green_of(luma: u8, blue: u8, red: u8) -> u8
    ensures { result ≡ green_of luma blue red }
{
    as_byte(
        256 * u32::from(luma) + (88 + 183) * 128 + 128,
        88 * u32::from(blue) + 183 * u32::from(red),
    )
}

/// How blue a place is, by its brightness and its blue difference.
fn blue_of(luma: u8, blue: u8) -> u8
    ensures { result ≡ blue_of luma blue }
{
    as_byte(
        256 * u32::from(luma) + 454 * u32::from(blue) + 128,
        454 * 128,
    )
}

/// The byte at a place, and 0 behind the last.
fn byte_at(bytes: &[u8], place: usize) -> u8
    ensures { result ≡ slice_index bytes.now place }
{
    match bytes.get(place) {
        Some(byte) => *byte,
        None => 0,
    }
}

/// Where the differences of a place stand in their planes.
fn cell_of(width: usize, place: usize) -> usize
    requires some { 0 < width }
    requires small { width ≤ 160 }
    requires within { place < 19200 }
    ensures value { result ≡ cell_of width place }
    ensures small { result < 3072000 }
{
    place / width / 2 * (width / 2) + place % width / 2
}

/// The three colours of a place of a picture.
fn pixel(width: usize, height: usize, picture: &[u8], place: usize) -> [u8; 3]
    requires some { 0 < width }
    requires columns { width ≤ 160 }
    requires rows { height ≤ 120 }
    requires within { place < 19200 }
    ensures { result ≡ pixel width height picture.now place }
{
    let cell = cell_of(width, place);
    let luma = byte_at(picture, place);
    let blue = byte_at(picture, width * height + cell);
    let red = byte_at(picture, width * height + width / 2 * (height / 2) + cell);
    [
        red_of(luma, red),
        green_of(luma, blue, red),
        blue_of(luma, blue),
    ]
}

/// Puts the colours of all places of a picture behind what is there.
#[tactic(auto, unfolding(crate::specs::Colours::colours))]
pub(crate) fn put_colours(
    out: &mut Vec<u8>,
    width: u32,
    height: u32,
    picture: &[u8],
) -> Result<(), NoMemory>
    requires some { 0 < width }
    requires columns { width ≤ 160 }
    requires rows { height ≤ 120 }
    ensures { OnOk result (out.new.items ≡ out.old.items ++ colours width height picture.now) }
{
    for place in 0..width as usize * height as usize {
        let colours = pixel(width as usize, height as usize, picture, place);
        out.extend_from_slice(&colours)?;
    }
    Ok(())
}
