//! The heads and the bodies of the files.
ghost use Rattle.std.specs.Prelude.{◌≡◌, ◌≤◌, ◌<◌, IfOk, IsTrue, length};
ghost use Rattle.cam_types.specs.Picture.{is_offered};
ghost use Rattle.video_call.specs.Files.{
  body_in,
  film_head,
  frame_head,
  pgm_head,
  picture_file,
  ppm_head,
  y4m_head,
};

use crate::colours::put_colours;
use crate::samples::exchange;
use cam_types::{Format, NoMemory, StreamSpec};
use std::alloc::Global;

/// The head of a PGM picture.
fn pgm_head(alloc: Global, width: u32, height: u32) -> Result<Vec<u8>, NoMemory>
    ensures { IfOk result (λ text. text.items ≡ pgm_head width height) }
{
    let mut out = String::new(alloc);
    write!(&mut out, "P5\n{width} {height}\n1023\n")?;
    Ok(out.into_bytes())
}

/// The head of a PPM picture.
fn ppm_head(alloc: Global, width: u32, height: u32) -> Result<Vec<u8>, NoMemory>
    ensures { IfOk result (λ text. text.items ≡ ppm_head width height) }
{
    let mut out = String::new(alloc);
    write!(&mut out, "P6\n{width} {height}\n255\n")?;
    Ok(out.into_bytes())
}

/// The head of a YUV4MPEG2 film.
fn y4m_head(alloc: Global, width: u32, height: u32) -> Result<Vec<u8>, NoMemory>
    ensures { IfOk result (λ text. text.items ≡ y4m_head width height) }
{
    let mut out = String::new(alloc);
    writeln!(
        &mut out,
        "YUV4MPEG2 W{width} H{height} F30:1 Ip A1:1 C420jpeg"
    )?;
    Ok(out.into_bytes())
}

/// What stands before all pictures of a film of the stream.
pub fn film_head(alloc: Global, spec: StreamSpec) -> Result<Vec<u8>, NoMemory>
    ensures { IfOk result (λ text. text.items ≡ film_head spec) }
{
    match spec.format {
        Format::Yuv => y4m_head(alloc, spec.width, spec.height),
        Format::Raw16 | Format::Other(_) => Ok(Vec::new(alloc)),
    }
}

/// What stands before each picture of a film of the stream.
pub fn frame_head(alloc: Global, spec: StreamSpec) -> Result<Vec<u8>, NoMemory>
    ensures { IfOk result (λ text. text.items ≡ frame_head spec) }
{
    match spec.format {
        Format::Raw16 => pgm_head(alloc, spec.width, spec.height),
        Format::Yuv => b"FRAME\n".to_vec(alloc),
        Format::Other(_) => Ok(Vec::new(alloc)),
    }
}

/// Makes of a picture's bytes what stands in a file: RAW16 becomes samples of PGM, YUV stays as it is.
pub fn make_body(format: Format, bytes: &mut [u8])
    ensures { bytes.new ≡ body_in format bytes.old }
{
    if let Format::Raw16 = format {
        exchange(bytes);
    }
}

/// The file of a RAW16 picture, whose bytes are spent.
fn pgm_file(alloc: Global, spec: StreamSpec, picture: &mut [u8]) -> Result<Vec<u8>, NoMemory>
    requires { spec.format ≡ Format.Raw16 }
    ensures { IfOk result (λ text. text.items ≡ picture_file spec picture.old) }
{
    let mut out = pgm_head(alloc, spec.width, spec.height)?;
    exchange(picture);
    out.extend_from_slice(picture)?;
    Ok(out)
}

/// The file of a YUV picture.
fn ppm_file(alloc: Global, spec: StreamSpec, picture: &[u8]) -> Result<Vec<u8>, NoMemory>
    requires format { spec.format ≡ Format.Yuv }
    requires offered { IsTrue (is_offered spec) }
    ensures { IfOk result (λ text. text.items ≡ picture_file spec picture.now) }
{
    let mut out = ppm_head(alloc, spec.width, spec.height)?;
    put_colours(&mut out, spec.width, spec.height, picture)?;
    Ok(out)
}

/// A picture of the stream, which is offered, as a file of its own: RAW16 as PGM, YUV as PPM. The picture's bytes are
/// spent.
pub fn picture_file(
    alloc: Global,
    spec: StreamSpec,
    picture: &mut [u8],
) -> Result<Vec<u8>, NoMemory>
    requires { IsTrue (is_offered spec) }
    ensures { IfOk result (λ text. text.items ≡ picture_file spec picture.old) }
{
    match spec.format {
        Format::Raw16 => pgm_file(alloc, spec, picture),
        Format::Yuv => ppm_file(alloc, spec, picture),
        Format::Other(_) => Ok(Vec::new(alloc)),
    }
}
