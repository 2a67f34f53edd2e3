//! The searches of all scenes.
ghost use Rattle.std.specs.Prelude.{◌≡◌, ◌≤◌, ◌<◌, ◌+◌, ◌*◌, ◌++◌, ◌∷◌, [], None, IfOk, OnOk, IsTrue, length};
ghost use Rattle.cam_types.specs.Metadata.{range_fault};
ghost use Rattle.cam_types.specs.Script.{is_valid as is_valid_script};
ghost use Rattle.auto_call.specs.Brightness.{mean};
ghost use Rattle.auto_call.specs.Valid.{is_scene, is_valid};
ghost use Rattle.auto_call.specs.OutputLines.{frame_line, front_of};
ghost use Rattle.auto_call.specs.Output.{lines_of, scene_lines, scene_shots, script_of, settings_of, shots_of};

use crate::output_line::{AutoLine, LineList, end_line, front_text};
use crate::script::script_of;
use crate::{Ae, AutoText, Scene, at_step, measure};
use cam_types::{FrameNo, Listing, NoMemory, Script, Settings};
use std::alloc::Global;

/// The settings of frames, the first one first.
type ShotList = Listing<Settings>;

/// What was found so far: the lines, and the settings of the frames.
#[derive(Drop)]
struct Found {
    lines: LineList,
    shots: ShotList,
}

/// Captures one more frame, and answers its mean.
fn add_frame(alloc: Global, found: &mut Found, shot: Settings) -> Result<u32, NoMemory>
    requires range { range_fault shot ≡ None }
    requires lines { length found.old.lines < 200 }
    requires shots { length found.old.shots < 64 }
    ensures mean { IfOk result (λ measured. measured ≡ mean shot (length found.old.shots)) }
    ensures lines { OnOk result
        (found.new.lines ≡ found.old.lines ++ frame_line (length found.old.shots) shot ∷ []) }
    ensures shots { OnOk result (found.new.shots ≡ found.old.shots ++ shot ∷ []) }
{
    let frame = found.shots.len();
    let mean = measure(alloc, shot, FrameNo(frame))?;
    found.lines.push(AutoLine::Frame {
        frame,
        exposure: shot.exposure,
        mean,
    })?;
    found.shots.push(shot)?;
    Ok(mean)
}

/// The settings of a scene's frames, but for their exposure.
fn settings_of(iso: u32, scene: Scene) -> Settings
    ensures { result ≡ settings_of iso scene }
{
    Settings {
        pattern: scene.pattern,
        level: scene.level,
        exposure: 100_000,
        iso,
    }
}

/// Searches one more scene.
fn add_scene(
    alloc: Global,
    found: &mut Found,
    target: u32,
    settings: Settings,
    number: u32,
    frames: u32,
) -> Result<(), NoMemory>
    requires range { range_fault settings ≡ None }
    requires still { settings.pattern ≤ 1 }
    requires lines { length found.old.lines ≤ 2 * length found.old.shots }
    requires shots { length found.old.shots + frames ≤ 64 }
    ensures lines { OnOk result (found.new.lines ≡
        found.old.lines ++ scene_lines target settings (length found.old.shots) number frames) }
    ensures shots { OnOk result (found.new.shots ≡ found.old.shots ++ scene_shots target settings frames) }
{
    let mut ae = Ae::start();
    for _ in 0..frames {
        let shot = at_step(settings, ae.exposure());
        let mean = add_frame(alloc, found, shot)?;
        ae.learn(mean, target);
    }
    found.lines.push(end_line(number, ae.state()))?;
    Ok(())
}

/// Searches all scenes.
fn find_all(alloc: Global, text: &AutoText) -> Result<Found, NoMemory>
    requires { IsTrue (is_valid text.now) }
    ensures lines { IfOk result (λ found. found.lines ≡ lines_of text.now) }
    ensures shots { IfOk result (λ found. found.shots ≡ shots_of text.now) }
{
    let mut found = Found {
        lines: LineList::new(alloc),
        shots: ShotList::new(alloc),
    };
    for (number, scene) in text.scenes.as_slice().iter().enumerate() {
        let settings = settings_of(text.iso, *scene);
        add_scene(
            alloc,
            &mut found,
            text.target,
            settings,
            number as u32,
            scene.frames,
        )?;
    }
    Ok(found)
}

/// What is written of a text of automatic exposure.
#[derive(Drop)]
pub struct Drawn {
    /// The lines in front of the trace.
    pub front: Vec<u8>,
    /// The script whose trace stands behind them.
    pub script: Script,
}

/// Searches the scenes of a valid text, frame by frame, on pictures that are drawn and measured. It fails only for
/// want of memory.
pub fn draw_up(alloc: Global, text: &AutoText) -> Result<Drawn, NoMemory>
    requires { IsTrue (is_valid text.now) }
    ensures front { IfOk result (λ drawn. drawn.front.items ≡ front_of (lines_of text.now)) }
    ensures script { IfOk result (λ drawn. drawn.script ≡ script_of (shots_of text.now)) }
    ensures valid { IfOk result (λ drawn. IsTrue (is_valid_script drawn.script)) }
{
    let found = find_all(alloc, text)?;
    let front = front_text(alloc, found.lines.as_slice())?;
    let script = script_of(alloc, found.shots.as_slice())?;
    Ok(Drawn { front, script })
}
