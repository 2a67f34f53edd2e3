//! Laws on a service's parts: functions that do nothing, and whose contracts hold of every script and every run.
ghost use Rattle.std.specs.Prelude.{ℕ, List};
ghost use Rattle.cam_types.specs.declared.four.Four.{Four as SomeFour};
ghost use Rattle.cam_types.specs.declared.number.BufferId.{BufferId as SomeBuffer};
ghost use Rattle.cam_types.specs.declared.number.DeviceFenceNo.{DeviceFenceNo as SomeDeviceFence};
ghost use Rattle.cam_types.specs.declared.number.FenceNo.{FenceNo as SomeFence};
ghost use Rattle.cam_types.specs.declared.number.FrameNo.{FrameNo as SomeFrame};
ghost use Rattle.cam_types.specs.declared.number.RequestId.{RequestId as SomeRequest};
ghost use Rattle.cam_types.specs.declared.number.StreamIx.{StreamIx as SomeStream};
ghost use Rattle.cam_types.specs.declared.reply.Made.{Made as SomeMade};
ghost use Rattle.cam_types.specs.declared.reply.Reply.{Reply as SomeReply};
ghost use Rattle.cam_types.specs.declared.script.Command.{Command as SomeCommand};
ghost use Rattle.cam_types.specs.declared.script.Script.{Script as SomeScript};
ghost use Rattle.cam_types.specs.declared.script.Word.{Word as SomeWord};
ghost use Rattle.run_model.specs.declared.step.Move.{Move as SomeMove};
ghost use Rattle.service_parts.specs.Facts.{CallsCanBeTaken, ConfiguresAtHome, ConfiguresAtRest, HasGivenFences, HasRoomForBuffers, HasRoomForEarly, HasRoomForFences, HasRoomForRequests, PlacesTargets};
ghost use Rattle.trace_model.specs.declared.entry.Entry.{Entry as SomeEntry};

/// Each fence with which a buffer came home was released.
#[tactic(auto, using(crate::proofs::Given::fences_given))]
pub fn fences_are_given()
    ensures { (script : SomeScript) (past : List SomeEntry) → HasGivenFences script past }
{}

/// The buffer of an open frame's target is the stream's. It is at the device until it came back, and at the client with
/// a device fence that isn't signalled where it came back early and its picture isn't there.
pub fn targets_are_placed()
    ensures { (script : SomeScript) (h : List SomeMove) → PlacesTargets script h }
{}

/// There is room for each fence, device fence, request and buffer of a legal run.
pub fn there_is_room()
    ensures fences { (script : SomeScript) (past : List SomeEntry) (b : SomeBuffer) (f : SomeFence) →
        HasRoomForFences script past b f }
    ensures early { (script : SomeScript) (past : List SomeEntry) (n : SomeFrame) (s : SomeStream) (b : SomeBuffer)
        (d : SomeDeviceFence) → HasRoomForEarly script past n s b d }
    ensures requests { (script : SomeScript) (past : List SomeEntry) (i : ℕ) (word : SomeWord) (r : SomeRequest) →
        HasRoomForRequests script past i word r }
    ensures buffers { (script : SomeScript) (past : List SomeEntry) → HasRoomForBuffers script past }
{}

/// A call is of its command, and what it submits can be taken.
pub fn calls_can_be_taken()
    ensures { (script : SomeScript) (past : List SomeEntry) (i : ℕ) (word : SomeWord) (reply : SomeReply)
        (c : SomeCommand) → CallsCanBeTaken script past i word reply c }
{}

/// An accepted configuration is of a configure that isn't refused, while every buffer is in its pool and no frame is
/// open.
pub fn configurations_come_at_rest()
    ensures home { (script : SomeScript) (past : List SomeEntry) (i : ℕ) (word : SomeWord) (each : SomeFour SomeMade) →
        ConfiguresAtHome script past i word each }
    ensures rest { (script : SomeScript) (h : List SomeMove) (m : SomeMove) (i : ℕ) (word : SomeWord)
        (each : SomeFour SomeMade) → ConfiguresAtRest script h m i word each }
{}
