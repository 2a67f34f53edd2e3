//! Laws of the definitions: functions that do nothing, and whose contracts hold of every script and every past.
ghost use Rattle.std.specs.Prelude.{◌≡◌, ℕ, Bool, true, false, List, [], ◌∷◌, IsTrue, Option, ◌==◌, ◌&&◌, ◌<◌, ◌≤◌};
ghost use Rattle.std.specs.List.{list_any};
ghost use Rattle.cam_types.specs.Four.{four_list};
ghost use Rattle.cam_types.specs.declared.four.Four.{Four as SomeFour};
ghost use Rattle.cam_types.specs.declared.number.BufferId.{BufferId as SomeBuffer};
ghost use Rattle.cam_types.specs.declared.number.FenceNo.{FenceNo as SomeFence};
ghost use Rattle.cam_types.specs.declared.number.FrameNo.{FrameNo as SomeFrame};
ghost use Rattle.cam_types.specs.declared.number.RequestId.{RequestId as SomeRequest};
ghost use Rattle.cam_types.specs.declared.number.StreamIx.{StreamIx as SomeStream};
ghost use Rattle.cam_types.specs.declared.partial_result.PartialResult.{PartialResult as SomePart};
ghost use Rattle.cam_types.specs.declared.reply.Reply.{Reply as SomeReply};
ghost use Rattle.cam_types.specs.declared.script.Script.{Script as SomeScript};
ghost use Rattle.cam_types.specs.declared.script.Word.{Word as SomeWord};
ghost use Rattle.trace_model.specs.declared.entry.Entry.{Entry as SomeEntry};
ghost use Rattle.trace_model.specs.declared.entry.Sent.{Sent as SomeSent};
ghost use Rattle.trace_model.specs.Allowed.{IsAllowed};
ghost use Rattle.trace_model.specs.Entry.{names};
ghost use Rattle.trace_model.specs.Laws.{returns_buffer};
ghost use Rattle.trace_model.specs.Legal.{IsLegal};
ghost use Rattle.trace_model.specs.Open.{is_metadata_ended};
ghost use Rattle.trace_model.specs.Printable.{is_printable};
ghost use Rattle.trace_model.specs.Place.{is_at_device_by};
ghost use Rattle.trace_model.specs.Stopping.{is_stopping};

use crate::entry::Entry;

/// The empty trace is legal for every script.
pub fn nothing_is_legal_before_the_first_entry()
    ensures { (script : SomeScript) → IsLegal script [] }
{}

/// The reply is a function: after a past one call is allowed at most, with one word and one reply.
pub fn one_call_is_due()
    ensures { (script : SomeScript) (past : List SomeEntry) (i j : ℕ) (word other : SomeWord)
        (reply answer : SomeReply) → IsAllowed script past (Entry.Call i word reply) →
        IsAllowed script past (Entry.Call j other answer) → (i ≡ j) × (word ≡ other) × (reply ≡ answer) }
{}

/// There is one next item at most: two sends that are allowed after one past differ in their buffers alone.
pub fn one_send_is_due()
    ensures { (script : SomeScript) (past : List SomeEntry) (n m : SomeFrame) (r q : SomeRequest) (i j : ℕ)
        (same mark : Bool) (targets others : SomeFour SomeSent) →
        IsAllowed script past (Entry.Send n r i same targets) → IsAllowed script past (Entry.Send m q j mark others) →
        (n.0 ≡ m.0) × (r.0 ≡ q.0) × (i ≡ j) × (same ≡ mark) }
{}

/// While the service is stopping nothing is sent, nothing is exposed, and the device doesn't fail.
pub fn nothing_begins_while_stopping()
    ensures send { (script : SomeScript) (past : List SomeEntry) (n : SomeFrame) (r : SomeRequest) (i : ℕ) (same : Bool)
        (targets : SomeFour SomeSent) → is_stopping past ≡ true →
        ¬ IsAllowed script past (Entry.Send n r i same targets) }
    ensures shutter { (script : SomeScript) (past : List SomeEntry) (n : SomeFrame) (time : ℕ) →
        is_stopping past ≡ true → ¬ IsAllowed script past (Entry.Shutter n time) }
    ensures device { (script : SomeScript) (past : List SomeEntry) → is_stopping past ≡ true →
        ¬ IsAllowed script past Entry.ErrorDevice }
{}

/// A buffer that was sent is at the device by that send, and stays there until it comes back, filled or failed.
pub fn a_sent_buffer_stays_at_the_device()
    ensures sent { (past : List SomeEntry) (n : SomeFrame) (r : SomeRequest) (i : ℕ) (same : Bool)
        (targets : SomeFour SomeSent) (s b : ℕ) →
        list_any (λ t. t.stream.0 == s && t.buffer.0 == b) (four_list targets) ≡ true →
        is_at_device_by n.0 s b (Entry.Send n r i same targets ∷ past) ≡ true }
    ensures stays { (past : List SomeEntry) (e : SomeEntry) (n s b : ℕ) → is_at_device_by n s b past ≡ true →
        names b e ≡ false → is_at_device_by n s b (e ∷ past) ≡ true }
    ensures until { (script : SomeScript) (past : List SomeEntry) (e : SomeEntry) (n s b : ℕ) →
        is_at_device_by n s b past ≡ true → IsAllowed script past e → names b e ≡ true → returns_buffer b e ≡ true }
{}

/// A frame's `error request` ends its metadata, and what ended stays so.
pub fn an_error_request_ends_the_metadata()
    ensures ends { (past : List SomeEntry) (n : SomeFrame) →
        is_metadata_ended n.0 (Entry.ErrorRequest n ∷ past) ≡ true }
    ensures stays { (past : List SomeEntry) (e : SomeEntry) (n : ℕ) → is_metadata_ended n past ≡ true →
        is_metadata_ended n (e ∷ past) ≡ true }
{}

/// What is allowed has the shape of its line, whatever its numbers: a word that begins is one that waits, a part has a
/// number from 1 to 3, and a filled buffer has no fence. (That the numbers fit too is a law of the crate
/// `trace_laws`.)
pub fn what_is_allowed_has_its_shape()
    ensures begins { (script : SomeScript) (past : List SomeEntry) (word : SomeWord) →
        IsAllowed script past (Entry.Begin word) → is_printable (Entry.Begin word) ≡ true }
    ensures parts { (script : SomeScript) (past : List SomeEntry) (n : SomeFrame) (k : ℕ) (part : SomePart) →
        IsAllowed script past (Entry.Partial n k part) → (0 < k) × (k ≤ 3) }
    ensures filled { (script : SomeScript) (past : List SomeEntry) (n : SomeFrame) (s : SomeStream) (b : SomeBuffer)
        (fence : Option SomeFence) (digest : List ℕ) → IsAllowed script past (Entry.Filled n s b fence digest) →
        fence ≡ Option.None }
{}
