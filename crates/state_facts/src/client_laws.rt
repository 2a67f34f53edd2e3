//! Laws on the client: functions that do nothing, and whose contracts hold of every script and every past.
ghost use Rattle.std.specs.Prelude.{◌≡◌, ◌∷◌, [], List};
ghost use Rattle.cam_types.specs.declared.script.Command.{Command as SomeCommand};
ghost use Rattle.cam_types.specs.declared.script.Script.{Script as SomeScript};
ghost use Rattle.trace_model.specs.declared.entry.Entry.{Entry as SomeEntry};
ghost use Rattle.trace_model.specs.Client.{begin_due, call_due};
ghost use Rattle.trace_model.specs.Legal.{IsLegal};
ghost use Rattle.trace_model.specs.Open.{is_quiet};
ghost use Rattle.trace_model.specs.Reply.{reply};
ghost use Rattle.trace_model.specs.Send.{may_repeat};
ghost use Rattle.trace_model.specs.Stopping.{is_stopping};
ghost use Rattle.state_facts.specs.Turns.{turns};
ghost use Rattle.state_facts.specs.Homes.{homes};
ghost use Rattle.state_facts.specs.Clients.{clients, finishes, no_clients, clients_after, repeats};
ghost use Rattle.state_facts.specs.Replies.{begin_in, call_in, may_repeat_in, reply_in, stopping_in};

/// Before the first entry nothing is called; the state after each entry of a legal run is what the entry makes of the state
/// before it.
#[tactic(auto, using(crate::proofs::ClientSteps::noted_is))]
pub fn each_entry_moves_the_client()
    ensures first { (script : SomeScript) → clients script [] ≡ no_clients }
    ensures next { (script : SomeScript) (past : List SomeEntry) (e : SomeEntry) →
        IsLegal script (e ∷ past) →
        clients script (e ∷ past)
        ≡ clients_after script (repeats script past e) (finishes script past e) e (clients script past) }
{}

/// What is due of the client is read from the states, and what reply each command has.
#[tactic(auto, using(crate::proofs::ClientReadings::begin_is, crate::proofs::ClientReadings::reply_is, crate::proofs::ClientReadings::call_is, crate::proofs::ClientReadings::may_repeat_is))]
pub fn calls_are_read()
    ensures stopping { (script : SomeScript) (past : List SomeEntry) →
        is_stopping past ≡ stopping_in (clients script past) }
    ensures repeat { (script : SomeScript) (past : List SomeEntry) →
        may_repeat script past ≡ may_repeat_in script (clients script past) }
    ensures begin { (script : SomeScript) (past : List SomeEntry) →
        begin_due script past ≡ begin_in script (clients script past) }
    ensures reply { (script : SomeScript) (past : List SomeEntry) (c : SomeCommand) →
        reply script past c ≡ reply_in script (clients script past) (turns script past) (homes past) c }
    ensures call { (script : SomeScript) (past : List SomeEntry) →
        IsLegal script past → call_due script past
        ≡ call_in script (is_quiet past) (clients script past) (turns script past) (homes past) }
{}
