//! The client's next command begins, or is answered.
ghost use Rattle.std.specs.Prelude.{◌≡◌, ◌+◌, ◌<◌, ◌^◌, [], None, Some, IsTrue, length, true, if◌then◌else◌};
ghost use Rattle.std.specs.List.{list_all};
ghost use Rattle.state_facts.specs.Homes.{all_home};
ghost use Rattle.buffer_manager.specs.Managed.{homes_with, is_given, reopened};
ghost use Rattle.cam_types.specs.Profile.{is_profile};
ghost use Rattle.cam_types.specs.Refusals.{specs_refusal};
ghost use Rattle.client_calls.specs.Around.{IsAround};
ghost use Rattle.device_core.specs.View.{with_plan, with_rows};
ghost use Rattle.device_rows.specs.Rows.{all_stopped};
ghost use Rattle.buffer_pool.specs.Fences.{made};
ghost use Rattle.run_model.specs.declared.step.StepName.TheVariants.{Client};
ghost use Rattle.run_rows.specs.Kept.{is_no_row};
ghost use Rattle.service_state.specs.Answers.{Answers, Makes, move_with};
ghost use Rattle.service_state.specs.Configuring.{CanTakeAt, IsAccepted, due_in, is_configuration};
ghost use Rattle.client_calls.specs.Room.{IsSubmitted};
ghost use Rattle.state_facts.specs.Turns.{turns_after};
ghost use Rattle.service_parts.specs.After.{kinds_with};
ghost use Rattle.trace_model.specs.Calls.{command_at};
ghost use Rattle.service_state.specs.Serving.{IsServing};
ghost use Rattle.request_checks.specs.Plan.{plan_of};
ghost use Rattle.trace_model.specs.Configuration.{streams_of};
ghost use Rattle.trace_model.specs.Entry.{is_stop_word};

use crate::state::{ServiceState, is_quiet};
use buffer_manager::BufferManager;
use buffer_pool::Fences;
use cam_types::{Command, Profile, Reply, Script, SpecList, Word};
use client_calls::{Around, CaptureQueue};
use device_core::Device;
use request_checks::check;
use trace_model::Entry;

impl ServiceState {
    /// The client's next command begins, where it has to wait, or is answered. None exactly where none is left, or
    /// what it waits for isn't there.
    pub fn client(&mut self) -> Option<Entry>
        requires { IsServing self.old }
        ensures { Answers Client self.old result self.new }
    {
        let entry = self.client.due(&self.script, self.around())?;
        match entry {
            Entry::Begin { word } => Some(self.begin(word)),
            Entry::Call { index, word, reply } => Some(self.answer(index, word, reply)),
            _ => unreachable!(),
        }
    }

    /// The command that is due begins. A flush or a disconnect stops every frame.
    fn begin(&mut self, word: Word) -> Entry
        requires serving { IsServing self.old }
        requires due { due_in self.old ≡ Some (Entry.Begin word) }
        ensures entry { result ≡ Entry.Begin word }
        ensures made { Makes self.old self.new (move_with Client (Some (Entry.Begin word))) }
    {
        let entry = Entry::Begin { word };
        stop_by(&mut self.device, word);
        self.client.note(&self.script, false, false, &entry);
        entry
    }

    /// The command that is due is answered.
    fn answer(&mut self, index: u32, word: Word, reply: Reply) -> Entry
        requires serving { IsServing self.old }
        requires due { due_in self.old ≡ Some (Entry.Call index word reply) }
        ensures entry { result ≡ Entry.Call index word reply }
        ensures made { Makes self.old self.new (move_with Client (Some (Entry.Call index word reply))) }
    {
        if is_configuration(&reply) {
            return self.reconfigure(index, word, reply);
        }
        let entry = Entry::Call { index, word, reply };
        take_call(&mut self.captures, &self.script, index, word, &reply);
        self.client.note(&self.script, false, false, &entry);
        entry
    }

    /// The configure that is due is accepted: fresh buffers for its streams, of which none was sent yet.
    fn reconfigure(&mut self, index: u32, word: Word, reply: Reply) -> Entry
        requires serving { IsServing self.old }
        requires due { due_in self.old ≡ Some (Entry.Call index word reply) }
        requires accepted { is_configuration reply ≡ true }
        ensures entry { result ≡ Entry.Call index word reply }
        ensures made { Makes self.old self.new (move_with Client (Some (Entry.Call index word reply))) }
    {
        let entry = Entry::Call { index, word, reply };
        configure(
            &self.script,
            index,
            &mut self.buffers,
            &mut self.device,
            &mut self.fences,
        );
        take_call(&mut self.captures, &self.script, index, word, &reply);
        self.last = None;
        self.client.note(&self.script, false, false, &entry);
        entry
    }

    /// What replies ask of the other parts.
    pub(crate) fn around(&self) -> Around
        ensures around { IsAround result self.now.parts.queue self.now.parts.buffers }
        ensures quiet { result.quiet ≡ is_no_row self.now.parts.rows }
        ensures next { result.next_buffer ≡ self.now.parts.buffers.first + length self.now.parts.buffers.places }
    {
        Around {
            quiet: is_quiet(&self.device),
            waiting: self.captures.waiting(),
            is_repeating: self.captures.is_repeating(),
            requests: self.captures.requests(),
            next_buffer: self.buffers.next_buffer(),
            all_home: self.buffers.all_home(),
        }
    }
}

/// Whether the reply accepts a configuration.
fn is_configuration(reply: &Reply) -> bool
    ensures { result ≡ is_configuration reply.now }
{
    matches!(reply, Reply::Configured(_))
}

/// A flush or a disconnect that begins stops every frame.
fn stop_by(device: &mut Device, word: Word)
    ensures { device.new ≡
        with_rows (if is_stop_word word then all_stopped device.old.rows else device.old.rows) device.old }
{
    if is_stop_word(word) {
        device.begin_stop();
    }
}

/// Whether frames stop where a command with the word begins.
fn is_stop_word(word: Word) -> bool
    ensures { result ≡ is_stop_word word }
{
    matches!(word, Word::Flush | Word::Disconnect)
}

/// Does what an answered call asks of the queue.
fn take_call(captures: &mut CaptureQueue, script: &Script, index: u32, word: Word, reply: &Reply)
    requires place { CanTakeAt captures.old.turns (command_at script.now index) word reply.now }
    requires room { IsSubmitted reply.now → length captures.old.kinds < captures.old.room }
    ensures turns { captures.new.turns ≡ turns_after script.now (Entry.Call index word reply.now) captures.old.turns }
    ensures kinds { captures.new.kinds ≡ kinds_with script.now (Entry.Call index word reply.now) captures.old.kinds }
    ensures room { captures.new.room ≡ captures.old.room }
{
    match script.commands.get(index) {
        Some(command) => captures.call(command, reply),
        None => unreachable!(),
    }
}

/// Gives the buffers and the device the streams of an accepted configure.
fn configure(
    script: &Script,
    index: u32,
    buffers: &mut BufferManager,
    device: &mut Device,
    fences: &mut Fences,
)
    requires accepted { IsAccepted (command_at script.now index) }
    requires profile { IsTrue (is_profile script.now.profile) }
    requires rest { device.old.rows ≡ [] }
    requires home { all_home (homes_with [] buffers.old) ≡ true }
    requires given { IsTrue (list_all (is_given (made fences.old)) buffers.old.fences) }
    requires numbered { buffers.old.first + (length buffers.old.places + 72) < 2 ^ 32 }
    ensures buffers { buffers.new ≡ reopened (streams_of (command_at script.now index)) buffers.old }
    ensures device { device.new ≡
        with_plan (plan_of script.now.profile (streams_of (command_at script.now index))) device.old }
    ensures fences { fences.new ≡ fences.old }
{
    match script.commands.get(index) {
        Some(Command::Configure(specs)) => {
            plan(specs, script.profile, device);
            buffers.configure(specs, fences);
        }
        _ => unreachable!(),
    }
}

/// Gives the device the plan of streams that aren't refused.
#[tactic(auto, using(crate::proofs::Planning::plan_offered))]
fn plan(specs: &SpecList, profile: Profile, device: &mut Device)
    requires accepted { specs_refusal specs.now ≡ None }
    requires profile { IsTrue (is_profile profile) }
    requires rest { device.old.rows ≡ [] }
    ensures { device.new ≡ with_plan (plan_of profile specs.now) device.old }
{
    let Ok(plan) = check(specs, profile) else {
        unreachable!()
    };
    match device.configure(plan) {
        Ok(()) => {}
        Err(_) => unreachable!(),
    }
}
