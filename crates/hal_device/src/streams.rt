//! The device is initialized, and takes the streams of a configuration.
ghost use Rattle.std.specs.Prelude.{◌≡◌, [], None, IsTrue, IfErr, IfOk, OnErr, OnOk, if◌then◌else◌, length};
ghost use Rattle.std.specs.Result.{result_err};
ghost use Rattle.device_core.specs.Stored.{specs_of};
ghost use Rattle.hal_device.specs.Kept.{are_offered, are_packed, spares_by, with_plan_and};
ghost use Rattle.hal_device_model.specs.Calls.{IsRefusal, configure_error, configured, initialize_error, is_over, sequence_error};
ghost use Rattle.hal_device_model.specs.Log.{Initialize, after_call};
ghost use Rattle.request_checks.specs.Plan.{plan_of};

use crate::device::HalDevice;
use crate::shelves::Shelves;
use cam_types::SpecList;
use hal_device_model::CallError;
use request_checks::{Plan, check};
use std::alloc::Global;

impl HalDevice {
    /// `initialize`: ENODEV where the device failed or is closed, ENOSYS where it was initialized before.
    pub fn initialize(&mut self) -> Result<(), CallError>
        ensures answer { result_err result ≡ initialize_error self.old }
        ensures state { self.new ≡ after_call Initialize self.old }
    {
        if self.is_over() {
            return Err(CallError::NoDevice);
        }
        if self.initialized {
            return Err(CallError::WrongSequence);
        }
        self.initialized = true;
        Ok(())
    }

    /// `configure_streams`: gives each stream with its `max_buffers`. ENODEV where the device failed or is closed,
    /// ENOSYS where it isn't initialized or a request is at the device, EINVAL where the streams are refused.
    pub fn configure(&mut self, alloc: Global, specs: &SpecList) -> Result<Plan, CallError>
        ensures plan { IfOk result (λ plan. plan ≡ plan_of self.old.profile specs.now) }
        ensures ok { OnOk result (configure_error specs.now self.old ≡ None) }
        ensures error { IfErr result (λ error. IsRefusal (configure_error specs.now self.old) error) }
        ensures state { OnOk result (self.new ≡ configured specs.now self.old) }
        ensures unchanged { OnErr result (self.new ≡ self.old) }
    {
        if let Some(error) = self.sequence_error() {
            return Err(error);
        }
        match check(specs, self.profile) {
            Ok(plan) => self.take_plan(alloc, plan),
            Err(_) => Err(CallError::InvalidArgument),
        }
    }

    /// Takes the streams of a plan, with blocks for their buffers.
    fn take_plan(&mut self, alloc: Global, plan: Plan) -> Result<Plan, CallError>
        requires idle { self.old.device.rows ≡ [] }
        requires offered { IsTrue (are_offered plan) }
        requires packed { IsTrue (are_packed plan) }
        ensures plan { IfOk result (λ taken. taken ≡ plan) }
        ensures state { OnOk result (self.new ≡ with_plan_and (spares_by plan) plan self.old) }
        ensures error { IfErr result (λ error. error ≡ CallError.NoMemory) }
        ensures unchanged { OnErr result (self.new ≡ self.old) }
    {
        match Shelves::new(alloc, plan) {
            Ok(shelves) => {
                self.put_plan(plan, shelves);
                Ok(plan)
            }
            Err(_) => Err(CallError::NoMemory),
        }
    }

    /// Puts the streams of a plan, and the blocks for their buffers, in the place of those before.
    fn put_plan(&mut self, plan: Plan, shelves: Shelves)
        requires idle { self.old.device.rows ≡ [] }
        requires offered { IsTrue (are_offered plan) }
        requires packed { IsTrue (are_packed plan) }
        requires spares { shelves ≡ spares_by plan }
        ensures { self.new ≡ with_plan_and (spares_by plan) plan self.old }
    {
        self.quiet.configure(plan);
        self.shelves = shelves;
        self.plan = plan;
        self.last = None;
    }

    /// Why no configuration can be taken now.
    fn sequence_error(&self) -> Option<CallError>
        ensures { result ≡ sequence_error self.now }
    {
        if self.is_over() {
            return Some(CallError::NoDevice);
        }
        if !self.initialized || (self.flushing || self.quiet.len() != 0) {
            return Some(CallError::WrongSequence);
        }
        None
    }

    /// Whether the device failed, or its close has begun.
    pub(crate) fn is_over(&self) -> bool
        ensures { result ≡ is_over self.now }
    {
        self.failed || self.closing
    }

    /// How many streams are configured.
    pub(crate) fn stream_count(&self) -> u32
        ensures { result ≡ length (specs_of self.now.device.plan) }
    {
        let streams = self.plan.streams;
        one(streams.a.is_some())
            + one(streams.b.is_some())
            + one(streams.c.is_some())
            + one(streams.d.is_some())
    }
}

fn one(is_there: bool) -> u32
    ensures { result ≡ (if is_there then 1 else 0) }
{
    if is_there { 1 } else { 0 }
}
