//! Whether an event breaks a rule.
ghost use Rattle.std.specs.Prelude.{◌≡◌};
ghost use Rattle.hal_rows.specs.Judged.{breaks_at};
ghost use Rattle.hal_table.specs.State.{state_of};

use hal_checks::back::{self, BufferFault, BufferFlaw};
use hal_checks::framework::{self, TargetFault};
use hal_checks::{left, returns, said};
use hal_model::{HalEvent, Rule};
use hal_table::HalTable;

/// Whether the event breaks the rule. `parts` is the device's partial result count.
pub fn breaks(parts: u32, rule: Rule, event: &HalEvent, table: &HalTable) -> bool
    ensures { result ≡ breaks_at parts rule event.now (state_of table.now) }
{
    match rule {
        Rule::InitOrder => framework::init_order(event, table),
        Rule::InitTwice => framework::init_twice(event, table),
        Rule::NoConfiguration => framework::no_configuration(event, table),
        Rule::NoOutput => framework::no_output(event, table),
        Rule::NoSettings => framework::no_settings(event, table),
        Rule::TwoInputs => framework::two_inputs(event, table),
        Rule::ConfigureInFlight => framework::configure_in_flight(event, table),
        Rule::OverlappingCalls => framework::overlapping_calls(event, table),
        Rule::CallAfterClose => framework::call_after_close(event, table),
        Rule::FrameNumber => framework::frame_number(event, table),
        Rule::HeldBuffer => framework::has_wrong_target(TargetFault::Held, event, table),
        Rule::RepeatedStream => framework::has_wrong_target(TargetFault::Repeated, event, table),
        Rule::TooManyBuffers => framework::has_wrong_target(TargetFault::TooMany, event, table),
        Rule::UnknownStream => framework::has_wrong_target(TargetFault::Unknown, event, table),
        Rule::AcceptedBeforeInit => returns::accepted_before_init(event, table),
        Rule::AcceptedInitTwice => returns::accepted_init_twice(event, table),
        Rule::AcceptedDead => returns::accepted_dead(event, table),
        Rule::AcceptedNoOutput => returns::accepted_no_output(event, table),
        Rule::AcceptedTwoInputs => returns::accepted_two_inputs(event, table),
        Rule::AcceptedNoSettings => returns::accepted_no_settings(event, table),
        Rule::AcceptedUnknownStream => returns::accepted_unknown_stream(event, table),
        Rule::NoMaxBuffers => returns::no_max_buffers(event, table),
        Rule::RefusedRequest => returns::refused_request(event, table),
        Rule::RefusedAfterCallback => returns::refused_after_callback(event, table),
        Rule::UnknownFrame => said::unknown_frame(event, table),
        Rule::CallbackAfterClose => said::callback_after_close(event, table),
        Rule::CallbackAfterFailure => said::callback_after_failure(event, table),
        Rule::FailedWithFrames => left::failed_with_frames(event, table),
        Rule::ShutterTwice => said::shutter_twice(event, table),
        Rule::ShutterAfterRequestError => said::shutter_after_request_error(event, table),
        Rule::EmptyResult => said::empty_result(event, table),
        Rule::PartialNumber => said::partial_number(parts, event, table),
        Rule::PartialTwice => said::partial_twice(event, table),
        Rule::MetadataAfterRequestError => said::metadata_after_request_error(event, table),
        Rule::MetadataOrder => said::metadata_order(parts, event, table),
        Rule::NotAtDevice => back::not_at_device(event, table),
        Rule::BufferStatus => back::has_flaw(BufferFlaw::Unclear, event, table),
        Rule::BufferOrder => back::has_wrong_buffer(BufferFault::Overtaken, event, table),
        Rule::FailedBufferOrder => back::has_wrong_buffer(BufferFault::Disorderly, event, table),
        Rule::GoodAfterError => back::has_wrong_buffer(BufferFault::Filled, event, table),
        Rule::AcquireFence => back::has_flaw(BufferFlaw::Acquire, event, table),
        Rule::ReleaseFence => back::has_wrong_buffer(BufferFault::Fenced, event, table),
        Rule::ErrorTwice => said::error_twice(event, table),
        Rule::ErrorBesideRequestError => said::error_beside_request_error(event, table),
        Rule::RequestErrorLate => said::request_error_late(event, table),
        Rule::ErrorForGoodBuffer => said::error_for_good_buffer(event, table),
        Rule::ErrorUnknownStream => said::error_unknown_stream(event, table),
        Rule::FlushLeft => left::flush_left(event, table),
        Rule::CloseLeft => left::close_left(event, table),
        Rule::FailedWithoutNotice => left::failed_without_notice(event, table),
        Rule::NoShutter => left::no_shutter(event, table),
    }
}
