//! The worked runs, held against the definitions: each trace is legal and complete, and is the one that the definitions
//! give when they are run from the script and its picks alone. Digests stand as what they are of, not as bytes.
#![tactic(auto)]

ghost use Rattle.worked_runs.specs.Runs.{Plays};
ghost use Rattle.worked_runs.specs.DeviceFailure.{device_failure_script, device_failure_trace};
ghost use Rattle.worked_runs.specs.DisconnectCancelsAll.{disconnect_cancels_all_script, disconnect_cancels_all_trace};
ghost use Rattle.worked_runs.specs.FailedBufferKeepsItsFence.{failed_buffer_keeps_its_fence_script, failed_buffer_keeps_its_fence_trace};
ghost use Rattle.worked_runs.specs.FifthRequestWaitsForAReturn.{fifth_request_waits_for_a_return_script, fifth_request_waits_for_a_return_trace};
ghost use Rattle.worked_runs.specs.FlushCancelsThreeStages.{flush_cancels_three_stages_script, flush_cancels_three_stages_trace};
ghost use Rattle.worked_runs.specs.FlushWhileAFillIsOut.{flush_while_a_fill_is_out_script, flush_while_a_fill_is_out_trace};
ghost use Rattle.worked_runs.specs.JobsOfOneFrame.{JobsOfOneFrame};
ghost use Rattle.worked_runs.specs.OneFrame.{one_frame_script, one_frame_trace};
ghost use Rattle.worked_runs.specs.PipelineDepthOfSix.{pipeline_depth_of_six_script, pipeline_depth_of_six_trace};
ghost use Rattle.worked_runs.specs.PreviewWithStills.{preview_with_stills_script, preview_with_stills_trace};
ghost use Rattle.worked_runs.specs.RawAndYuvOfOneRequest.{raw_and_yuv_of_one_request_script, raw_and_yuv_of_one_request_trace};
ghost use Rattle.worked_runs.specs.ReconfigurationMarksNew.{reconfiguration_marks_new_script, reconfiguration_marks_new_trace};
ghost use Rattle.worked_runs.specs.RefusalsOfConfigurations.{refusals_of_configurations_script, refusals_of_configurations_trace};
ghost use Rattle.worked_runs.specs.RefusalsOfRequests.{refusals_of_requests_script, refusals_of_requests_trace};
ghost use Rattle.worked_runs.specs.RequestFault.{request_fault_script, request_fault_trace};
ghost use Rattle.worked_runs.specs.ResultAndBufferFaultAfterTwoPartials.{result_and_buffer_fault_after_two_partials_script, result_and_buffer_fault_after_two_partials_trace};
ghost use Rattle.worked_runs.specs.DeeperPipeline.{deeper_pipeline_script, deeper_pipeline_trace};
ghost use Rattle.worked_runs.specs.EarlyInFlush.{early_in_flush_script, early_in_flush_trace};
ghost use Rattle.worked_runs.specs.EarlyReturn.{early_return_script, early_return_trace};

/// A device of eight open frames and seven buffers of a stream.
pub fn deeper_pipeline()
    ensures { Plays deeper_pipeline_script deeper_pipeline_trace }
{}

/// A buffer comes back before it is filled.
pub fn early_return()
    ensures { Plays early_return_script early_return_trace }
{}

/// A flush after an early return.
pub fn early_in_flush()
    ensures { Plays early_in_flush_script early_in_flush_trace }
{}

/// A RAW16 stream and one request.
pub fn one_frame()
    ensures { Plays one_frame_script one_frame_trace }
{}

/// Which jobs are out in the run of one frame, and when.
pub fn jobs_of_one_frame()
    ensures { JobsOfOneFrame }
{}

/// One request with a picture of each of two streams.
pub fn raw_and_yuv_of_one_request()
    ensures { Plays raw_and_yuv_of_one_request_script raw_and_yuv_of_one_request_trace }
{}

/// Ten requests for a stream of which four buffers may be at the device.
pub fn fifth_request_waits_for_a_return()
    ensures { Plays fifth_request_waits_for_a_return_script fifth_request_waits_for_a_return_trace }
{}

/// Eight requests for two streams, of which six frames may be open.
pub fn pipeline_depth_of_six()
    ensures { Plays pipeline_depth_of_six_script pipeline_depth_of_six_trace }
{}

/// A preview that repeats, with three stills among it.
pub fn preview_with_stills()
    ensures { Plays preview_with_stills_script preview_with_stills_trace }
{}

/// Requests and calls that are refused, each by its number.
pub fn refusals_of_requests()
    ensures { Plays refusals_of_requests_script refusals_of_requests_trace }
{}

/// Configurations that are refused, each by its number.
pub fn refusals_of_configurations()
    ensures { Plays refusals_of_configurations_script refusals_of_configurations_trace }
{}

/// A capture that fails whole.
pub fn request_fault()
    ensures { Plays request_fault_script request_fault_trace }
{}

/// A capture that lacks its last metadata and one of two buffers.
pub fn result_and_buffer_fault_after_two_partials()
    ensures { Plays result_and_buffer_fault_after_two_partials_script result_and_buffer_fault_after_two_partials_trace }
{}

/// The device fails; what was queued is dropped, what was sent ends by errors.
pub fn device_failure()
    ensures { Plays device_failure_script device_failure_trace }
{}

/// A flush finds a frame in progress, one that has done nothing, and two in the queue.
pub fn flush_cancels_three_stages()
    ensures { Plays flush_cancels_three_stages_script flush_cancels_three_stages_trace }
{}

/// A flush while a stage fills a buffer.
pub fn flush_while_a_fill_is_out()
    ensures { Plays flush_while_a_fill_is_out_script flush_while_a_fill_is_out_trace }
{}

/// A flush gives a buffer back with the fence that nobody waited for.
pub fn failed_buffer_keeps_its_fence()
    ensures { Plays failed_buffer_keeps_its_fence_script failed_buffer_keeps_its_fence_trace }
{}

/// A second configuration: fresh buffers, and the first frame is marked new.
pub fn reconfiguration_marks_new()
    ensures { Plays reconfiguration_marks_new_script reconfiguration_marks_new_trace }
{}

/// A disconnect cancels a repeating request.
pub fn disconnect_cancels_all()
    ensures { Plays disconnect_cancels_all_script disconnect_cancels_all_trace }
{}
