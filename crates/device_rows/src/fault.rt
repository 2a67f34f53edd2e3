//! The faults that a device shall have at a frame.
ghost use Rattle.std.specs.Prelude.{◌≡◌};
ghost use Rattle.device_rows.specs.Faults.{fault_at, fault_of_buffer, fault_of_device, fault_of_request, fault_of_result, faults_of};
ghost use Rattle.trace_model.specs.Faults.{fails_buffer, fails_device, fails_request, fails_result};

use cam_types::{Fault, Four, FrameNo, RowFaults, RowView, StreamIx, TargetView};

fn fails_request(frame: FrameNo, fault: Fault) -> bool
    ensures { result ≡ fails_request frame.0 fault }
{
    matches!(fault, Fault::Request(other) if other.0 == frame.0)
}

fn fails_result(frame: FrameNo, fault: Fault) -> bool
    ensures { result ≡ fails_result frame.0 fault }
{
    matches!(fault, Fault::Result(other) if other.0 == frame.0)
}

fn fails_buffer(frame: FrameNo, stream: StreamIx, fault: Fault) -> bool
    ensures { result ≡ fails_buffer frame.0 stream.0 fault }
{
    matches!(fault, Fault::Buffer(other, target) if other.0 == frame.0 && target.0 == stream.0)
}

fn fails_device(frame: FrameNo, fault: Fault) -> bool
    ensures { result ≡ fails_device frame.0 fault }
{
    matches!(fault, Fault::Device(other) if other.0 == frame.0)
}

/// Whether the capture of the frame shall fail whole.
pub fn has_request_fault(faults: &[Fault], frame: FrameNo) -> bool
    ensures { result ≡ fault_of_request faults.now frame.0 }
{
    faults.iter().any(|fault| fails_request(frame, *fault))
}

/// Whether the frame shall lack its last metadata.
pub fn has_result_fault(faults: &[Fault], frame: FrameNo) -> bool
    ensures { result ≡ fault_of_result faults.now frame.0 }
{
    faults.iter().any(|fault| fails_result(frame, *fault))
}

/// Whether the frame's buffer for the stream can't be filled.
pub fn has_buffer_fault(faults: &[Fault], frame: FrameNo, stream: StreamIx) -> bool
    ensures { result ≡ fault_of_buffer faults.now frame.0 stream.0 }
{
    faults
        .iter()
        .any(|fault| fails_buffer(frame, stream, *fault))
}

/// Whether the device shall fail where the frame would be exposed.
pub fn has_device_fault(faults: &[Fault], frame: FrameNo) -> bool
    ensures { result ≡ fault_of_device faults.now frame.0 }
{
    faults.iter().any(|fault| fails_device(frame, *fault))
}

fn fault_at(faults: &[Fault], frame: FrameNo, target: Option<TargetView>) -> Option<bool>
    ensures { result ≡ fault_at faults.now frame.0 target }
{
    match target {
        Some(target) => Some(has_buffer_fault(faults, frame, target.stream)),
        None => None,
    }
}

/// The faults of a row, by its targets.
pub fn faults_of(faults: &[Fault], row: RowView) -> RowFaults
    ensures { result ≡ faults_of faults.now row }
{
    RowFaults {
        request: has_request_fault(faults, row.frame),
        result: has_result_fault(faults, row.frame),
        buffers: Four {
            a: fault_at(faults, row.frame, row.targets.a),
            b: fault_at(faults, row.frame, row.targets.b),
            c: fault_at(faults, row.frame, row.targets.c),
            d: fault_at(faults, row.frame, row.targets.d),
        },
        device: has_device_fault(faults, row.frame),
    }
}
