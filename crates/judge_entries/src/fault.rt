//! The faults that the script gives the device.
ghost use Rattle.std.specs.Prelude.{◌≡◌};
ghost use Rattle.trace_model.specs.Faults.{fails_request, fails_result, fails_buffer, fails_device, request_fault, result_fault, buffer_fault, device_fault};

use cam_types::{Fault, FrameNo, Script, StreamIx};

fn fails_request(fault: &Fault, frame: FrameNo) -> bool
    ensures { result ≡ fails_request frame.0 fault.now }
{
    matches!(fault, Fault::Request(of) if of.0 == frame.0)
}

fn fails_result(fault: &Fault, frame: FrameNo) -> bool
    ensures { result ≡ fails_result frame.0 fault.now }
{
    matches!(fault, Fault::Result(of) if of.0 == frame.0)
}

fn fails_buffer(fault: &Fault, frame: FrameNo, stream: StreamIx) -> bool
    ensures { result ≡ fails_buffer frame.0 stream.0 fault.now }
{
    match fault {
        Fault::Buffer(of, on) => of.0 == frame.0 && on.0 == stream.0,
        _ => false,
    }
}

fn fails_device(fault: &Fault, frame: FrameNo) -> bool
    ensures { result ≡ fails_device frame.0 fault.now }
{
    matches!(fault, Fault::Device(of) if of.0 == frame.0)
}

/// Whether the capture of the frame shall fail whole.
pub fn request_fault(script: &Script, frame: FrameNo) -> bool
    ensures { result ≡ request_fault script.now frame.0 }
{
    let faults = script.faults.as_slice();
    faults.iter().any(|fault| fails_request(fault, frame))
}

/// Whether the frame shall lack its last partial result.
pub fn result_fault(script: &Script, frame: FrameNo) -> bool
    ensures { result ≡ result_fault script.now frame.0 }
{
    let faults = script.faults.as_slice();
    faults.iter().any(|fault| fails_result(fault, frame))
}

/// Whether the frame's buffer for the stream shall fail.
pub fn buffer_fault(script: &Script, frame: FrameNo, stream: StreamIx) -> bool
    ensures { result ≡ buffer_fault script.now frame.0 stream.0 }
{
    let faults = script.faults.as_slice();
    faults
        .iter()
        .any(|fault| fails_buffer(fault, frame, stream))
}

/// Whether the device shall fail where the frame would have its shutter.
pub fn device_fault(script: &Script, frame: FrameNo) -> bool
    ensures { result ≡ device_fault script.now frame.0 }
{
    let faults = script.faults.as_slice();
    faults.iter().any(|fault| fails_device(fault, frame))
}
