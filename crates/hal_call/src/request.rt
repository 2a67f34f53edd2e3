//! Requests: a frame that is sent is a request that is accepted at once.
ghost use Rattle.std.specs.Prelude.{◌≡◌, ◌++◌, ◌∷◌, [], IfOk, OnOk, IsTrue, map, option_to_list, false};
ghost use Rattle.std.specs.Option.{option_map};
ghost use Rattle.std.specs.List.{list_all};
ghost use Rattle.cam_types.specs.Four.{four_list};
ghost use Rattle.hal_model.specs.declared.event.HalEvent.TheVariants.{RequestBegin, RequestOk};
ghost use Rattle.hal_call.specs.Fences.{is_small_fence};
ghost use Rattle.hal_model.specs.Hal.{client_fence, target};

use crate::event::append;
use cam_types::{FenceNo, Four, FrameNo, Listing, NoMemory};
use hal_model::{EventList, HalEvent, HalTarget};
use std::alloc::Global;
use trace_model::Sent;

/// The number of a fence of the client.
fn client_fence(fence: Option<FenceNo>) -> Option<u32>
    requires { IsTrue (is_small_fence fence) }
    ensures { result ≡ option_map client_fence fence }
{
    match fence {
        Some(fence) => Some(2 * fence.0),
        None => None,
    }
}

/// A buffer that a frame is sent with, as a target.
fn target(sent: Sent) -> HalTarget
    requires { IsTrue (is_small_fence sent.fence) }
    ensures { result ≡ target sent }
{
    HalTarget {
        stream: u32::from(sent.stream.0),
        buffer: sent.buffer.0,
        fence: client_fence(sent.fence),
    }
}

/// Appends a target, where there is one.
fn add_target(list: &mut Listing<HalTarget>, sent: Option<Sent>) -> Result<(), NoMemory>
    requires { IsTrue (list_all (λ t. is_small_fence t.fence) (option_to_list sent)) }
    ensures { OnOk result (list.new ≡ list.old ++ map target (option_to_list sent)) }
{
    match sent {
        Some(sent) => append(list, target(sent)),
        None => Ok(()),
    }
}

/// The targets of a frame.
fn targets_of(alloc: Global, targets: &Four<Sent>) -> Result<Listing<HalTarget>, NoMemory>
    requires { IsTrue (list_all (λ t. is_small_fence t.fence) (four_list targets.now)) }
    ensures { IfOk result (λ list. list ≡ map target (four_list targets.now)) }
{
    let mut list = Listing::new(alloc);
    add_target(&mut list, targets.a)?;
    add_target(&mut list, targets.b)?;
    add_target(&mut list, targets.c)?;
    add_target(&mut list, targets.d)?;
    Ok(list)
}

/// Appends a request and its acceptance.
pub fn add_request(
    alloc: Global,
    log: &mut EventList,
    frame: FrameNo,
    same: bool,
    targets: &Four<Sent>,
) -> Result<(), NoMemory>
    requires { IsTrue (list_all (λ t. is_small_fence t.fence) (four_list targets.now)) }
    ensures { OnOk result (log.new ≡
        log.old ++ RequestBegin frame.0 same (map target (four_list targets.now)) false false
        ∷ RequestOk frame.0 ∷ []) }
{
    let targets = targets_of(alloc, targets)?;
    append(
        log,
        HalEvent::RequestBegin {
            frame: frame.0,
            same,
            targets,
            no_handle: false,
            bad_settings: false,
        },
    )?;
    append(log, HalEvent::RequestOk { frame: frame.0 })
}
