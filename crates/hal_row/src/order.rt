//! Who was begun last of the requests that brought something back: for each order one number, which is above the rank
//! of that request.
ghost use Rattle.std.specs.Prelude.{◌≡◌, ◌==◌, ◌||◌, ◌&&◌, ℕ, option_copied, OnOk, if◌then◌else◌};
ghost use Rattle.hal_rows.specs.declared.order.Order.{Order as AnOrder};
ghost use Rattle.hal_rows.specs.Device.{above};
ghost use Rattle.hal_rows.specs.State.{brings, if_accepted};
ghost use Rattle.hal_row.specs.Settled.{IsTopped, settled_of};
ghost use Rattle.hal_row.specs.Raised.{IsRaised, is_same_order, number_of, target_brings, targets_bring, top_in};

use cam_types::NoMemory;
use hal_model::HalEvent;
use hal_rows::{Order, Row, TargetRow};
use std::alloc::Global;
use std::collections::HashMap;

/// One above the number, or what is above it.
pub fn above(number: u32, top: u64) -> u64
    ensures { result ≡ above number top }
{
    let number = u64::from(number);
    if number < top { top } else { number + 1 }
}

/// The numbers of all orders: those of streams by the stream. What has no entry has the number 0.
#[derive(Drop)]
pub struct Tops {
    pub sound: u64,
    pub filled: HashMap<u32, u64>,
    pub orderly: HashMap<u32, u64>,
    pub other: HashMap<u32, u64>,
}

fn number_of(numbers: &HashMap<u32, u64>, stream: u32) -> u64
    ensures { result ≡ number_of numbers.now.entries stream }
{
    match numbers.get(&stream) {
        Some(number) => *number,
        None => 0,
    }
}

impl Tops {
    /// Nothing was brought back.
    pub fn new(alloc: Global) -> Tops
        ensures { (order : AnOrder) → top_in result order ≡ 0 }
    {
        Tops {
            sound: 0,
            filled: HashMap::new(alloc),
            orderly: HashMap::new(alloc),
            other: HashMap::new(alloc),
        }
    }

    /// The number of an order.
    pub fn get(&self, order: Order) -> u64
        ensures { result ≡ top_in self.now order }
    {
        match order {
            Order::Sound => self.sound,
            Order::Filled(stream) => number_of(&self.filled, stream),
            Order::Orderly(stream) => number_of(&self.orderly, stream),
            Order::Other(stream) => number_of(&self.other, stream),
        }
    }
}

/// Raises the number of a stream above a rank.
fn raise_number(numbers: &mut HashMap<u32, u64>, stream: u32, rank: u32) -> Result<(), NoMemory>
    ensures { OnOk result ((s : ℕ) → number_of numbers.new.entries s
        ≡ (if stream == s then above rank (number_of numbers.old.entries s) else number_of numbers.old.entries s)) }
{
    let number = above(rank, number_of(numbers, stream));
    numbers.insert(stream, number)?;
    Ok(())
}

/// Raises the number of an order above a rank.
fn raise(tops: &mut Tops, order: Order, rank: u32) -> Result<(), NoMemory>
    ensures { OnOk result (IsRaised rank (is_same_order order) tops.old tops.new) }
{
    match order {
        Order::Sound => {
            tops.sound = above(rank, tops.sound);
            Ok(())
        }
        Order::Filled(stream) => raise_number(&mut tops.filled, stream, rank),
        Order::Orderly(stream) => raise_number(&mut tops.orderly, stream, rank),
        Order::Other(stream) => raise_number(&mut tops.other, stream, rank),
    }
}

/// Raises the number of an order above a rank, where the target brought back what it asks for.
fn raise_if(tops: &mut Tops, wanted: bool, order: Order, rank: u32) -> Result<(), NoMemory>
    ensures { OnOk result (IsRaised rank (λ o. wanted && is_same_order order o) tops.old tops.new) }
{
    if wanted {
        return raise(tops, order, rank);
    }
    Ok(())
}

/// Raises the numbers of what a target brought back.
fn raise_target(tops: &mut Tops, target: &TargetRow, rank: u32) -> Result<(), NoMemory>
    ensures { OnOk result (IsRaised rank (target_brings target.now) tops.old tops.new) }
{
    let stream = target.target.stream;
    raise_if(tops, target.filled, Order::Filled(stream), rank)?;
    raise_if(tops, target.orderly, Order::Orderly(stream), rank)?;
    raise_if(tops, target.other, Order::Other(stream), rank)?;
    Ok(())
}

/// Raises the numbers of what targets brought back.
fn raise_targets(tops: &mut Tops, targets: &[TargetRow], rank: u32) -> Result<(), NoMemory>
    ensures { OnOk result (IsRaised rank (targets_bring targets.now) tops.old tops.new) }
{
    for target in targets {
        raise_target(tops, target, rank)?;
    }
    Ok(())
}

/// Raises the numbers of what a row's request brought back.
pub(crate) fn raise_row(tops: &mut Tops, row: &Row) -> Result<(), NoMemory>
    ensures { OnOk result (IsRaised row.now.rank (λ o. brings o row.now) tops.old tops.new) }
{
    raise_if(tops, row.sound, Order::Sound, row.rank)?;
    raise_targets(tops, row.targets.as_slice(), row.rank)?;
    Ok(())
}

/// Raises the numbers of what a row's request brought back, where there is one.
pub fn raise_found(tops: &mut Tops, row: Option<&Row>) -> Result<(), NoMemory>
    ensures { OnOk result (IsTopped (option_copied row.entry) tops.old tops.new) }
{
    match row {
        Some(row) => raise_row(tops, row),
        None => Ok(()),
    }
}

fn if_accepted(row: Option<&Row>) -> Option<&Row>
    ensures { option_copied result ≡ if_accepted (option_copied row.entry) }
{
    match row {
        Some(row) => { if row.accepted { Some(row) } else { None } }
        None => None,
    }
}

/// The row, where the event accepted its request, or gave back something of it as of an accepted one.
fn settled_of<'r>(event: &HalEvent, row: Option<&'r Row>) -> Option<&'r Row>
    ensures { option_copied result ≡ settled_of event.now (option_copied row.entry) }
{
    match event {
        HalEvent::RequestOk { .. } => row,
        HalEvent::Results { .. } => if_accepted(row),
        _ => None,
    }
}

/// Raises the numbers of what the request brought back that an event names. The row is the request's, if it is live, with
/// the event noted in it.
pub fn raise_settled(tops: &mut Tops, event: &HalEvent, row: Option<&Row>) -> Result<(), NoMemory>
    ensures { OnOk result (IsTopped (settled_of event.now (option_copied row.entry)) tops.old tops.new) }
{
    raise_found(tops, settled_of(event, row))
}
