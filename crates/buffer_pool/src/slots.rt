//! The places of a pool, one for each of its buffers.
ghost use Rattle.std.specs.Prelude.{◌≡◌, ◌<◌, ℕ, None, Some, true, IfSome, drop, is_some, length, slice_get, slice_index_or, slice_set};
ghost use Rattle.std.specs.List.{position_from};
ghost use Rattle.buffer_pool.specs.Slots.{empty_slots, homes, stand_in};

use crate::parked::Parked;
use crate::pool::POOL_LIMIT;

/// A place for each buffer of a pool, by its number: the buffer, while it is at home.
pub(crate) type Slots = [Option<Parked>; POOL_LIMIT];

/// No buffer.
pub(crate) fn make_slots() -> Slots
    ensures { result ≡ empty_slots }
{
    [
        None, None, None, None, None, None, None, None, None, None, None, None, None, None, None,
        None, None, None,
    ]
}

/// Puts a buffer into a free place.
pub(crate) fn put(slots: &mut [Option<Parked>], place: usize, parked: Parked)
    requires within { place < length slots.old }
    requires free { slice_index_or slots.old place None ≡ None }
    ensures put { slots.new ≡ slice_set slots.old place (Some parked) }
    ensures within { place < length slots.old }
{
    match slots[place].replace(parked) {
        None => {}
        Some(_) => unreachable!(),
    }
}

fn first_place(slots: &[Option<Parked>]) -> Option<usize>
    ensures value { result ≡ position_from (λ slot. is_some slot) 0 slots.now }
    ensures within { IfSome result (λ place. place < length slots.now) }
{
    slots.iter().position(|slot| slot.is_some())
}

/// Takes the first buffer.
pub(crate) fn take_first(slots: &mut [Option<Parked>]) -> Option<Parked>
    ensures value { result ≡ slice_get (homes slots.old) 0 }
    ensures left { homes slots.new ≡ drop 1 (homes slots.old) }
    ensures placed { (n end : ℕ) → stand_in n end slots.old ≡ true → stand_in n end slots.new ≡ true }
{
    let place = first_place(slots)?;
    slots[place].take()
}

/// Ends the places, which are all free. An array whose values can't be let go ends by a pattern that names each.
pub(crate) fn end_slots(slots: Slots)
    requires { (k : ℕ) → slice_index_or slots k None ≡ None }
{
    let [a, b, c, d, e, f, g, h, i, j, k, l, m, n, o, p, q, r] = slots;
    end_six(a, b, c, d, e, f);
    end_six(g, h, i, j, k, l);
    end_six(m, n, o, p, q, r);
}

fn end_six(
    a: Option<Parked>,
    b: Option<Parked>,
    c: Option<Parked>,
    d: Option<Parked>,
    e: Option<Parked>,
    f: Option<Parked>,
)
    requires { (a ≡ None) × (b ≡ None) × (c ≡ None) × (d ≡ None) × (e ≡ None) × (f ≡ None) }
{
    end(a);
    end(b);
    end(c);
    end(d);
    end(e);
    end(f);
}

fn end(slot: Option<Parked>)
    requires { slot ≡ None }
{
    match slot {
        None => {}
        Some(_) => unreachable!(),
    }
}
