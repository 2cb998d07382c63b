//! Element 3, the Bit Vector: which slots are present.
ghost use Rattle.std.specs.Prelude.{◌≡◌, min, ◌+◌, ◌-◌, ◌/◌, ◌≤◌, ◌^◌, get_or};
ghost use Rattle.std.specs.Int.Count.{ones as ones_of};
ghost use Rattle.layout.specs.Size.{max_slots};
ghost use Rattle.layout.specs.Triangle.{slots_of};
ghost use Rattle.elements.specs.Elements.{ones_before, present_in, present_before};

use layout::control::ParseControl;
use layout::header::Head;
use layout::pack::bounded_slots;
use layout::triangle::corr_slots;

// The byte so far behind a place, and 0 past the end.
fn byte_at(bytes: &[u8], at: usize, i: usize) -> u8
    ensures { result ≡ get_or bytes.now (at + i) 0 }
{
    if at < bytes.len() {
        if i < bytes.len() - at {
            return bytes[at + i];
        }
    }
    0
}

// Whether slot k is present.
pub fn is_present(bytes: &[u8], at: usize, control: ParseControl, k: usize) -> bool
    ensures { result ≡ present_in bytes.now at control k }
{
    if control.clen == 0 {
        return false;
    }
    if control.cs {
        (byte_at(bytes, at, k / 8) >> (7 - k % 8)) % 2 == 1
    } else {
        true
    }
}

// How many of a byte's first n bits are set.
fn set_bits(byte: u8, n: usize) -> usize
    requires { n ≤ 8 }
    ensures { (result ≤ 8) × (result ≡ ones_of (byte / 2 ^ (8 - n))) }
{
    // wider than a byte, since for n = 0 the shift is by 8
    u32::count_ones((byte as u32) >> (8 - n)) as usize
}

// How many of the first `slots` bits of a vector are set: its padding is cut off the last byte.
fn ones(bytes: &[u8], at: usize, slots: usize) -> usize
    requires { slots ≤ max_slots }
    ensures { result ≡ ones_before bytes.now at slots }
{
    let whole = slots / 8;
    let mut count: usize = 0;
    for i in 0..whole {
        count += set_bits(byte_at(bytes, at, i), 8);
    }
    count + set_bits(byte_at(bytes, at, whole), slots % 8)
}

// How many of the slots are present.
pub fn present_count(bytes: &[u8], head: Head) -> usize
    ensures { result
        ≡ present_before bytes.now head.body head.control (min (slots_of head.n) max_slots) }
{
    let control = head.control;
    if control.clen == 0 {
        return 0;
    }
    let slots = bounded_slots(corr_slots(head.n));
    if control.cs {
        ones(bytes, head.body, slots)
    } else {
        slots
    }
}
