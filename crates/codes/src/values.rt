//! Mapped codes of one length, as far as they are values; no code exceeds the bits that were met of them all.
ghost use Rattle.std.specs.Prelude.{◌≡◌, ◌+◌, ◌*◌, ◌/◌, ◌<◌, ◌≤◌, length};
ghost use Rattle.std.proofs.lemmas.List.Edits.{sets};
ghost use Rattle.answers.specs.Lent.{over, tab};
ghost use Rattle.elements.specs.Elements.{ones_before, present_before, slot_in};
ghost use Rattle.codes.specs.Fill.{mapped_in, mark_in, marked_in, one_byte, Codes, Within, present_as1};

use crate::coded::Coded;
use crate::mapped::{code_at, value_of};
use imapb::mapping::Mapping;

// Mapped codes, all present.
fn fill_all(
    bytes: &[u8],
    codes: usize,
    mapping: Mapping,
    slots: usize,
    correlations: &mut [u64],
    states: &mut [u8],
) -> u64
    requires { Codes bytes.now codes mapping slots × (slots ≤ length correlations.old)
        × (slots ≤ length states.old) }
    ensures { (correlations.new
        ≡ over (tab slots (mapped_in bytes.now codes mapping.length)) correlations.old)
        × (states.new ≡ over (tab slots (λ _. 1)) states.old)
        × Within bytes.now codes mapping.length slots result }
{
    let mut met: u64 = 0;
    let mut at = codes;
    for k in 0..slots {
        let y = code_at(bytes, at, mapping);
        met = met | y;
        correlations[k] = value_of(mapping, y);
        states[k] = 1;
        at += mapping.length;
    }
    met
}

// Where the next code starts, and the bits that were met.
#[derive(Clone, Copy, Debug, PartialEq, Eq)]
struct Reached {
    next: usize,
    met: u64,
}

// Up to eight slots, those of byte i of the Bit Vector.
fn fill_group(
    bytes: &[u8],
    vector: usize,
    i: usize,
    at: usize,
    met: u64,
    mapping: Mapping,
    count: usize,
    correlations: &mut [u64],
    states: &mut [u8],
) -> Reached
    requires { Codes bytes.now at mapping (ones_before (one_byte bytes.now vector i) 0 count) × (count ≤ 8)
        × (vector + i < length bytes.now) × (8 * i + count ≤ length correlations.old)
        × (8 * i + count ≤ length states.old) }
    ensures { (result.next ≡ at + ones_before (one_byte bytes.now vector i) 0 count * mapping.length)
        × (correlations.new
        ≡ sets correlations.old (8 * i)
        (tab count (marked_in (one_byte bytes.now vector i) 0 bytes.now at mapping.length)))
        × (states.new
        ≡ sets states.old (8 * i) (tab count (mark_in (one_byte bytes.now vector i) 0)))
        × (met ≤ result.met) × Within bytes.now at mapping.length
        (ones_before (one_byte bytes.now vector i) 0 count) result.met }
{
    let byte = bytes[vector + i];
    let from = 8 * i;
    let mut seen = met;
    let mut next = at;
    for j in 0..count {
        let k = from + j;
        correlations[k] = 0;
        states[k] = 0;
        if (byte >> (7 - j)) % 2 == 1 {
            let y = code_at(bytes, next, mapping);
            seen = seen | y;
            correlations[k] = value_of(mapping, y);
            states[k] = 1;
            next += mapping.length;
        }
    }
    Reached { next, met: seen }
}

// Mapped codes of the slots that the Bit Vector marks present, eight slots to its byte.
fn fill_marked(
    bytes: &[u8],
    vector: usize,
    codes: usize,
    mapping: Mapping,
    slots: usize,
    correlations: &mut [u64],
    states: &mut [u8],
) -> u64
    requires { Codes bytes.now codes mapping (ones_before bytes.now vector slots)
        × (vector + (slots + 7) / 8 ≤ length bytes.now)
        × (slots ≤ length correlations.old) × (slots ≤ length states.old) }
    ensures { (correlations.new
        ≡ over (tab slots (marked_in bytes.now vector bytes.now codes mapping.length))
        correlations.old)
        × (states.new ≡ over (tab slots (mark_in bytes.now vector)) states.old)
        × Within bytes.now codes mapping.length (ones_before bytes.now vector slots) result }
{
    let whole = slots / 8;
    let mut met: u64 = 0;
    let mut next = codes;
    for i in 0..whole {
        let reached = fill_group(
            bytes,
            vector,
            i,
            next,
            met,
            mapping,
            8,
            correlations,
            states,
        );
        met = reached.met;
        next = reached.next;
    }
    let rest = slots % 8;
    if 0 < rest {
        let reached = fill_group(
            bytes,
            vector,
            whole,
            next,
            met,
            mapping,
            rest,
            correlations,
            states,
        );
        return reached.met;
    }
    met
}

impl Coded<'_> {
    // The correlations of all slots, 0.0 where a code is no value, and 1 for each that is present.
    pub(crate) fn fill_values(&self, correlations: &mut [u64], states: &mut [u8]) -> u64
        requires { (self.now.slots ≤ length correlations.old) × (self.now.slots ≤ length states.old) }
        ensures { (correlations.new
            ≡ over (tab self.now.slots
            (λ k. (slot_in self.now.bytes.now self.now.vector self.now.codes self.now.control k).bits))
            correlations.old)
            × (states.new
            ≡ over (tab self.now.slots (present_as1 self.now.bytes.now self.now.vector self.now.control)) states.old)
            × Within self.now.bytes.now self.now.codes self.now.mapping.length
            (present_before self.now.bytes.now self.now.vector self.now.control self.now.slots) result }
    {
        if self.control.cs {
            fill_marked(
                self.bytes,
                self.vector,
                self.codes,
                self.mapping,
                self.slots,
                correlations,
                states,
            )
        } else {
            fill_all(
                self.bytes,
                self.codes,
                self.mapping,
                self.slots,
                correlations,
                states,
            )
        }
    }
}
