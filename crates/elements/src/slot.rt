//! One slot of a pack: its correlation, as binary64 bits, and what the slot was.
ghost use Rattle.std.specs.Prelude.{◌≡◌};
ghost use Rattle.answers.specs.Listed.{checked};
ghost use Rattle.imapb.specs.Tables.{imapb_listed};
ghost use Rattle.elements.specs.Elements.{state_of, decoded_slot};
ghost use Rattle.elements.specs.Numbers.{number_listed, refusal_of};
ghost use Rattle.elements.specs.Slots.{slot_listed, mapped_slot, ieee_slot, present_read, slot_read};

use crate::number::{ieee_at, left, value_bits};
use answers::Refusal;
use imapb::decode::{DecodedImapb, decode_imapb};
use layout::control::ParseControl;

// A slot as it is read: the bits of its number, and its state, 0 for absent.
#[derive(Clone, Copy, Debug, PartialEq, Eq)]
pub struct Slot {
    pub bits: u64,
    pub state: u8,
}

// What a slot's answer is as a rule's: it passes, or is refused. `Determined` names it, and `check_number` beside it.
pub fn check_slot(read: Result<Slot, Refusal>) -> Result<(), Refusal>
    ensures { checked result ≡ refusal_of (slot_listed read) }
{
    read.map(|_| ())
}

// What a code was: 1 a value, 2 a special, 3 a reserved pattern, 4 out of range. A number and no enum, since states are
// lent as bytes and printed as numbers.
pub fn state_of(decoded: DecodedImapb) -> u8
    ensures { result ≡ state_of decoded }
{
    match decoded {
        DecodedImapb::Value(_) => 1,
        DecodedImapb::Special(_) => 2,
        DecodedImapb::ReservedSpecial { raw: _ } => 3,
        DecodedImapb::OutOfRange { decoded: _ } => 4,
    }
}

// The slot of a code that reads so. A function and no `From`: `Determined` names it.
pub fn slot_of(decoded: DecodedImapb) -> Slot
    ensures { result ≡ decoded_slot decoded }
{
    Slot {
        bits: value_bits(decoded),
        state: state_of(decoded),
    }
}

// What a code's answer is as a slot's.
fn mapped_slot(read: Result<DecodedImapb, Refusal>) -> Result<Slot, Refusal>
    ensures { slot_listed result ≡ mapped_slot (imapb_listed read) }
{
    Ok(slot_of(read?))
}

// And an IEEE number's: whatever it is, it is a value.
fn ieee_slot(number: Result<u64, Refusal>) -> Result<Slot, Refusal>
    ensures { slot_listed result ≡ ieee_slot (number_listed number) }
{
    let bits = number?;
    Ok(Slot { bits, state: 1 })
}

// Rule j) of one present slot.
pub fn correlation_at(bytes: &[u8], at: usize, control: ParseControl) -> Result<Slot, Refusal>
    ensures { slot_listed result ≡ present_read bytes.now at control }
{
    let clen = control.clen as usize;
    if !control.cf {
        return ieee_slot(ieee_at(bytes, at, clen));
    }
    let there = left(bytes, at);
    if there < clen {
        return Err(Refusal::TruncatedField {
            needed: clen,
            got: there,
        });
    }
    // with no byte to read, `at` may lie past the end
    if clen < 1 {
        return Err(Refusal::UnsupportedImapbLength { length: clen });
    }
    let end = at + clen;
    mapped_slot(decode_imapb(clen, &bytes[at..end]))
}

// A slot: 0.0 where it is absent. A flag, which is the slot's bit of the vector.
pub fn slot_at(
    bytes: &[u8],
    at: usize,
    control: ParseControl,
    present: bool,
) -> Result<Slot, Refusal>
    ensures { slot_listed result ≡ slot_read bytes.now at control present }
{
    if present {
        correlation_at(bytes, at, control)
    } else {
        Ok(Slot { bits: 0, state: 0 })
    }
}
