//! One number of a pack, as binary64 bits. Its place goes with the pack and is no cursor: each contract is one
//! equation.
ghost use Rattle.std.specs.Prelude.{◌≡◌, ◌-◌, length};
ghost use Rattle.answers.specs.Listed.{checked};
ghost use Rattle.elements.specs.Elements.{value_bits};
ghost use Rattle.elements.specs.Numbers.{number_listed, refusal_of, ieee_number, deviation_number};

use answers::Refusal;
use imapb::decode::DecodedImapb;
use layout::control::ParseControl;
use numbers::conversions::{binary32_to_binary64, bits_of};
use numbers::words::read_be;

// What a number's answer is as a rule's: it passes, or is refused. `Determined` names it, and `check_slot` beside it.
pub fn check_number(number: Result<u64, Refusal>) -> Result<(), Refusal>
    ensures { checked result ≡ refusal_of (number_listed number) }
{
    number.map(|_| ())
}

// How many bytes there are from a place on.
pub fn left(bytes: &[u8], at: usize) -> usize
    ensures { result ≡ length bytes.now - at }
{
    if at < bytes.len() {
        bytes.len() - at
    } else {
        0
    }
}

// An IEEE number: binary32 for 4 bytes, binary64 for 8.
pub(crate) fn ieee_at(bytes: &[u8], at: usize, size: usize) -> Result<u64, Refusal>
    ensures { number_listed result ≡ ieee_number bytes.now at size }
{
    let there = left(bytes, at);
    if there < size {
        return Err(Refusal::TruncatedField {
            needed: size,
            got: there,
        });
    }
    if size == 4 {
        let end = at + 4;
        return Ok(binary32_to_binary64(read_be(&bytes[at..end]) as u32));
    }
    if size == 8 {
        let end = at + 8;
        return Ok(read_be(&bytes[at..end]));
    }
    Err(Refusal::InvalidLength {
        expected: 0,
        got: size,
    })
}

// Rule h) of one deviation.
pub fn deviation_at(bytes: &[u8], at: usize, control: ParseControl) -> Result<u64, Refusal>
    ensures { number_listed result ≡ deviation_number bytes.now at control }
{
    let slen = control.slen as usize;
    // the range of a mapped deviation is in no pack
    if control.sf {
        let there = left(bytes, at);
        if there < slen {
            return Err(Refusal::TruncatedField {
                needed: slen,
                got: there,
            });
        }
        return Err(Refusal::InvalidLength {
            expected: 0,
            got: slen,
        });
    }
    ieee_at(bytes, at, slen)
}

// The bits of a value, and 0.0 for everything else. A function and no `From`, as `slot_of`: `Determined` names it.
pub fn value_bits(decoded: DecodedImapb) -> u64
    ensures { result ≡ value_bits decoded }
{
    let DecodedImapb::Value(x) = decoded else {
        return 0;
    };
    bits_of(x)
}
