//! Codes of one length, many of them: nothing is refused any more, and the tables have been read.
ghost use Rattle.std.specs.Prelude.{◌≡◌, ◌+◌, ◌≤◌, length as length_of, pos};
ghost use Rattle.std.specs.Float.{binary64};
ghost use Rattle.std.specs.Float.Ieee.{of_int};
ghost use Rattle.numbers.specs.Words.{word_of};
ghost use Rattle.imapb.specs.Special.{reading};
ghost use Rattle.elements.specs.Elements.{part, value_bits, state_of};

use elements::slot::state_of;
use imapb::decode::decode_imapb;
use imapb::mapping::Mapping;
use numbers::words::read_be;
use std::num::nearest_u64_to_f64;

// The code that starts at a place: the last bytes of a word that ends with it.
pub(crate) fn code_at(bytes: &[u8], at: usize, mapping: Mapping) -> u64
    requires { (8 ≤ at) × (at + mapping.length ≤ length_of bytes.now) }
    ensures { result ≡ word_of (part bytes.now at mapping.length) }
{
    let end = at + mapping.length;
    let start = end - 8;
    read_be(&bytes[start..end]) & (mapping.top - 1 + mapping.top)
}

// The nearest binary64: that of up to six bytes is the number itself.
fn nearest(y: u64) -> f64
    ensures { result ≡ of_int binary64 (pos y) }
{
    if y < 0x20_0000_0000_0000 {
        (y as i64) as f64
    } else {
        nearest_u64_to_f64(y)
    }
}

// What a code reads as: every special lies above the largest value, and they all read 0.0.
pub(crate) fn value_of(mapping: Mapping, y: u64) -> u64
    ensures { result ≡ value_bits (reading mapping.length y) }
{
    if mapping.top < y {
        return 0;
    }
    f64::to_bits(nearest(y) / mapping.scale - 1.0)
}

// What the code that starts at a place was: up to the top code it is a value.
pub(crate) fn state_at(bytes: &[u8], at: usize, mapping: Mapping) -> u8
    requires { (8 ≤ at) × (at + mapping.length ≤ length_of bytes.now) }
    ensures { result
        ≡ state_of (reading mapping.length (word_of (part bytes.now at mapping.length))) }
{
    if code_at(bytes, at, mapping) <= mapping.top {
        return 1;
    }
    let end = at + mapping.length;
    let read = decode_imapb(mapping.length, &bytes[at..end]);
    // never: a code of a length that has codes is there
    let Ok(decoded) = read else {
        return 0;
    };
    state_of(decoded)
}
