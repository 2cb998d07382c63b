//! What a code of mapped form reads as.
ghost use Rattle.std.specs.Prelude.{◌≡◌, ◌-◌, ◌*◌, ◌/◌, ◌%◌, ◌^◌, ◌<◌};
ghost use Rattle.answers.specs.Table.{pick};
ghost use Rattle.answers.specs.Listed.{checked};
ghost use Rattle.answers.specs.Outcome.{unless};
ghost use Rattle.numbers.specs.Words.{word_of};
ghost use Rattle.imapb.specs.Mapping.{value_of};
ghost use Rattle.imapb.specs.Special.{overflow_reading, special_reading, unless_special, reading};
ghost use Rattle.imapb.specs.Tables.{imapb_listed, length_listed, supported, length_rule, code_rules, imapb_read};

use crate::code_length::{CodeLength, Mapping};
use crate::special::ImapbSpecial;
use answers::Refusal;

// Under the Rust's names: a value, a special, a pattern that the tables reserve with its y, or a number above the
// range.
#[derive(Clone, Copy, Debug, PartialEq)]
pub enum DecodedImapb {
    Value(f64),
    Special(ImapbSpecial),
    ReservedSpecial { raw: u64 },
    OutOfRange { decoded: f64 },
}

// y as the nearest binary64, scaled exactly, less 1.
fn value_of(mapping: Mapping, y: u64) -> f64
    ensures { result ≡ value_of mapping.length y }
{
    f64::from_bits(numbers::conversions::nearest_binary64(y)) / mapping.scale - 1.0
}

// A code whose top two bits are set: its family and its payload decide.
fn classify_imapb_special(mapping: Mapping, family: u8, payload: u64, y: u64) -> DecodedImapb
    ensures { result ≡ special_reading mapping.length family payload y }
{
    let reserved = DecodedImapb::ReservedSpecial { raw: y };
    match family {
        0b11000 => DecodedImapb::Special(ImapbSpecial::UserDefined { signal: payload }),
        0b11001 => if payload == 0 {
            DecodedImapb::Special(ImapbSpecial::PositiveInfinity)
        } else {
            reserved
        },
        0b11010 => DecodedImapb::Special(ImapbSpecial::PositiveQuietNaN { nan_id: payload }),
        0b11011 => DecodedImapb::Special(ImapbSpecial::PositiveSignalingNaN { signal: payload }),
        0b11100 => overflow_signal(mapping, payload, y),
        0b11101 => if payload == 0 {
            DecodedImapb::Special(ImapbSpecial::NegativeInfinity)
        } else {
            reserved
        },
        0b11110 => DecodedImapb::Special(ImapbSpecial::NegativeQuietNaN { nan_id: payload }),
        0b11111 => DecodedImapb::Special(ImapbSpecial::NegativeSignalingNaN { signal: payload }),
        _ => reserved,
    }
}

// Table 3: byte E0 or E1, followed only by zeros.
fn overflow_signal(mapping: Mapping, payload: u64, y: u64) -> DecodedImapb
    ensures { result ≡ overflow_reading mapping.length payload y }
{
    if payload == 0 {
        return DecodedImapb::Special(ImapbSpecial::BelowMin);
    }
    if payload == mapping.top / 128 {
        DecodedImapb::Special(ImapbSpecial::AboveMax)
    } else {
        DecodedImapb::ReservedSpecial { raw: y }
    }
}

// Such a code.
fn special_of(mapping: Mapping, y: u64) -> DecodedImapb
    requires { y / 2 ^ (8 * mapping.length - 2) ≡ 0b11 }
    ensures { result
        ≡ special_reading mapping.length (y / 2 ^ (8 * mapping.length - 5)) (y % 2 ^ (8 * mapping.length - 5)) y }
{
    let family = (y >> (8 * mapping.length - 5)) as u8;
    classify_imapb_special(mapping, family, y & (mapping.top / 16 - 1), y)
}

// A special or a reserved pattern where the top two bits of a code are set, and otherwise the number given, whatever
// range it is of.
pub fn unless_special(length: usize, y: u64, number: DecodedImapb) -> DecodedImapb
    ensures { result ≡ pick (supported length) (unless_special length y number) number }
{
    let Ok(length) = CodeLength::new(length) else {
        return number;
    };
    let mapping = length.mapping();
    if y / (mapping.top / 2) == 0b11 {
        return special_of(mapping, y);
    }
    number
}

// What the code y reads as.
fn reading_of(mapping: Mapping, y: u64) -> DecodedImapb
    requires { y < 2 ^ (8 * mapping.length) }
    ensures { result ≡ reading mapping.length y }
{
    // from here on the top two bits are set
    if mapping.top / 2 * 3 <= y {
        return special_of(mapping, y);
    }
    let value = value_of(mapping, y);
    if y <= mapping.top {
        DecodedImapb::Value(value)
    } else {
        DecodedImapb::OutOfRange { decoded: value }
    }
}

// A code has 1 to 8 bytes.
pub fn check_length(length: usize) -> Result<(), Refusal>
    ensures { checked result ≡ length_rule length }
{
    if length < 1 || 8 < length {
        return Err(Refusal::UnsupportedImapbLength { length });
    }
    Ok(())
}

// The code that the bytes are: eight are one word.
fn code_in(bytes: &[u8]) -> u64
    ensures { result ≡ word_of bytes.now }
{
    if bytes.len() == 8 {
        return numbers::words::read_be(&bytes[..8]);
    }
    numbers::words::read_be(bytes)
}

// A code has 1 to 8 bytes, and the slice that holds it just as many.
pub fn check_code(length: usize, bytes: &[u8]) -> Result<(), Refusal>
    ensures { checked result ≡ code_rules length bytes.now }
{
    check_length(length)?;
    if bytes.len() != length {
        return Err(Refusal::InvalidLength {
            expected: length,
            got: bytes.len(),
        });
    }
    Ok(())
}

// The length of a code, where it is one and the slice has just as many bytes.
fn length_in(length: usize, bytes: &[u8]) -> Result<CodeLength, Refusal>
    ensures { length_listed result ≡ unless (code_rules length bytes.now) length }
{
    check_code(length, bytes)?;
    CodeLength::new(length)
}

// What the code reads as.
pub fn decode_imapb(length: usize, bytes: &[u8]) -> Result<DecodedImapb, Refusal>
    ensures { imapb_listed result ≡ imapb_read length bytes.now }
{
    let length = length_in(length, bytes)?;
    Ok(reading_of(length.mapping(), code_in(bytes)))
}
