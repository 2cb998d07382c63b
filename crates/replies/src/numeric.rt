//! The replies on numbers, and the number that bits are.
ghost use Rattle.std.specs.Prelude.{◌≡◌};
ghost use Rattle.std.specs.Float.{binary64};
ghost use Rattle.std.specs.Float.Ieee.{of_bits};
ghost use Rattle.replies.specs.Replies.{widen_reply, narrow_reply};
ghost use Rattle.replies.specs.Replies.{front_reply, oid_or, oid_reply, strict_oid_reply, ber_reply};

use crate::forms::{BITS, BITS32, LENGTH, NOTHING, OID};
use crate::refusal::refused;
use crate::reply::{Reply, one, words};
use answers::Refusal;
use numbers::ber::BerLength;
use numbers::ber_oid::BerOid;
use numbers::conversions::{binary32_to_binary64, binary64_to_binary32};

// The number that bits are. Those of a NaN, which are above the infinity's, are the language's one NaN.
pub fn float_of(bits: u64) -> f64
    ensures { result ≡ of_bits binary64 bits }
{
    if 0x7ff0_0000_0000_0000 < bits % 0x8000_0000_0000_0000 {
        0.0 / 0.0
    } else {
        f64::from_bits(bits)
    }
}

// The bits of a binary32 are the low half.
pub fn widen(bits: u64) -> Reply
    ensures { result ≡ widen_reply bits }
{
    let wide = binary32_to_binary64((bits % 0x1_0000_0000) as u32);
    one(BITS, wide)
}

pub fn narrow(bits: u64) -> Reply
    ensures { result ≡ narrow_reply bits }
{
    one(BITS32, binary64_to_binary32(bits) as u64)
}

// What was read at the front of so many bytes.
fn front(form: usize, value: u64, taken: usize, count: usize) -> Reply
    ensures { result ≡ front_reply form value taken count }
{
    Reply {
        form,
        a: value,
        b: count.saturating_sub(taken) as u64,
        c: 0,
        d: 0,
    }
}

// The number, or the reply to one that is unreadable.
fn oid_or(unreadable: Reply, read: Option<BerOid>, count: usize) -> Reply
    ensures { result ≡ oid_or unreadable read count }
{
    match read {
        Some(oid) => front(OID, oid.value as u64, oid.taken, count),
        None => unreadable,
    }
}

pub fn of_oid(read: Option<BerOid>, count: usize) -> Reply
    ensures { result ≡ oid_reply read count }
{
    let unreadable = refused(Refusal::TruncatedField { needed: 0, got: 0 });
    oid_or(unreadable, read, count)
}

// Of the strict reading, which has no refusal of its own.
pub fn of_strict_oid(read: Option<BerOid>, count: usize) -> Reply
    ensures { result ≡ strict_oid_reply read count }
{
    oid_or(words(NOTHING), read, count)
}

pub fn of_ber(read: Option<BerLength>, count: usize) -> Reply
    ensures { result ≡ ber_reply read count }
{
    match read {
        Some(length) => front(LENGTH, length.value, length.taken, count),
        None => words(NOTHING),
    }
}
