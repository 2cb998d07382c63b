//! One correlation's code, put to its place: by itself, or by a word of eight bytes, of which the code of every length
//! is the front.
ghost use Rattle.std.specs.Prelude.{◌≡◌, ◌+◌, ◌≤◌, T, length};
ghost use Rattle.std.proofs.lemmas.List.Edits.{sets};
ghost use Rattle.std.specs.Float.{binary64};
ghost use Rattle.std.specs.Float.Ieee.{of_bits};
ghost use Rattle.imapb.specs.Mapping.{code_of, in_range};
ghost use Rattle.plan.specs.Rules.{Supported};
ghost use Rattle.slots.specs.Slots.{coded};

use imapb::encode::imapb_code;
use numbers::words::write_be;

// The code of a correlation, from a place on: in a slice and on no page, since each store is proved to fit. What is
// asked of the number and of `clen` is asked of one number at a time, and no type carries it.
pub(crate) fn put_slot(value: u64, clen: usize, at: usize, out: &mut [u8])
    requires { Supported clen × T (in_range (of_bits binary64 value)) × (at + clen ≤ length out.old) }
    ensures { out.new ≡ sets out.old at (coded clen value) }
{
    let Some(y) = imapb_code(clen, value) else {
        return;
    };
    let end = at + clen;
    write_be(y, &mut out[at..end]);
}

// The code of eight bytes. In 2^-53 the sum with 1 is a whole number, so that nothing is cut off.
fn word_of(value: u64) -> u64
    requires { T (in_range (of_bits binary64 value)) }
    ensures { result ≡ code_of 8 (of_bits binary64 value) }
{
    let sum = f64::from_bits(value) + 1.0;
    // from the middle on, since a cast takes whole numbers up to 2^53 either way
    let from_middle = (sum * 9007199254740992.0 - 9007199254740992.0) as i64;
    let code = (from_middle + 9007199254740992) as u64;
    // code * 512, turned round: with no bit known to be 0 the compiler stores the eight bytes at once
    code % 0x80_0000_0000_0000 * 512 + code / 0x80_0000_0000_0000
}

// It, from a place on: what stands behind the code is left for the next to be written over.
pub(crate) fn put_word(value: u64, at: usize, out: &mut [u8])
    requires { T (in_range (of_bits binary64 value)) × (at + 8 ≤ length out.old) }
    ensures { out.new ≡ sets out.old at (coded 8 value) }
{
    let end = at + 8;
    write_be(word_of(value), &mut out[at..end]);
}
