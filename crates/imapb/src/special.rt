//! The special values of ST 1201.5, Tables 2 and 3, and the writer of their codes.
ghost use Rattle.std.specs.Prelude.{◌≡◌, length as length_of};
ghost use Rattle.answers.specs.Listed.{written};
ghost use Rattle.answers.specs.Lent.{leaves};
ghost use Rattle.numbers.specs.Words.{bytes_of};
ghost use Rattle.imapb.specs.Special.{family, payload, special_code};
ghost use Rattle.imapb.specs.Tables.{special_written};

use crate::code_length::CodeLength;
use answers::Refusal;

// Under the Rust's names. NaN and user codes carry the 8L-5 bits below the family.
#[derive(Clone, Copy, Debug, PartialEq, Eq)]
pub enum ImapbSpecial {
    PositiveInfinity,
    NegativeInfinity,
    PositiveQuietNaN { nan_id: u64 },
    NegativeQuietNaN { nan_id: u64 },
    PositiveSignalingNaN { signal: u64 },
    NegativeSignalingNaN { signal: u64 },
    BelowMin,
    AboveMax,
    UserDefined { signal: u64 },
}

// The top five bits.
fn family_of(special: ImapbSpecial) -> u64
    ensures { result ≡ family special }
{
    match special {
        ImapbSpecial::UserDefined { signal: _ } => 0b11000,
        ImapbSpecial::PositiveInfinity => 0b11001,
        ImapbSpecial::PositiveQuietNaN { nan_id: _ } => 0b11010,
        ImapbSpecial::PositiveSignalingNaN { signal: _ } => 0b11011,
        ImapbSpecial::BelowMin => 0b11100,
        ImapbSpecial::AboveMax => 0b11100,
        ImapbSpecial::NegativeInfinity => 0b11101,
        ImapbSpecial::NegativeQuietNaN { nan_id: _ } => 0b11110,
        ImapbSpecial::NegativeSignalingNaN { signal: _ } => 0b11111,
    }
}

// The bits below them. Table 3's two are told apart by their first byte's last three.
fn payload_of(special: ImapbSpecial, length: CodeLength) -> u64
    ensures { result ≡ payload length.bytes special }
{
    match special {
        ImapbSpecial::UserDefined { signal } => signal,
        ImapbSpecial::PositiveInfinity => 0,
        ImapbSpecial::PositiveQuietNaN { nan_id } => nan_id,
        ImapbSpecial::PositiveSignalingNaN { signal } => signal,
        ImapbSpecial::BelowMin => 0,
        ImapbSpecial::AboveMax => length.top_code() / 128,
        ImapbSpecial::NegativeInfinity => 0,
        ImapbSpecial::NegativeQuietNaN { nan_id } => nan_id,
        ImapbSpecial::NegativeSignalingNaN { signal } => signal,
    }
}

// A special value's code into the front of `out`.
pub fn encode_imapb_special(
    special: ImapbSpecial,
    length: usize,
    out: &mut [u8],
) -> Result<usize, Refusal>
    ensures { (written result ≡ special_written length special (length_of out.old))
        × (out.new ≡ leaves (written result) (bytes_of length (special_code length special)) out.old) }
{
    let supported = CodeLength::new(length)?;
    if out.len() < length {
        return Err(Refusal::BufferTooSmall {
            needed: length,
            got: out.len(),
        });
    }
    let unit = supported.top_code() / 16;
    let payload = payload_of(special, supported);
    if unit <= payload {
        return Err(Refusal::OutOfRange {
            value: payload,
            least: 0,
            most: unit - 1,
        });
    }
    supported.put_code(family_of(special) * unit + payload, out);
    Ok(length)
}
