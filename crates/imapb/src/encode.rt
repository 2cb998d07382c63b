//! The code of a number from -1 to 1.
ghost use Rattle.std.specs.Prelude.{◌≡◌, T, length as length_of};
ghost use Rattle.std.specs.Float.{binary64};
ghost use Rattle.std.specs.Float.Ieee.{of_bits};
ghost use Rattle.answers.specs.Listed.{written, checked};
ghost use Rattle.answers.specs.Lent.{leaves};
ghost use Rattle.numbers.specs.Words.{bytes_of};
ghost use Rattle.imapb.specs.Mapping.{code_of, in_range};
ghost use Rattle.imapb.specs.Tables.{range_rule, imapb_code, imapb_written};

use crate::code_length::CodeLength;
use answers::Refusal;

// The bits of -1 and 1.
const MINUS_ONE: u64 = 0xbff0_0000_0000_0000;

const ONE: u64 = 0x3ff0_0000_0000_0000;

// Whether the number whose bits are given lies from -1 to 1.
pub fn check_range(value: u64) -> Result<(), Refusal>
    ensures { checked result ≡ range_rule value }
{
    // without its sign a number above 1, an infinity and a NaN have larger bits than 1
    if ONE < value % 0x8000_0000_0000_0000 {
        return Err(Refusal::CorrelationOutOfRange {
            value,
            least: MINUS_ONE,
            most: ONE,
        });
    }
    Ok(())
}

// The sum with 1, scaled exactly, and of that the whole part. That the number is in range is asked of its bits: a type
// of it would be taken apart here.
fn code_of(length: CodeLength, value: u64) -> u64
    requires { T (in_range (of_bits binary64 value)) }
    ensures { result ≡ code_of length.bytes (of_bits binary64 value) }
{
    let sum = f64::from_bits(value) + 1.0;
    let whole = numbers::conversions::whole_part(f64::to_bits(sum * length.scale()));
    let Some(y) = whole else {
        return 0;
    };
    y
}

// The code alone, for whoever writes it to a place of its own.
pub fn imapb_code(length: usize, value: u64) -> Option<u64>
    ensures { result ≡ imapb_code length value }
{
    let length = CodeLength::new(length).ok()?;
    check_range(value).ok()?;
    Some(code_of(length, value))
}

// The code of the number whose bits are given into the front of `out`.
pub fn encode_imapb(length: usize, value: u64, out: &mut [u8]) -> Result<usize, Refusal>
    ensures { (written result ≡ imapb_written length value (length_of out.old))
        × (out.new
        ≡ leaves (written result) (bytes_of length (code_of length (of_bits binary64 value))) out.old) }
{
    let supported = CodeLength::new(length)?;
    if out.len() < length {
        return Err(Refusal::BufferTooSmall {
            needed: length,
            got: out.len(),
        });
    }
    check_range(value)?;
    supported.put_code(code_of(supported, value), out);
    Ok(length)
}
