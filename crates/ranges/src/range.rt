//! A range, and the power of two that its span decides.
ghost use Rattle.std.specs.Prelude.{◌≡◌, ◌+◌, true};
ghost use Rattle.answers.specs.Listed.{checked};
ghost use Rattle.ranges.specs.Range.{power_of, good_range, scale_in, span_of};
ghost use Rattle.ranges.specs.Tables.{range_rule};

use answers::Refusal;
use imapb::code_length::CodeLength;

// A range and the length of its codes, under the Rust's name.
#[derive(Clone, Copy, Debug, PartialEq)]
pub struct ImapbParams {
    pub min: f64,
    pub max: f64,
    pub length: usize,
}

// 2^-61 and 2^60: b lies from -60 to 60 for the spans above the one and up to the other.
const BELOW: f64 = 4.336808689942018e-19;

const MOST: f64 = 1152921504606846976.0;

// Whether a range has codes.
pub fn check_range(min: f64, max: f64) -> Result<(), Refusal>
    ensures { checked result ≡ range_rule min max }
{
    let span = max - min;
    // each test fails for a NaN
    if min < max {
        if BELOW < span {
            if span <= MOST {
                return Ok(());
            }
        }
    }
    Err(Refusal::InvalidImapbParams)
}

// A range that has codes, and a length that they have.
#[derive(Clone, Copy, Debug, PartialEq)]
pub(crate) struct GoodParams {
    pub min: f64,
    pub max: f64,
    pub length: CodeLength,
    pub ghost good: { good_range min max ≡ true },
}

impl GoodParams {
    // b + 1023: the exponent's field of the span, and one more where there are digits below the leading one.
    fn power_field(self) -> u64
        ensures { result ≡ power_of (span_of self.min self.max) + 962 }
    {
        (f64::to_bits(self.max - self.min) + 0xf_ffff_ffff_ffff) / 0x10_0000_0000_0000
    }

    // 2^(8L-1-b)
    pub(crate) fn scale(self) -> f64
        ensures { result ≡ scale_in self.min self.max self.length.bytes }
    {
        let field = 2045 + 8 * self.length.bytes as u64 - self.power_field();
        f64::from_bits(field * 0x10_0000_0000_0000)
    }
}
