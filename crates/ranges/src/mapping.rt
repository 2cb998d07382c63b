//! What a range and a length decide, for whoever reads many codes: it is then worked out once.
ghost use Rattle.std.specs.Prelude.{◌≡◌};
ghost use Rattle.ranges.specs.Range.{scale_in, offset_in};
ghost use Rattle.ranges.specs.Tables.{mapping_in, range_listed, worked_out};

use crate::floor::floor_of;
use crate::range::{GoodParams, ImapbParams, check_range};
use answers::Refusal;
use imapb::code_length::CodeLength;
use std::num::truncating_f64_to_u64;

// The size of a step, the code's offset, the number that steps are counted from, and the largest code that is a value.
#[derive(Clone, Copy, Debug, PartialEq)]
pub struct RangeMapping {
    pub length: usize,
    pub min: f64,
    pub step: f64,
    pub offset: f64,
    pub top: u64,
}

impl GoodParams {
    // Where the range has 0 inside, what makes 0 the value of a code.
    fn offset(self, scale: f64) -> f64
        requires { scale ≡ scale_in self.min self.max self.length.bytes }
        ensures { result ≡ offset_in self.min self.max self.length.bytes }
    {
        if self.min < 0.0 {
            if 0.0 < self.max {
                let scaled = scale * self.min;
                return scaled - floor_of(scaled);
            }
        }
        0.0
    }

    fn mapping(self) -> RangeMapping
        ensures { result ≡ mapping_in self.min self.max self.length.bytes }
    {
        let scale = self.scale();
        let offset = self.offset(scale);
        RangeMapping {
            length: self.length.bytes,
            min: self.min,
            step: 1.0 / scale,
            offset,
            top: truncating_f64_to_u64(scale * (self.max - self.min) + offset),
        }
    }
}

pub fn range_mapping(params: ImapbParams) -> Result<RangeMapping, Refusal>
    ensures { range_listed result ≡ worked_out params.min params.max params.length }
{
    let length = CodeLength::new(params.length)?;
    check_range(params.min, params.max)?;
    let good = GoodParams {
        min: params.min,
        max: params.max,
        length,
    };
    Ok(good.mapping())
}
