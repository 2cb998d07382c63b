//! What a code reads as, over a range.
ghost use Rattle.std.specs.Prelude.{◌≡◌};
ghost use Rattle.imapb.specs.Tables.{imapb_listed};
ghost use Rattle.ranges.specs.Tables.{mapped_number, mapped_read, range_listed, worked_read, imapb_read_in};

use crate::mapping::{RangeMapping, range_mapping};
use crate::range::ImapbParams;
use answers::Refusal;
use imapb::decode::{DecodedImapb, check_code, unless_special};
use numbers::words::read_be;
use std::num::nearest_u64_to_f64;

// y as the nearest binary64, less the offset, in steps above min.
fn number_of(mapping: RangeMapping, y: u64) -> DecodedImapb
    ensures { result ≡ mapped_number mapping y }
{
    let value = mapping.step * (nearest_u64_to_f64(y) - mapping.offset) + mapping.min;
    if y <= mapping.top {
        DecodedImapb::Value(value)
    } else {
        DecodedImapb::OutOfRange { decoded: value }
    }
}

// What the code reads as, by what its range and its length decide.
fn decode_mapped(mapping: RangeMapping, bytes: &[u8]) -> Result<DecodedImapb, Refusal>
    ensures { imapb_listed result ≡ mapped_read mapping bytes.now }
{
    check_code(mapping.length, bytes)?;
    let y = read_be(bytes);
    Ok(unless_special(mapping.length, y, number_of(mapping, y)))
}

// What the code reads as, over a range that has been worked out.
pub fn decode_worked_out(
    range: Result<RangeMapping, Refusal>,
    bytes: &[u8],
) -> Result<DecodedImapb, Refusal>
    ensures { imapb_listed result ≡ worked_read (range_listed range) bytes.now }
{
    decode_mapped(range?, bytes)
}

// What the code reads as, over the range.
pub fn decode_imapb_in(params: ImapbParams, bytes: &[u8]) -> Result<DecodedImapb, Refusal>
    ensures { imapb_listed result
        ≡ imapb_read_in params.min params.max params.length bytes.now }
{
    decode_worked_out(range_mapping(params), bytes)
}
