//! One deviation of a pack, as binary64 bits.
ghost use Rattle.std.specs.Prelude.{◌≡◌};
ghost use Rattle.imapb.specs.Tables.{imapb_listed};
ghost use Rattle.elements.specs.Elements.{part};
ghost use Rattle.elements.specs.Numbers.{number_listed};
ghost use Rattle.deviations.specs.Form.{form_listed, code_deviation, form_number};

use crate::form::DeviationForm;
use answers::Refusal;
use elements::number::{deviation_at, left, value_bits};
use imapb::decode::DecodedImapb;
use layout::control::ParseControl;
use ranges::decode::decode_worked_out;

// So many bytes from a place on, or as many as there are.
fn part_of(bytes: &[u8], at: usize, size: usize) -> &[u8]
    ensures { result.now ≡ part bytes.now at size }
{
    if bytes.len() < at {
        return &bytes[..0];
    }
    let rest = &bytes[at..];
    if rest.len() < size {
        return rest;
    }
    &rest[..size]
}

// What a code's answer is as a deviation's: whatever is no value is refused with the row.
fn of_code(read: Result<DecodedImapb, Refusal>, row: usize) -> Result<u64, Refusal>
    ensures { number_listed result ≡ code_deviation row (imapb_listed read) }
{
    let decoded = read?;
    let DecodedImapb::Value(_) = decoded else {
        return Err(Refusal::NoDeviation { row });
    };
    Ok(value_bits(decoded))
}

// Rule h) of the deviation of a row, which starts at a place.
pub fn deviation_in(
    bytes: &[u8],
    at: usize,
    control: ParseControl,
    form: DeviationForm,
    row: usize,
) -> Result<u64, Refusal>
    ensures { number_listed result ≡ form_number bytes.now at control (form_listed form) row }
{
    let DeviationForm::Mapped(range) = form else {
        return deviation_at(bytes, at, control);
    };
    let slen = control.slen as usize;
    let there = left(bytes, at);
    if there < slen {
        return Err(Refusal::TruncatedField {
            needed: slen,
            got: there,
        });
    }
    of_code(decode_worked_out(range, part_of(bytes, at, slen)), row)
}
