//! A refusal as a row of document 01's table: its number, and its values as data.
ghost use Rattle.std.specs.Prelude.{◌≡◌, false};
ghost use Rattle.answers.specs.Row.{row, row_of};

use crate::Refusal;

// The first `count` values count, the others are 0. Where `floats`, they are the bits of binary64 numbers. Numbers and
// a flag, and no enum: the table's columns, for whoever prints a row with no case for each.
#[derive(Clone, Copy, Debug, PartialEq, Eq)]
pub struct Row {
    pub number: u64,
    pub count: usize,
    pub values: [u64; 3],
    pub floats: bool,
}

// A function and no `From`: `Determined` names it.
pub fn row_of(refusal: Refusal) -> Row
    ensures { result ≡ row_of refusal }
{
    match refusal {
        Refusal::TruncatedField { needed, got } => whole_row(1, 2, [needed as u64, got as u64, 0]),
        Refusal::InvalidLength { expected, got } => whole_row(
            2,
            2,
            [expected as u64, got as u64, 0],
        ),
        Refusal::OutOfRange { value, least, most } => whole_row(3, 3, [value, least, most]),
        Refusal::CorrelationOutOfRange { value, least, most } => Row {
            number: 3,
            count: 3,
            values: [value, least, most],
            floats: true,
        },
        Refusal::UnsupportedImapbLength { length } => whole_row(4, 1, [length as u64, 0, 0]),
        Refusal::BufferTooSmall { needed, got } => whole_row(5, 2, [needed as u64, got as u64, 0]),
        Refusal::TooManyRows { n } => whole_row(6, 1, [n as u64, 0, 0]),
        Refusal::NoSuchCell { i, j } => whole_row(7, 2, [i, j, 0]),
        Refusal::NoDeviation { row } => whole_row(8, 1, [row as u64, 0, 0]),
        Refusal::InvalidImapbParams => whole_row(9, 0, [0, 0, 0]),
        Refusal::MalformedItem { offset } => whole_row(10, 1, [offset as u64, 0, 0]),
        Refusal::MalformedHeader { offset } => whole_row(11, 1, [offset as u64, 0, 0]),
        Refusal::Asymmetric { i, j } => whole_row(12, 2, [i, j, 0]),
    }
}

fn whole_row(number: u64, count: usize, values: [u64; 3]) -> Row
    ensures { result ≡ row number count values false }
{
    Row {
        number,
        count,
        values,
        floats: false,
    }
}
