//! Document 01's table of answers: the refusals.
#![tactic(auto)]

pub mod row;

// Rows 1 to 12, in the table's order. A binary64 is carried as its bits, so that a refused NaN comes back bit for bit.
#[derive(Clone, Copy, Debug, PartialEq, Eq)]
pub enum Refusal {
    // 1, in bytes
    TruncatedField { needed: usize, got: usize },
    // 2
    InvalidLength { expected: usize, got: usize },
    // 3, of whole numbers: a count, a size or a payload
    OutOfRange { value: u64, least: u64, most: u64 },
    // 3, of binary64 numbers: a correlation and its limits
    CorrelationOutOfRange { value: u64, least: u64, most: u64 },
    // 4
    UnsupportedImapbLength { length: usize },
    // 5
    BufferTooSmall { needed: usize, got: usize },
    // 6
    TooManyRows { n: usize },
    // 7
    NoSuchCell { i: u64, j: u64 },
    // 8: the code of that deviation is no value
    NoDeviation { row: usize },
    // 9
    InvalidImapbParams,
    // 10: the item of a set that starts there can't be read
    MalformedItem { offset: usize },
    // 11: the header of a .npy file breaks there
    MalformedHeader { offset: usize },
    // 12: a matrix whose entries (i, j) and (j, i) differ
    Asymmetric { i: u64, j: u64 },
}
