//! A length that codes have, 1 to 8 bytes, and what it decides.
ghost use Rattle.std.specs.Prelude.{◌≡◌, ◌≤◌, length as length_of};
ghost use Rattle.answers.specs.Lent.{over};
ghost use Rattle.numbers.specs.Words.{bytes_of};
ghost use Rattle.imapb.specs.Mapping.{scale_of, top_of};

use crate::decode::check_length;
use answers::Refusal;

// 2^(8L-2)
const SCALES: [f64; 8] = [
    64.0,
    16384.0,
    4194304.0,
    1073741824.0,
    274877906944.0,
    70368744177664.0,
    18014398509481984.0,
    4611686018427387904.0,
];

// 2^(8L-1), the code of 1
const TOP_CODES: [u64; 8] = [
    0x80,
    0x8000,
    0x80_0000,
    0x8000_0000,
    0x80_0000_0000,
    0x8000_0000_0000,
    0x80_0000_0000_0000,
    0x8000_0000_0000_0000,
];

#[derive(Clone, Copy, Debug, PartialEq, Eq)]
pub struct CodeLength {
    pub bytes: usize,
    pub ghost least: { 1 ≤ bytes },
    pub ghost most: { bytes ≤ 8 },
}

// The scale of the codes of a length, and the largest of them that is a value: for whoever reads many codes of one
// length, the tables are then read once.
#[derive(Clone, Copy, Debug, PartialEq)]
pub struct Mapping {
    pub length: usize,
    pub scale: f64,
    pub top: u64,
    pub ghost least: { 1 ≤ length },
    pub ghost most: { length ≤ 8 },
    pub ghost scale_is: { scale ≡ scale_of length },
    pub ghost top_is: { top ≡ top_of length },
}

impl CodeLength {
    ghost use Rattle.imapb.specs.Tables.{length_listed, code_length};

    // Any other is refused with it.
    pub fn new(length: usize) -> Result<CodeLength, Refusal>
        ensures { length_listed result ≡ code_length length }
    {
        check_length(length)?;
        Ok(CodeLength { bytes: length })
    }

    // The scale of a code of that length.
    pub(crate) fn scale(self) -> f64
        ensures { result ≡ scale_of self.bytes }
    {
        SCALES[self.bytes - 1]
    }

    // The largest code of that length that is a value.
    pub(crate) fn top_code(self) -> u64
        ensures { result ≡ top_of self.bytes }
    {
        TOP_CODES[self.bytes - 1]
    }

    pub(crate) fn mapping(self) -> Mapping
        ensures { result.length ≡ self.bytes }
    {
        Mapping {
            length: self.bytes,
            scale: self.scale(),
            top: self.top_code(),
        }
    }

    // The code's bytes into the front of `out`, each to its place, last byte first.
    pub(crate) fn put_code(self, y: u64, out: &mut [u8])
        requires { self.bytes ≤ length_of out.old }
        ensures { out.new ≡ over (bytes_of self.bytes y) out.old }
    {
        numbers::words::write_be(y, &mut out[..self.bytes]);
    }
}
