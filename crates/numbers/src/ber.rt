//! BER lengths: short form, a byte below 128; long form, a byte that says how many bytes of length follow, high first.
ghost use Rattle.std.specs.Prelude.{◌≡◌};
ghost use Rattle.numbers.specs.Ber.{ber_read, ber_read_strict};

use crate::words::read_be;

// A length, and how many bytes it took.
#[derive(Clone, Copy, Debug, PartialEq, Eq)]
pub struct BerLength {
    pub value: u64,
    pub taken: usize,
}

// The length at the front of the bytes, or none.
pub fn read_ber(bytes: &[u8]) -> Option<BerLength>
    ensures { result ≡ ber_read bytes.now }
{
    if bytes.len() == 0 {
        return None;
    }
    let first = crate::wide(bytes[0]);
    if first < 128 {
        return Some(BerLength {
            value: first,
            taken: 1,
        });
    }
    // no byte of length is the indefinite form, more than eight are too many
    let k = (first % 128) as usize;
    if k == 0 {
        return None;
    }
    if 8 < k {
        return None;
    }
    if bytes.len() <= k {
        return None;
    }
    let taken = k + 1;
    Some(BerLength {
        value: read_be(&bytes[1..taken]),
        taken,
    })
}

// The length at the front of the bytes, where no fewer bytes hold it.
pub fn read_ber_strict(bytes: &[u8]) -> Option<BerLength>
    ensures { result ≡ ber_read_strict bytes.now }
{
    let length = read_ber(bytes)?;
    if length.taken < 2 {
        return Some(length);
    }
    // the short form holds it, or fewer bytes do
    if length.value < 128 {
        return None;
    }
    if bytes[1] == 0 {
        return None;
    }
    Some(length)
}
