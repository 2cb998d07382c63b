//! BER-OID: seven bits a byte, high first, the top bit set on all bytes but the last.
ghost use Rattle.std.specs.Prelude.{◌≡◌, length};
ghost use Rattle.answers.specs.Listed.{written};
ghost use Rattle.answers.specs.Lent.{leaves};
ghost use Rattle.numbers.specs.BerOid.{oid_length, oid_bytes, oid_read, oid_read_strict, oid_written};

use answers::Refusal;

// A number, and how many bytes it took.
#[derive(Clone, Copy, Debug, PartialEq, Eq)]
pub struct BerOid {
    pub value: u32,
    pub taken: usize,
}

// The number at the front of the bytes, or none.
pub fn read_ber_oid(bytes: &[u8]) -> Option<BerOid>
    ensures { result ≡ oid_read bytes.now }
{
    let mut value: u64 = 0;
    for (i, &byte) in bytes.iter().enumerate() {
        let b = crate::wide(byte);
        value = value * 128 + b % 128;
        if 0xffff_ffff < value {
            return None;
        }
        if b < 128 {
            return Some(BerOid {
                value: value as u32,
                taken: i + 1,
            });
        }
        // five bytes may say that more follow, and no sixth
        if 5 <= i {
            return None;
        }
    }
    None
}

// The number at the front of the bytes, where they do not start with a 0 that nothing needs.
pub fn read_ber_oid_strict(bytes: &[u8]) -> Option<BerOid>
    ensures { result ≡ oid_read_strict bytes.now }
{
    if bytes.len() == 0 {
        return None;
    }
    if bytes[0] == 0x80 {
        return None;
    }
    read_ber_oid(bytes)
}

// How many bytes the value takes: the fewest.
pub fn ber_oid_len(value: u32) -> usize
    ensures { result ≡ oid_length value }
{
    if value < 0x80 {
        1
    } else if value < 0x4000 {
        2
    } else if value < 0x20_0000 {
        3
    } else if value < 0x1000_0000 {
        4
    } else {
        5
    }
}

// The value into the front of `out`, in the fewest bytes.
pub fn write_ber_oid(value: u32, out: &mut [u8]) -> Result<usize, Refusal>
    ensures { (written result ≡ oid_written value (length out.old))
        × (out.new ≡ leaves (written result) (oid_bytes value) out.old) }
{
    let needed = ber_oid_len(value);
    if out.len() < needed {
        return Err(Refusal::BufferTooSmall {
            needed,
            got: out.len(),
        });
    }
    let last = needed - 1;
    out[last] = (value % 128) as u8;
    let mut left = value / 128;
    for i in (0..last).rev() {
        out[i] = (128 + left % 128) as u8;
        left = left / 128;
    }
    Ok(needed)
}
