//! Whole numbers as bytes, high byte first and low byte first.
ghost use Rattle.std.specs.Prelude.{◌≡◌, length};
ghost use Rattle.numbers.specs.Words.{word_of, bytes_of, low_word_of, low_bytes_of, more};

// One byte more is read, in 64 bits.
fn more(value: u64, byte: u8) -> u64
    ensures { result ≡ more value byte }
{
    value % 0x100_0000_0000_0000 * 256 + crate::wide(byte)
}

// The number that the bytes spell. Of more than eight bytes the last eight count.
pub fn read_be(bytes: &[u8]) -> u64
    ensures { result ≡ word_of bytes.now }
{
    bytes.iter().fold(0, |value, &byte| more(value, byte))
}

// The value's low bytes, as many as the part has.
pub fn write_be(value: u64, part: &mut [u8])
    ensures { part.new ≡ bytes_of (length part.old) value }
{
    let mut left = value;
    for i in (0..part.len()).rev() {
        part[i] = (left % 256) as u8;
        left = left / 256;
    }
}

// Low byte first. Of more than eight bytes the first eight count.
pub fn read_le(bytes: &[u8]) -> u64
    ensures { result ≡ low_word_of bytes.now }
{
    bytes.iter().rev().fold(0, |value, &byte| more(value, byte))
}

// The value's low bytes, low byte first, as many as the part has. Not one function with `write_be`: of an iterator over
// `&mut u8` from either end, no clause says what it leaves in the part.
pub fn write_le(value: u64, part: &mut [u8])
    ensures { part.new ≡ low_bytes_of (length part.old) value }
{
    let mut rest = value;
    for byte in part.iter_mut() {
        *byte = (rest % 256) as u8;
        rest = rest / 256;
    }
}
