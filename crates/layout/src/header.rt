//! Elements 1 and 2: the matrix size, and Parse Control behind it.
ghost use Rattle.std.specs.Prelude.{◌≡◌};
ghost use Rattle.numbers.specs.BerOid.{oid, oid_read};
ghost use Rattle.layout.specs.Header.{header_of};

use crate::control::{ParseControl, parse_mode1, parse_mode2};
use numbers::ber_oid::read_ber_oid;

// What the first two elements say, and where the third starts.
#[derive(Clone, Copy, Debug, PartialEq, Eq)]
pub struct Head {
    pub n: u32,
    pub control: ParseControl,
    pub body: usize,
}

// Which of rules a) and b) refuses them.
#[derive(Clone, Copy, Debug, PartialEq, Eq)]
pub enum HeaderError {
    // a) N
    Unreadable,
    // b) Parse Control
    Short,
}

// Rule b), behind N, which took so many bytes. Apart from N's own reading, so that a caller who needs less of the
// control works out less of it.
pub(crate) fn header_behind(bytes: &[u8], n: u32, taken: usize) -> Result<Head, HeaderError>
    requires { oid n taken ≡ oid_read bytes.now }
    ensures { result ≡ header_of bytes.now }
{
    if bytes.len() <= taken {
        return Err(HeaderError::Short);
    }
    let first = bytes[taken];
    if first < 128 {
        return Ok(Head {
            n,
            control: parse_mode1(first),
            body: taken + 1,
        });
    }
    if bytes.len() - taken < 2 {
        return Err(HeaderError::Short);
    }
    Ok(Head {
        n,
        control: parse_mode2(first, bytes[taken + 1]),
        body: taken + 2,
    })
}

// Rules a) and b).
pub fn read_header(bytes: &[u8]) -> Result<Head, HeaderError>
    ensures { result ≡ header_of bytes.now }
{
    let oid = read_ber_oid(bytes).ok_or(HeaderError::Unreadable)?;
    header_behind(bytes, oid.value, oid.taken)
}
