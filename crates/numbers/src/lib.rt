//! BER-OID numbers, BER lengths, words of bytes, and conversions between binary32, binary64 and whole numbers.
#![tactic(auto)]

pub mod ber;
pub mod ber_oid;
pub mod conversions;
pub mod words;

ghost use Rattle.std.specs.Prelude.{◌≡◌};

// A byte as a u64: what it is cast from need not be shown to fit.
fn wide(byte: u8) -> u64
    ensures { result ≡ byte }
{
    byte as u64
}
