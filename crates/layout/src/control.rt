//! Element 2, Parse Control.
ghost use Rattle.std.specs.Prelude.{◌≡◌};
ghost use Rattle.layout.specs.Control.{mode1, mode2};

// CS: a Bit Vector says which slots are present. Cf, Sf: mapped (ST 1201) and not IEEE. Clen, Slen: bytes to a value.
#[derive(Clone, Copy, Debug, PartialEq, Eq)]
pub struct ParseControl {
    pub cs: bool,
    pub cf: bool,
    pub clen: u8,
    pub sf: bool,
    pub slen: u8,
}

// The one byte of Mode 1: correlations are always mapped, deviations taken as IEEE.
pub fn parse_mode1(b: u8) -> ParseControl
    ensures { result ≡ mode1 b }
{
    ParseControl {
        cs: b / 8 % 2 == 1,
        cf: true,
        clen: b % 8,
        sf: false,
        slen: b / 16 % 8,
    }
}

// The two bytes of Mode 2.
pub fn parse_mode2(b1: u8, b2: u8) -> ParseControl
    ensures { result ≡ mode2 b1 b2 }
{
    ParseControl {
        cs: b1 / 32 % 2 == 1,
        cf: b1 / 16 % 2 == 1,
        clen: b1 % 16,
        sf: b2 / 16 % 2 == 1,
        slen: b2 % 16,
    }
}
