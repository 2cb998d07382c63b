//! Which correlations count as 0: by their bits, and by a comparison of numbers, of which the compiler makes two at
//! once.
ghost use Rattle.std.specs.Prelude.{◌≡◌, ◌+◌, ◌^◌, ◌≤◌, ◌<◌, eqb};
ghost use Rattle.answers.specs.Table.{pick};
ghost use Rattle.plan.specs.Tally.{raise};
ghost use Rattle.plan.specs.Zero.{is_zero};

// 1 for +0.0 and -0.0, by their bits, and 0 for every other number: a number, since it is summed.
pub fn zero_of(value: u64) -> usize
    ensures { result ≡ pick (is_zero value) 1 0 }
{
    if value % 0x8000_0000_0000_0000 == 0 {
        1
    } else {
        0
    }
}

// The bits below the two highest, and those of the least normal number, 2^-1022, added. They are the bits of a normal
// number, where `value` may be a NaN, which is compared with nothing. The second highest bit is set in them or in
// `value` exactly where that is a NaN or, without its sign, 1 or more.
pub(crate) fn raised(value: u64) -> u64
    ensures { result ≡ raise value }
{
    value % 0x4000_0000_0000_0000 + 0x0010_0000_0000_0000
}

// 1 for the bits of the least normal number, and 0 for those above.
pub(crate) fn least_of(bits: u64) -> usize
    requires { (2 ^ 52 ≤ bits) × (bits < 2 ^ 62 + 2 ^ 52) }
    ensures { result ≡ pick (eqb bits (2 ^ 52)) 1 0 }
{
    if f64::from_bits(bits) <= 2.2250738585072014e-308 {
        1
    } else {
        0
    }
}
