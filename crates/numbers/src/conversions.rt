//! Conversions between binary32, binary64 and whole numbers, on bit patterns.
ghost use Rattle.std.specs.Prelude.{◌≡◌, ◌≤◌, ◌<◌, ◌^◌};
ghost use Rattle.std.specs.Float.{binary32, binary64};
ghost use Rattle.std.specs.Float.Ieee.{to_bits};
ghost use Rattle.std.specs.Float.Ieee.Nearest.{closest};
ghost use Rattle.numbers.specs.Conversions.{converted, nearest_bits, whole_part};

// 2^c
fn power(c: u64) -> u64
    requires { c < 64 }
    ensures { result ≡ 2 ^ c }
{
    1 << c
}

// m / 2^c to the nearest whole number, a tie to the even one.
fn closest_to(m: u64, c: u64) -> u64
    requires { (1 ≤ c) × (c < 64) }
    ensures { result ≡ closest m (2 ^ c) }
{
    let unit = power(c);
    let half = unit / 2;
    let q = m / unit;
    let rest = m % unit;
    if rest < half {
        q
    } else if rest == half {
        q + q % 2
    } else {
        q + 1
    }
}

// The bits of the binary64 nearest to n, a tie to the even one.
pub fn nearest_binary64(n: u64) -> u64
    ensures { result ≡ nearest_bits n }
{
    if n == 0 {
        return 0;
    }
    // moved up to 64 digits, of which 53 are kept; the leading one adds itself to the exponent's field
    let zeros = u64::leading_zeros(n) as u64;
    (1085 - zeros) * 0x10_0000_0000_0000 + closest_to(n << zeros, 11)
}

// A pattern without its sign.
fn narrow_size(bits: u64) -> u64
    requires { bits < 2 ^ 63 }
    ensures { (result ≡ converted binary64 binary32 bits) × (result < 2 ^ 31) }
{
    let field = bits / 0x10_0000_0000_0000;
    // below half of the least binary32
    if field < 873 {
        return 0;
    }
    if 0x7ff0_0000_0000_0000 < bits {
        return 0x7fc0_0000 + bits / 0x2000_0000 % 0x40_0000;
    }
    let whole = 0x10_0000_0000_0000 + bits % 0x10_0000_0000_0000;
    if field < 897 {
        return closest_to(whole, 926 - field);
    }
    // a carry out of the digits goes into the field by itself, and stops at infinity
    let size = (field - 897) * 0x80_0000 + closest_to(whole, 29);
    if size < 0x7f80_0000 {
        size
    } else {
        0x7f80_0000
    }
}

// The nearest binary32, a tie to the even one; a NaN keeps its sign and its top fraction bits.
pub fn binary64_to_binary32(bits: u64) -> u32
    ensures { result ≡ converted binary64 binary32 bits }
{
    if bits < 0x8000_0000_0000_0000 {
        narrow_size(bits) as u32
    } else {
        (0x8000_0000 + narrow_size(bits - 0x8000_0000_0000_0000)) as u32
    }
}

// A pattern without its sign.
fn widen_size(bits: u64) -> u64
    requires { bits < 2 ^ 31 }
    ensures { (result ≡ converted binary32 binary64 bits) × (result < 2 ^ 63) }
{
    if 0x7f80_0000 < bits {
        return 0x7ff8_0000_0000_0000 + bits % 0x40_0000 * 0x2000_0000;
    }
    if bits == 0x7f80_0000 {
        return 0x7ff0_0000_0000_0000;
    }
    // the exponents' fields differ by 896
    if 0x80_0000 <= bits {
        return bits * 0x2000_0000 + 896 * 0x10_0000_0000_0000;
    }
    if bits == 0 {
        return 0;
    }
    // a subnormal is a whole number of 2^-149
    nearest_binary64(bits) - 149 * 0x10_0000_0000_0000
}

// The same number as a binary64; a NaN keeps its sign and its fraction bits.
pub fn binary32_to_binary64(bits: u32) -> u64
    ensures { result ≡ converted binary32 binary64 bits }
{
    let wide = bits as u64;
    if wide < 0x8000_0000 {
        widen_size(wide)
    } else {
        0x8000_0000_0000_0000 + widen_size(wide - 0x8000_0000)
    }
}

// The bits of a number. The language's one NaN has none of its own.
pub fn bits_of(number: f64) -> u64
    ensures { result ≡ to_bits binary64 number }
{
    if number != number {
        0x7ff8_0000_0000_0000
    } else {
        f64::to_bits(number)
    }
}

// The whole part of the binary64 whose bits these are.
pub fn whole_part(bits: u64) -> Option<u64>
    ensures { result ≡ whole_part bits }
{
    // of the numbers with a sign -0 alone is not below 0
    if 0x8000_0000_0000_0000 < bits {
        return None;
    }
    let field = bits % 0x8000_0000_0000_0000 / 0x10_0000_0000_0000;
    if 1087 <= field {
        return None;
    }
    if field < 1023 {
        return Some(0);
    }
    let whole = 0x10_0000_0000_0000 + bits % 0x10_0000_0000_0000;
    if field < 1075 {
        Some(whole >> (1075 - field))
    } else {
        Some(whole << (field - 1075))
    }
}
