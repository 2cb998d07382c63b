//! Numbers read from a line, from a place on: with no cursor, so that each contract is one equation.
ghost use Rattle.std.specs.Prelude.{◌≡◌, get_or};
ghost use Rattle.text.specs.Numeral.{worth, digit_at, in_decimal, decimal_at, hex_at};
ghost use Rattle.text.specs.Numeral.{literal_at, end_at, decimal_up_to, spaced_at};

// A number, and where the line goes on.
#[derive(Clone, Copy, Debug, PartialEq, Eq)]
pub struct Numeral {
    pub value: u64,
    pub next: usize,
}

// How an entry of a list is spelled: the bits of a binary64, or in decimal up to a limit.
#[derive(Clone, Copy, Debug, PartialEq, Eq)]
pub enum Entry {
    Bits,
    UpTo(u64),
}

// What a byte is worth as an upper-case hex digit.
fn worth_of(byte: u8) -> Option<u64>
    ensures { result ≡ worth byte }
{
    match byte {
        b'0'..=b'9' => Some((byte - b'0') as u64),
        b'A'..=b'F' => Some((byte - b'A') as u64 + 10),
        _ => None,
    }
}

// The hex digit at a place.
pub fn digit_at(line: &[u8], at: usize) -> Option<u64>
    ensures { result ≡ digit_at line.now at }
{
    worth_of(*line.get(at)?)
}

// The same in decimal.
pub fn decimal_digit_at(line: &[u8], at: usize) -> Option<u64>
    ensures { result ≡ in_decimal (digit_at line.now at) }
{
    digit_at(line, at).filter(|&digit| digit < 10)
}

// The longest run of decimal digits. There is no number without a digit, and none above 2^64-1.
pub fn decimal(line: &[u8], at: usize) -> Option<Numeral>
    ensures { result ≡ decimal_at line.now at }
{
    let mut value = decimal_digit_at(line, at)?;
    let mut next = at + 1;
    // up to the first byte that is no digit, which no range says
    while let Some(digit) = decimal_digit_at(line, next) {
        value = value.checked_mul(10)?.checked_add(digit)?;
        next += 1;
    }
    Some(Numeral { value, next })
}

// So many hex digits. Of more than sixteen the last sixteen count.
pub fn hex(line: &[u8], at: usize, digits: usize) -> Option<Numeral>
    ensures { result ≡ hex_at line.now at digits }
{
    let mut value: u64 = 0;
    for k in 0..digits {
        let digit = digit_at(line, at + k)?;
        value = value % 0x1000_0000_0000_0000 * 16 + digit;
    }
    Some(Numeral {
        value,
        next: at + digits,
    })
}

// Past a byte, where the line has it; its value is 0.
pub fn literal(byte: u8, line: &[u8], at: usize) -> Option<Numeral>
    ensures { result ≡ literal_at byte line.now at }
{
    if at < line.len() && line[at] == byte {
        Some(Numeral {
            value: 0,
            next: at + 1,
        })
    } else {
        None
    }
}

// The line's end, where nothing is left.
pub fn at_end(line: &[u8], at: usize) -> Option<Numeral>
    ensures { result ≡ end_at line.now at }
{
    (at == line.len()).then_some(Numeral { value: 0, next: at })
}

// A decimal number up to a limit.
pub fn decimal_up_to(most: u64, line: &[u8], at: usize) -> Option<Numeral>
    ensures { result ≡ decimal_up_to most line.now at }
{
    decimal(line, at).filter(|number| number.value <= most)
}

// A space, and an entry of a list.
pub fn entry_after_space(entry: Entry, line: &[u8], at: usize) -> Option<Numeral>
    ensures { result ≡ spaced_at entry line.now at }
{
    let space = literal(b' ', line, at)?;
    match entry {
        Entry::Bits => hex(line, space.next, 16),
        Entry::UpTo(limit) => decimal_up_to(limit, line, space.next),
    }
}
