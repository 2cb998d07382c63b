//! Byte strings read from a line.
ghost use Rattle.std.specs.Prelude.{◌≡◌};
ghost use Rattle.answers.specs.Lent.{over};
ghost use Rattle.text.specs.Strings.{bytes_at, spelled_to, string_at};

use crate::numeral::{Numeral, hex, literal};

// The byte string of so many bytes, up to a place. One that is empty is spelled `-`.
fn spelled(count: usize, line: &[u8], next: usize) -> Option<Numeral>
    ensures { result ≡ spelled_to count line.now next }
{
    if count == 0 {
        return literal(b'-', line, next);
    }
    Some(Numeral {
        value: count as u64,
        next,
    })
}

// The bytes that pairs of hex digits spell, into the front of the line itself, which has been read that far.
pub fn byte_string(line: &mut [u8], at: usize) -> Option<Numeral>
    ensures value { result ≡ string_at line.old at }
    ensures line_after { line.new ≡ over (bytes_at line.old at) line.old }
{
    let mut next = at;
    for count in 0..line.len() {
        let Some(pair) = hex(line, next, 2) else {
            return spelled(count, line, next);
        };
        line[count] = (pair.value % 256) as u8;
        next = pair.next;
    }
    None
}
