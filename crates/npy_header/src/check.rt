//! A file held to the header of its own N.
ghost use Rattle.std.specs.Prelude.{◌≡◌, ◌≤◌, length};
ghost use Rattle.answers.specs.Listed.{checked};
ghost use Rattle.npy_header.specs.Header.{header_length, max_size, size_in, break_of, break_in};
ghost use Rattle.npy_header.specs.Rules.{header_rule};

use crate::header::{HEADER_LENGTH, put_header};
use answers::Refusal;
use text::numeral::decimal_digit_at;
use text::room::room_of;

// Where the first number stands.
const SIZE_AT: usize = 61;

// A first digit of 0 stands alone, and at most nine digits count.
pub fn size_in(file: &[u8]) -> u64
    ensures { (result ≡ size_in file.now) × (result ≤ max_size) }
{
    let mut n: u64 = 0;
    for i in 0..9 {
        let Some(digit) = decimal_digit_at(file, SIZE_AT + i) else {
            return n;
        };
        n = n * 10 + digit;
        if n == 0 {
            return 0;
        }
    }
    n
}

// The first byte that differs or is missing.
fn first_break(header: &[u8], file: &[u8]) -> usize
    ensures { result ≡ break_of header.now file.now }
{
    let there = header.len().min(file.len());
    for i in 0..there {
        if header[i] != file[i] {
            return i;
        }
    }
    there
}

// The file is held to the header of its own N.
fn break_in(file: &[u8]) -> usize
    ensures { result ≡ break_in file.now }
{
    let mut header: [u8; HEADER_LENGTH] = room_of(0);
    put_header(size_in(file), &mut header);
    first_break(&header, file)
}

// The header, by its first break.
pub fn check_header(file: &[u8]) -> Result<(), Refusal>
    ensures { checked result ≡ header_rule file.now }
{
    let offset = break_in(file);
    if offset < HEADER_LENGTH {
        return Err(Refusal::MalformedHeader { offset });
    }
    Ok(())
}
