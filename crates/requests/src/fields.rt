//! The fields of a request, each read from a place of its line on.
ghost use Rattle.std.specs.Prelude.{◌≡◌};
ghost use Rattle.requests.specs.Fields.{most, number_at, field_at, line_after_field, words_after_field};
ghost use Rattle.requests.specs.Fields.{part_of, list_of, words_of};

use crate::limits::{BYTES, FILE, ROWS, SLOTS, TAGS, WORDS};
use text::list::list;
use text::numeral::{Entry, Numeral, at_end, decimal_up_to, hex, literal};
use text::part::within;
use text::string::byte_string;

// The most that a field's number may be: a room is at most what there is.
fn most(letter: u8) -> u64
    ensures { result ≡ most letter }
{
    match letter {
        b'D' => ROWS as u64,
        b'E' | b'F' => SLOTS as u64,
        b'G' => TAGS as u64,
        b'L' => FILE as u64,
        b'R' => BYTES as u64,
        _ => u64::MAX,
    }
}

// The number that a letter stands for, or the letter itself.
fn number(letter: u8, line: &[u8], at: usize) -> Option<Numeral>
    ensures { result ≡ number_at letter line.now at }
{
    match letter {
        b'W' => hex(line, at, 8),
        b'X' | b'Y' => hex(line, at, 16),
        b'A'..=b'V' => decimal_up_to(most(letter), line, at),
        b'.' => at_end(line, at),
        b',' => Some(Numeral { value: 0, next: at }),
        _ => literal(letter, line, at),
    }
}

// Where a list goes in the words, and how its entries are spelled.
#[derive(Clone, Copy, Debug, PartialEq, Eq)]
struct Part {
    start: usize,
    end: usize,
    entry: Entry,
}

// The deviations go first, the correlations behind them, and the states, in decimal, last.
fn part_of(letter: u8) -> Part
    ensures { result ≡ part_of letter }
{
    match letter {
        b'S' => Part {
            start: 0,
            end: ROWS,
            entry: Entry::Bits,
        },
        b'C' => Part {
            start: ROWS,
            end: ROWS + SLOTS,
            entry: Entry::Bits,
        },
        _ => Part {
            start: ROWS + SLOTS,
            end: WORDS,
            entry: Entry::UpTo(255),
        },
    }
}

// The list, into its part of the words.
fn list_of(letter: u8, line: &[u8], at: usize, words: &mut [u64]) -> Option<Numeral>
    ensures value { result ≡ list_of letter line.now at words.old }
    ensures words_after { words.new ≡ words_of letter line.now at words.old }
{
    let part = part_of(letter);
    let start = within(part.start, words);
    let end = within(part.end, words);
    let entry = part.entry;
    list(entry, line, at, &mut words[start..end])
}

// What a letter stands for.
pub(crate) fn field(letter: u8, line: &mut [u8], at: usize, words: &mut [u64]) -> Option<Numeral>
    ensures value { result ≡ field_at letter line.old at words.old }
    ensures line_after { line.new ≡ line_after_field letter line.old at }
    ensures words_after { words.new ≡ words_after_field letter line.old at words.old }
{
    match letter {
        b'H' => byte_string(line, at),
        b'C' | b'S' | b'T' => list_of(letter, line, at, words),
        _ => number(letter, line, at),
    }
}
