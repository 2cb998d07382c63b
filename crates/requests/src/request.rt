//! Which request a line is.
ghost use Rattle.std.specs.Prelude.{◌≡◌};
ghost use Rattle.requests.specs.Request.{unfilled, with, request_of, line_left, words_left};

use crate::fields::field;
use crate::form::form_of;
use replies::forms::{BAD_REQUEST, WIDTH, letter};

// A request: its form, and what its fields say.
#[derive(Clone, Copy, Debug, PartialEq, Eq)]
pub struct Request {
    // its place in the table of forms (replies)
    pub form: usize,
    // N: a matrix size, the length of a code or Clen
    pub size: u64,
    // W and X: the bits of a number; P: a payload; I: a row
    pub value: u64,
    // Y: the bits of a second number
    pub second: u64,
    // H: how many bytes are given; J: a column
    pub given: u64,
    // R: the room for bytes; L: the room for a file; G: the room for tags
    pub room: u64,
    // S and D: the deviations, or the room for them
    pub rows: u64,
    // C and E: the correlations, or the room for them
    pub slots: u64,
    // T and F: the states, or the room for them
    pub states: u64,
}

fn unfilled(form: usize) -> Request
    ensures { result ≡ unfilled form }
{
    Request {
        form,
        size: 0,
        value: 0,
        second: 0,
        given: 0,
        room: 0,
        rows: 0,
        slots: 0,
        states: 0,
    }
}

impl Request {
    fn with(mut self, letter: u8, value: u64) -> Request
        ensures { result ≡ with letter value self }
    {
        match letter {
            b'N' => self.size = value,
            b'I' | b'P' | b'W' | b'X' => self.value = value,
            b'Y' => self.second = value,
            b'H' | b'J' => self.given = value,
            b'G' | b'L' | b'R' => self.room = value,
            b'D' | b'S' => self.rows = value,
            b'C' | b'E' => self.slots = value,
            b'F' | b'T' => self.states = value,
            _ => {}
        }
        self
    }
}

// The request that the line is, with its byte string in the line's front and its lists in the words.
pub fn read_request(line: &mut [u8], words: &mut [u64]) -> Request
    ensures value { result ≡ request_of line.old words.old }
    ensures line_after { line.new ≡ line_left line.old words.old }
    ensures words_after { words.new ≡ words_left line.old words.old }
{
    let form = form_of(line);
    let mut request = unfilled(form);
    let mut at: usize = 0;
    for i in 0..WIDTH {
        let letter = letter(form, i);
        let Some(read) = field(letter, line, at, words) else {
            return unfilled(BAD_REQUEST);
        };
        request = request.with(letter, read.value);
        at = read.next;
    }
    request
}
