//! A page: lent memory, and how far it is filled. What has no room is left out. It is no `fmt::Write`: a contract of
//! `write!` says nothing where that fails, and adding to a page can't fail.
ghost use Rattle.std.specs.Prelude.{◌≡◌, [], ◌∷◌, ◌<◌, ◌*◌, ◌/◌, ◌%◌, ◌^◌, min, length};
ghost use Rattle.text.specs.Text.{glyph, figures, decimal, named, spaced_bits};
ghost use Rattle.text.specs.Page.{Opened, Adds};

use crate::part::within;

#[derive(Drop)]
pub struct Page<'a> {
    pub room: &'a mut [u8],
    pub at: usize,
}

impl<'a> Page<'a> {
    // From a place on.
    pub fn new(at: usize, room: &'a mut [u8]) -> Page<'a>
        ensures { Opened at room.entry result }
    {
        Page { room, at }
    }

    // Behind what is filled, which is the end at most.
    pub fn place(&self) -> usize
        ensures { result ≡ min self.now.at (length self.now.room.now) }
    {
        within(self.at, self.room)
    }

    pub fn byte(&mut self, byte: u8)
        ensures { Adds (byte ∷ []) self.old self.new }
    {
        if self.at < self.room.len() {
            self.room[self.at] = byte;
            self.at += 1;
        }
    }

    pub fn text(&mut self, text: &[u8])
        ensures { Adds text.now self.old self.new }
    {
        for &byte in text {
            self.byte(byte);
        }
    }

    // The last digit behind those before it: 20 at most.
    pub fn decimal(&mut self, value: u64)
        ensures { Adds (decimal value) self.old self.new }
    {
        if value < 10 {
            self.byte(digit(value));
        } else {
            self.decimal(value / 10);
            self.byte(digit(value % 10));
        }
    }

    // A text, and a whole number behind it.
    pub fn named(&mut self, text: &[u8], value: u64)
        ensures { Adds (named text.now value) self.old self.new }
    {
        self.text(text);
        self.decimal(value);
    }

    // The value's low digits, so many.
    pub fn hex(&mut self, value: u64, digits: usize)
        ensures { Adds (figures 16 digits value) self.old self.new }
    {
        for behind in (0..digits).rev() {
            self.byte(hex_digit(value, behind));
        }
    }

    // A space, and the bits of a binary64.
    pub fn bits(&mut self, bits: u64)
        ensures { Adds (spaced_bits bits) self.old self.new }
    {
        self.byte(b' ');
        self.hex(bits, 16);
    }
}

// A digit below 16, in upper case.
fn digit(value: u64) -> u8
    requires { value < 16 }
    ensures { result ≡ glyph value }
{
    if 9 < value {
        b'A' - 10 + value as u8
    } else {
        b'0' + value as u8
    }
}

// The digit that so many follow.
fn hex_digit(value: u64, behind: usize) -> u8
    ensures { result ≡ glyph (value / 2 ^ (4 * behind) % 16) }
{
    if behind < 16 {
        digit((value >> (4 * behind)) % 16)
    } else {
        b'0'
    }
}
