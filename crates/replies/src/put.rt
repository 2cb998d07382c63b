//! A reply as text: its form's letters up to the end, each itself or the value that it stands for.
ghost use Rattle.std.specs.Prelude.{◌≡◌};
ghost use Rattle.text.specs.Page.{Adds};
ghost use Rattle.replies.specs.ReplyText.{value_of, hex_digits, value_text, letter_text, is_end, reply_text};

use crate::forms::{WIDTH, is_field, letter};
use crate::reply::Reply;
use text::page::Page;

fn value(reply: Reply, letter: u8) -> u64
    ensures { result ≡ value_of reply letter }
{
    match letter {
        b'B' | b'X' => reply.b,
        b'C' | b'Y' => reply.c,
        b'D' | b'Z' => reply.d,
        _ => reply.a,
    }
}

// How many hex digits a value has; one in decimal has none.
fn hex_digits(letter: u8) -> usize
    ensures { result ≡ hex_digits letter }
{
    match letter {
        b'W' => 8,
        b'X'..=b'Z' => 16,
        _ => 0,
    }
}

fn put_value(letter: u8, value: u64, page: &mut Page<'_>)
    ensures { Adds (value_text letter value) page.old page.new }
{
    let digits = hex_digits(letter);
    if 0 < digits {
        page.hex(value, digits);
    } else {
        page.decimal(value);
    }
}

fn put_letter(letter: u8, value: u64, page: &mut Page<'_>)
    ensures { Adds (letter_text letter value) page.old page.new }
{
    if is_field(letter) {
        put_value(letter, value, page);
    } else {
        page.byte(letter);
    }
}

fn ends(letter: u8) -> bool
    ensures { result ≡ is_end letter }
{
    match letter {
        b',' | b'.' => true,
        _ => false,
    }
}

pub fn put_reply(reply: Reply, page: &mut Page<'_>)
    ensures { Adds (reply_text reply) page.old page.new }
{
    for i in 0..WIDTH {
        let letter = letter(reply.form, i);
        if ends(letter) {
            return;
        }
        put_letter(letter, value(reply, letter), page);
    }
}
