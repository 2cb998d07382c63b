//! A sentence as text: its letters up to the end, each itself or the number that it stands for.
ghost use Rattle.std.specs.Prelude.{◌≡◌};
ghost use Rattle.text.specs.Page.{Adds};
ghost use Rattle.reasons.specs.Sentences.{is_field, value_of, letter_text, sentence_text};

use crate::table::{WIDTH, letter};
use text::page::Page;

// What the letters of a sentence stand for.
#[derive(Clone, Copy, Debug, PartialEq, Eq)]
pub(crate) struct Facts {
    // N: the rows of the matrix
    pub(crate) rows: u64,
    // M: the slots of the matrix
    pub(crate) slots: u64,
    // S: the length of a deviation
    pub(crate) slen: u64,
    // L: the length of a correlation
    pub(crate) clen: u64,
    // P: the first number that the refusal carries
    pub(crate) first: u64,
    // Q: the second
    pub(crate) second: u64,
    // R: the third
    pub(crate) third: u64,
}

// L, M, N, P, Q, R and S.
fn is_field(letter: u8) -> bool
    ensures { result ≡ is_field letter }
{
    match letter {
        b'L'..=b'N' => true,
        b'P'..=b'S' => true,
        _ => false,
    }
}

fn value(facts: Facts, letter: u8) -> u64
    ensures { result ≡ value_of facts letter }
{
    match letter {
        b'N' => facts.rows,
        b'M' => facts.slots,
        b'S' => facts.slen,
        b'L' => facts.clen,
        b'P' => facts.first,
        b'Q' => facts.second,
        _ => facts.third,
    }
}

fn put_letter(letter: u8, value: u64, page: &mut Page<'_>)
    ensures { Adds (letter_text letter value) page.old page.new }
{
    if is_field(letter) {
        page.decimal(value);
    } else {
        page.byte(letter);
    }
}

pub(crate) fn put_sentence(sentence: usize, facts: Facts, page: &mut Page<'_>)
    ensures { Adds (sentence_text sentence facts) page.old page.new }
{
    for i in 0..WIDTH {
        let letter = letter(sentence, i);
        if letter == b'|' {
            return;
        }
        put_letter(letter, value(facts, letter), page);
    }
}
