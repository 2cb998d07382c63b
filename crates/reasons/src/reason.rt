//! Why a pack is refused: the rule, its place and the refusal, and a sentence in plain words.
ghost use Rattle.std.specs.Prelude.{◌≡◌};
ghost use Rattle.answers.specs.Listed.{listed};
ghost use Rattle.layout.specs.Header.{header_of};
ghost use Rattle.text.specs.Page.{Adds};
ghost use Rattle.reasons.specs.Reason.{letter_of, ruled_text, sentence_for, facts_by, reason_text};

use crate::sentence::{Facts, put_sentence};
use answers::Refusal;
use answers::row::row_of;
use layout::header::read_header;
use layout::rule::Rule;
use layout::triangle::corr_slots;
use lines::refusal::put_refused;
use text::page::Page;

fn letter_of(rule: Rule) -> u8
    ensures { result ≡ letter_of rule }
{
    match rule {
        Rule::A => b'a',
        Rule::B => b'b',
        Rule::C => b'c',
        Rule::D => b'd',
        Rule::E => b'e',
        Rule::F => b'f',
        Rule::G => b'g',
        Rule::H => b'h',
        Rule::I => b'i',
        Rule::J => b'j',
        Rule::K => b'k',
    }
}

fn put_ruled(rule: Rule, place: usize, refusal: Refusal, page: &mut Page<'_>)
    ensures { Adds (ruled_text rule place (listed refusal)) page.old page.new }
{
    page.text(b"rule ");
    page.byte(letter_of(rule));
    page.named(b" ", place as u64);
    page.byte(b' ');
    put_refused(refusal, page);
}

// The sentence for a rule and the number of its refusal: h) has two, and j) three. A number: its place in the table.
fn sentence_for(rule: Rule, number: u64) -> usize
    ensures { result ≡ sentence_for rule number }
{
    match rule {
        Rule::A => 0,
        Rule::B => 1,
        Rule::C => 2,
        Rule::D => 3,
        Rule::E => 4,
        Rule::F => 5,
        Rule::G => 6,
        Rule::H => { if number == 1 { 7 } else { 8 } }
        Rule::I => 9,
        Rule::J => {
            if number == 1 {
                10
            } else if number == 4 {
                11
            } else {
                12
            }
        }
        Rule::K => 13,
    }
}

// What the sentences speak of: the header where it can be read, and the refusal's numbers.
fn facts_of(bytes: &[u8], refusal: Refusal) -> Facts
    ensures { result ≡ facts_by (header_of bytes.now) (listed refusal) }
{
    let row = row_of(refusal);
    let values = row.values;
    let Ok(head) = read_header(bytes) else {
        return Facts {
            rows: 0,
            slots: 0,
            slen: 0,
            clen: 0,
            first: values[0],
            second: values[1],
            third: values[2],
        };
    };
    Facts {
        rows: head.n as u64,
        slots: corr_slots(head.n),
        slen: head.control.slen as u64,
        clen: head.control.clen as u64,
        first: values[0],
        second: values[1],
        third: values[2],
    }
}

// The sentence has a line of its own, where parts have.
pub fn put_reason(
    lines: bool,
    bytes: &[u8],
    rule: Rule,
    place: usize,
    refusal: Refusal,
    page: &mut Page<'_>,
)
    ensures { Adds (reason_text lines bytes.now rule place (listed refusal))
        page.old page.new }
{
    put_ruled(rule, place, refusal, page);
    if lines {
        let row = row_of(refusal);
        let facts = facts_of(bytes, refusal);
        page.byte(b'\n');
        put_sentence(sentence_for(rule, row.number), facts, page);
    }
}
