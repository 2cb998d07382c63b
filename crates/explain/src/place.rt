//! Where a pack breaks the rule that refuses it.
ghost use Rattle.std.specs.Prelude.{◌≡◌, ◌<◌, length, get_or};
ghost use Rattle.answers.specs.Table.{plains};
ghost use Rattle.answers.specs.Listed.{listed};
ghost use Rattle.layout.specs.Header.{body_at, head_rules};
ghost use Rattle.layout.specs.Ruled.{refused_by};
ghost use Rattle.elements.specs.Elements.{head_of, places_of};
ghost use Rattle.rules.specs.Named.{rank, pack_ruled};
ghost use Rattle.explain.specs.Explained.{place_of};
ghost use Rattle.explain.specs.Found.{stopped_at};

use crate::spans::control_at;
use answers::Refusal;
use answers::row::row_of;
use elements::head::{Places, open_pack};
use elements::number::left;
use layout::header::read_header;
use layout::rule::Rule;

// The start of the first value that is refused, of those from a place on: one that is short reaches to the end.
fn value_at(bytes: &[u8], start: usize, refusal: Refusal) -> usize
    ensures { result ≡ stopped_at (length bytes.now) start (listed refusal) }
{
    let row = row_of(refusal);
    let values = row.values;
    if row.number == 1 {
        left(bytes, values[1] as usize)
    } else {
        start
    }
}

// The bytes that were used, which a pack with bytes left over is refused with.
fn used_by(refusal: Refusal) -> usize
    ensures { result ≡ get_or (plains (listed refusal).carries) 0 0 }
{
    let row = row_of(refusal);
    let values = row.values;
    values[0] as usize
}

// h) to k).
fn place_behind(bytes: &[u8], places: Places, rule: Rule, refusal: Refusal) -> usize
    requires { (pack_ruled bytes.now ≡ refused_by rule (listed refusal)) × (6 < rank rule)
        × (places ≡ places_of (head_of bytes.now)) }
    ensures { result ≡ place_of bytes.now rule }
{
    match rule {
        Rule::H => value_at(bytes, places.deviations, refusal),
        Rule::I => places.codes,
        Rule::J => value_at(bytes, places.codes, refusal),
        _ => used_by(refusal),
    }
}

// The byte after the control.
fn body_at(bytes: &[u8]) -> usize
    requires { (head_rules bytes.now).number ≡ 0 }
    ensures { result ≡ body_at bytes.now }
{
    read_header(bytes).unwrap().body
}

pub(crate) fn place_of(bytes: &[u8], rule: Rule, refusal: Refusal) -> usize
    requires { pack_ruled bytes.now ≡ refused_by rule (listed refusal) }
    ensures { result ≡ place_of bytes.now rule }
{
    match rule {
        Rule::A | Rule::D => 0,
        Rule::B | Rule::C => control_at(bytes),
        Rule::E | Rule::F | Rule::G => body_at(bytes),
        _ => {
            let opened = open_pack(bytes);
            // never: a) to g) pass
            let Ok(places) = opened else {
                return 0;
            };
            place_behind(bytes, places, rule, refusal)
        }
    }
}
