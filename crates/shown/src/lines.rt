//! The lines of a pack behind its reply, each behind a `;`: an s for each deviation, then a c for each slot.
ghost use Rattle.std.specs.Prelude.{◌≡◌, ◌+◌, ◌<◌, ◌^◌};
ghost use Rattle.text.specs.Page.{Adds};
ghost use Rattle.shown.specs.Lines.{deviation_reply, deviation_lines, slot_reply, next_pair, slot_lines};

use replies::forms::{DEVIATION, SLOT};
use replies::put::put_reply;
use replies::reply::Reply;
use text::page::Page;
use text::part::within;

fn deviation(row: usize, bits: u64) -> Reply
    ensures { result ≡ deviation_reply row bits }
{
    Reply {
        form: DEVIATION,
        a: row as u64,
        b: bits,
        c: 0,
        d: 0,
    }
}

// As many as there are, up to a count.
pub fn put_deviations(count: usize, deviations: &[u64], page: &mut Page<'_>)
    ensures { Adds (deviation_lines count deviations.now) page.old page.new }
{
    let end = within(count, deviations);
    for (i, &bits) in deviations[..end].iter().enumerate() {
        put_reply(deviation(i, bits), page);
    }
}

// Where a slot stands.
#[derive(Clone, Copy, Debug, PartialEq, Eq)]
pub(crate) struct Pair {
    pub(crate) i: u64,
    pub(crate) j: u64,
}

// The pair after it, row by row.
fn next_pair(pair: Pair, rows: u64) -> Pair
    requires { (pair.i + 2 < 2 ^ 64) × (pair.j + 1 < 2 ^ 64) }
    ensures { result ≡ next_pair rows pair }
{
    let right = pair.j + 1;
    if right < rows {
        return Pair {
            i: pair.i,
            j: right,
        };
    }
    Pair {
        i: pair.i + 1,
        j: pair.i + 2,
    }
}

fn slot(pair: Pair, state: u8, bits: u64) -> Reply
    ensures { result ≡ slot_reply pair state bits }
{
    Reply {
        form: SLOT,
        a: pair.i,
        b: pair.j,
        c: state as u64,
        d: bits,
    }
}

// As many as there are, up to a count, of a matrix of so many rows.
pub fn put_slots(rows: u64, count: usize, correlations: &[u64], states: &[u8], page: &mut Page<'_>)
    ensures { Adds (slot_lines rows count correlations.now states.now)
        page.old page.new }
{
    let held = within(count, correlations);
    let mut pair = Pair { i: 0, j: 1 };
    for (&bits, &state) in correlations[..held].iter().zip(states) {
        put_reply(slot(pair, state, bits), page);
        pair = next_pair(pair, rows);
    }
}
