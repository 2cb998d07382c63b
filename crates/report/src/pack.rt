//! The lines of a pack that was read: n, then an s for each deviation, then a c for each slot.
ghost use Rattle.std.specs.Prelude.{◌≡◌, ◌+◌, ◌≤◌, ◌<◌, length};
ghost use Rattle.layout.specs.Triangle.{slots_of, slot_of};
ghost use Rattle.text.specs.Page.{Adds};
ghost use Rattle.report.specs.Lines.{row_lines, slot_lines, Held, held_lines};

use layout::pack::SdccFlp;
use lines::line::{put_counts, put_line, put_rows};
use text::page::Page;

// The slots of row i, whose first is `first`. What is asked of a row is no type: it would be made for this call alone.
fn put_row(
    i: usize,
    rows: usize,
    first: usize,
    correlations: &[u64],
    states: &[u8],
    page: &mut Page<'_>,
)
    requires { (i < rows) × (first ≡ slot_of rows i (i + 1))
        × (slots_of rows ≤ length correlations.now) × (slots_of rows ≤ length states.now) }
    ensures { Adds (row_lines rows correlations.now states.now i)
        page.old page.new }
{
    for j in i + 1..rows {
        let slot = first + (j - 1 - i);
        let values = [i as u64, j as u64, states[slot] as u64];
        put_line(b'c', 3, values, correlations[slot], page);
    }
}

// Row by row; the first slot of each row is carried along.
fn put_slots(rows: usize, correlations: &[u64], states: &[u8], page: &mut Page<'_>)
    requires { (slots_of rows ≤ length correlations.now) × (slots_of rows ≤ length states.now) }
    ensures { Adds (slot_lines rows correlations.now states.now)
        page.old page.new }
{
    let mut first: usize = 0;
    for i in 0..rows {
        put_row(i, rows, first, correlations, states, page);
        first += rows - 1 - i;
    }
}

// All of them: the pack's numbers stand at the front of the rooms.
pub(crate) fn put_pack(
    pack: SdccFlp,
    deviations: &[u64],
    correlations: &[u64],
    states: &[u8],
    page: &mut Page<'_>,
)
    requires { Held pack deviations.now correlations.now states.now }
    ensures { Adds (held_lines pack deviations.now correlations.now states.now)
        page.old page.new }
{
    let rows = pack.matrix_size as usize;
    let count = pack.deviations;
    put_counts(rows, count, pack.slots, page);
    put_rows(&deviations[..count], page);
    put_slots(rows, correlations, states, page);
}
