//! The body of a file, written row by row: each slot stands in it twice.
ghost use Rattle.std.specs.Prelude.{◌≡◌, ◌+◌, ◌-◌, ◌*◌, ◌≤◌, ◌<◌, length};
ghost use Rattle.std.proofs.lemmas.List.Edits.{sets};
ghost use Rattle.numbers.specs.Words.{low_bytes_of};
ghost use Rattle.layout.specs.Triangle.{slots_of, slot_of};
ghost use Rattle.npy_header.specs.Header.{header_length};
ghost use Rattle.npy_export.specs.File.{file_length, row_bytes, body_of};
ghost use Rattle.npy_export.specs.Parts.{left_bytes, right_bytes};

use npy_header::header::HEADER_LENGTH;
use numbers::words::write_le;

// An entry from a place on: a binary64 by its bits, low byte first. No page is taken here or below: whatever is written
// is proved to fit, and a row's facts are asked for where it is written, since a type of them would serve one call.
fn put_entry(bits: u64, at: usize, out: &mut [u8])
    requires { at + 8 ≤ length out.old }
    ensures { out.new ≡ sets out.old at (low_bytes_of 8 bits) }
{
    let end = at + 8;
    write_le(bits, &mut out[at..end]);
}

// Row i before the diagonal: column i of the rows above, whose slots lie one closer in each row.
fn put_left(i: usize, rows: usize, correlations: &[u64], at: usize, out: &mut [u8])
    requires { (i < rows) × (slots_of rows ≤ length correlations.now) × (at + 8 * i ≤ length out.old) }
    ensures { out.new
        ≡ sets out.old at (left_bytes rows correlations.now i) }
{
    // one behind slot (j, i), and from there to the one behind slot (j + 1, i) one less than the step
    let mut behind = i;
    let mut step = rows - 1;
    let mut next = at;
    for _ in 0..i {
        put_entry(correlations[behind - 1], next, out);
        step -= 1;
        behind += step;
        next += 8;
    }
}

// Row i behind the diagonal: its own slots, of which the first is given.
fn put_right(i: usize, rows: usize, first: usize, correlations: &[u64], at: usize, out: &mut [u8])
    requires { (i < rows) × (slots_of rows ≤ length correlations.now) × (first ≡ slot_of rows i (i + 1))
        × (at + 8 * (rows - 1 - i) ≤ length out.old) }
    ensures { out.new
        ≡ sets out.old at (right_bytes rows correlations.now i) }
{
    let count = rows - 1 - i;
    let mut next = at;
    for &correlation in &correlations[first..first + count] {
        put_entry(correlation, next, out);
        next += 8;
    }
}

// Row i, its deviation on the diagonal.
fn put_row(
    i: usize,
    rows: usize,
    first: usize,
    deviations: &[u64],
    correlations: &[u64],
    at: usize,
    out: &mut [u8],
)
    requires { (i < rows) × (rows ≤ length deviations.now) × (slots_of rows ≤ length correlations.now)
        × (first ≡ slot_of rows i (i + 1)) × (at + 8 * rows ≤ length out.old) }
    ensures { out.new
        ≡ sets out.old at (row_bytes rows deviations.now correlations.now i) }
{
    put_left(i, rows, correlations, at, out);
    let diagonal = at + 8 * i;
    put_entry(deviations[i], diagonal, out);
    put_right(i, rows, first, correlations, diagonal + 8, out);
}

// All rows; the first slot of each is carried along.
pub(crate) fn put_body(rows: usize, deviations: &[u64], correlations: &[u64], out: &mut [u8])
    requires { (rows ≤ length deviations.now) × (slots_of rows ≤ length correlations.now)
        × (file_length rows ≤ length out.old) }
    ensures { out.new
        ≡ sets out.old header_length (body_of rows deviations.now correlations.now) }
{
    let mut first: usize = 0;
    let mut at = HEADER_LENGTH;
    for i in 0..rows {
        put_row(i, rows, first, deviations, correlations, at, out);
        first += rows - 1 - i;
        at += 8 * rows;
    }
}
