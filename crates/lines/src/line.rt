//! The lines of numbers that were read: n, the line of a number's bits, and an s for each deviation.
ghost use Rattle.std.specs.Prelude.{[], ◌∷◌, take};
ghost use Rattle.text.specs.Page.{Adds};
ghost use Rattle.lines.specs.Lines.{n_line, bits_line, deviation_lines};

use crate::values::put_values;
use text::page::Page;

// N, the deviation count and M.
pub fn put_counts(rows: usize, deviations: usize, slots: usize, page: &mut Page<'_>)
    ensures { Adds (n_line rows deviations slots) page.old page.new }
{
    page.named(b"n ", rows as u64);
    page.named(b" deviations ", deviations as u64);
    page.named(b" slots ", slots as u64);
    page.text(b"\n");
}

// A letter, the first `count` of the values, or all, and the bits of a binary64.
pub fn put_line(letter: u8, count: usize, values: [u64; 3], bits: u64, page: &mut Page<'_>)
    ensures { Adds (bits_line (letter ∷ []) (take count values) bits) page.old page.new }
{
    page.byte(letter);
    put_values(count, values, page);
    page.bits(bits);
    page.byte(b'\n');
}

// A line for each deviation.
pub fn put_rows(deviations: &[u64], page: &mut Page<'_>)
    ensures { Adds (deviation_lines deviations.now) page.old page.new }
{
    for (i, &bits) in deviations.iter().enumerate() {
        put_line(b's', 1, [i as u64, 0, 0], bits, page);
    }
}
