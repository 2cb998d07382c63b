//! Numbers in a line, each behind a space.
ghost use Rattle.std.specs.Prelude.{take};
ghost use Rattle.answers.specs.Row.{floats64};
ghost use Rattle.answers.specs.Table.{whole, bits64, wholes, pick};
ghost use Rattle.text.specs.Page.{Adds};
ghost use Rattle.lines.specs.Lines.{entry_text, entries, numbers};

use text::page::Page;
use text::part::within;

// In decimal, or as the bits of a binary64, by the row's flag (`Row`).
fn put_value(value: u64, floats: bool, page: &mut Page<'_>)
    ensures { Adds (entry_text (pick floats (bits64 value) (whole value))) page.old page.new }
{
    if floats {
        page.bits(value);
    } else {
        page.named(b" ", value);
    }
}

// The first `count` of them, or all: three and a count, as a row has them.
pub fn put_entries(count: usize, values: [u64; 3], floats: bool, page: &mut Page<'_>)
    ensures { Adds (entries (pick floats (floats64 (take count values)) (wholes (take count values))))
        page.old page.new }
{
    let most = within(count, &values);
    for &value in &values[..most] {
        put_value(value, floats, page);
    }
}

// In decimal.
pub fn put_values(count: usize, values: [u64; 3], page: &mut Page<'_>)
    ensures { Adds (numbers (take count values)) page.old page.new }
{
    put_entries(count, values, false, page);
}
