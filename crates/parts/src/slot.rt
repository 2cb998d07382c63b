//! One slot of a pack, a part of the text.
ghost use Rattle.std.specs.Prelude.{◌≡◌, ◌++◌, get_or};
ghost use Rattle.text.specs.Page.{Adds};
ghost use Rattle.parts.specs.Parts.{gap, hex_text, present_text, slot_text};

use crate::element::put_gap;
use explain::slot::SlotCode;
use explain::spans::Span;
use lines::values::put_values;
use text::page::Page;

// The byte at a place, and 0 past the end.
fn byte_at(bytes: &[u8], i: usize) -> u64
    ensures { result ≡ get_or bytes.now i 0 }
{
    if i < bytes.len() { bytes[i] as u64 } else { 0 }
}

// Two hex digits to a byte.
fn put_bytes(bytes: &[u8], span: Span, page: &mut Page<'_>)
    ensures { Adds (hex_text bytes.now span) page.old page.new }
{
    for i in span.start..span.end {
        page.hex(byte_at(bytes, i), 2);
    }
}

// Where the code stands and, on a line of its own, its bytes.
fn put_present(lines: bool, bytes: &[u8], span: Span, page: &mut Page<'_>)
    ensures { Adds (present_text lines bytes.now span) page.old page.new }
{
    put_values(2, [span.start as u64, span.end as u64, 0], page);
    if lines {
        page.byte(b' ');
        put_bytes(bytes, span, page);
    }
}

// The slot of (i, j).
pub fn put_slot(
    lines: bool,
    bytes: &[u8],
    i: u64,
    j: u64,
    code: Option<SlotCode>,
    page: &mut Page<'_>,
)
    ensures { Adds (gap lines ++ slot_text lines bytes.now i j code)
        page.old page.new }
{
    put_gap(lines, page);
    page.text(b"slot");
    match code {
        None => {
            put_values(3, [i, j, 0], page);
            page.text(b" absent");
        }
        Some(code) => {
            put_values(3, [i, j, code.state as u64], page);
            put_present(lines, bytes, code.span, page);
        }
    }
}
