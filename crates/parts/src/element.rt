//! The elements of a pack, a part of the text for each.
ghost use Rattle.std.specs.Prelude.{◌++◌};
ghost use Rattle.text.specs.Page.{Adds};
ghost use Rattle.parts.specs.Parts.{gap, span_text, elements_text};

use explain::spans::{Elements, Span};
use lines::values::put_values;
use text::page::Page;

// What stands before a part: it has a line of its own, or is behind a `;`. A flag, which decides a byte here and what
// is left out elsewhere: a closure for it would be no plainer.
pub fn put_gap(lines: bool, page: &mut Page<'_>)
    ensures { Adds (gap lines) page.old page.new }
{
    if lines {
        page.byte(b'\n');
    } else {
        page.byte(b';');
    }
}

fn put_span(lines: bool, name: &[u8], span: Span, page: &mut Page<'_>)
    ensures { Adds (gap lines ++ span_text name.now span) page.old page.new }
{
    put_gap(lines, page);
    page.text(name);
    put_values(2, [span.start as u64, span.end as u64, 0], page);
}

pub fn put_elements(lines: bool, elements: Elements, page: &mut Page<'_>)
    ensures { Adds (elements_text lines elements) page.old page.new }
{
    put_span(lines, b"n", elements.n, page);
    put_span(lines, b"control", elements.control, page);
    put_span(lines, b"vector", elements.vector, page);
    put_span(lines, b"deviations", elements.deviations, page);
    put_span(lines, b"codes", elements.codes, page);
}
