//! The line of a refusal: its number and what it carries.
ghost use Rattle.answers.specs.Listed.{listed};
ghost use Rattle.text.specs.Page.{Adds};
ghost use Rattle.lines.specs.Lines.{refused_text, refused_line};

use crate::values::put_entries;
use answers::Refusal;
use answers::row::row_of;
use text::page::Page;

// Document 01's number and values.
pub fn put_refused(refusal: Refusal, page: &mut Page<'_>)
    ensures { Adds (refused_text (listed refusal)) page.old page.new }
{
    let row = row_of(refusal);
    page.named(b"refused ", row.number);
    put_entries(row.count, row.values, row.floats, page);
}

// As a line.
pub fn put_refusal(refusal: Refusal, page: &mut Page<'_>)
    ensures { Adds (refused_line (listed refusal)) page.old page.new }
{
    put_refused(refusal, page);
    page.byte(b'\n');
}
