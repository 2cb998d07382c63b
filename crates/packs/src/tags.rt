//! The tags that a pack refines.
ghost use Rattle.text.specs.Page.{Adds};
ghost use Rattle.lines.specs.Lines.{numbers};
ghost use Rattle.packs.specs.Lines.{tags_text};

use text::page::Page;

// Each behind a space.
fn put_each(tags: &[u32], page: &mut Page<'_>)
    ensures { Adds (numbers tags.now) page.old page.new }
{
    for &tag in tags {
        page.named(b" ", tag as u64);
    }
}

// All of them, or `-` where there are none.
pub fn put_tags(tags: &[u32], page: &mut Page<'_>)
    ensures { Adds (tags_text tags.now) page.old page.new }
{
    page.text(b"tags");
    if tags.len() == 0 {
        page.text(b" -");
    } else {
        put_each(tags, page);
    }
}
