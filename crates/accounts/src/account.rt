//! The whole account of a pack.
ghost use Rattle.std.specs.Prelude.{◌≡◌};
ghost use Rattle.elements.specs.Elements.{head_of};
ghost use Rattle.layout.specs.Ruled.{passed};
ghost use Rattle.rules.specs.Named.{pack_ruled};
ghost use Rattle.explain.specs.Spans.{elements_of};
ghost use Rattle.text.specs.Page.{Adds};
ghost use Rattle.accounts.specs.Account.{accepted_text, account_text};

use crate::slots::put_slots;
use explain::explain::explain;
use explain::spans::Elements;
use layout::header::Head;
use parts::element::put_elements;
use reasons::reason::put_reason;
use text::page::Page;

// A pack that is accepted: its length, its elements and its slots.
fn put_accepted(lines: bool, bytes: &[u8], head: Head, elements: Elements, page: &mut Page<'_>)
    requires { (pack_ruled bytes.now ≡ passed) × (head ≡ head_of bytes.now)
        × (elements ≡ elements_of bytes.now) }
    ensures { Adds (accepted_text lines bytes.now head elements) page.old page.new }
{
    page.named(b"accepted ", bytes.len() as u64);
    put_elements(lines, elements, page);
    put_slots(lines, bytes, head, elements.codes.start, page);
}

// What is told of the bytes: a part to a line, with the bytes of codes and a sentence, for people; or parts joined by
// `;` without them.
pub fn put_account(lines: bool, bytes: &[u8], page: &mut Page<'_>)
    ensures { Adds (account_text lines bytes.now) page.old page.new }
{
    match explain(bytes) {
        Ok(pack) => put_accepted(lines, bytes, pack.head, pack.elements, page),
        Err(pack) => put_reason(lines, bytes, pack.rule, pack.place, pack.refusal, page),
    }
}
