//! The end of an answer: whether a function changed what it was to leave.
ghost use Rattle.text.specs.Page.{Adds};
ghost use Rattle.shown.specs.Touched.{touched_text};

use replies::forms::{EMPTY, TOUCHED};
use replies::put::put_reply;
use replies::reply::words;
use text::page::Page;

// A flag, which is all that is said.
pub fn put_touched(changed: bool, page: &mut Page<'_>)
    ensures { Adds (touched_text changed) page.old page.new }
{
    if changed {
        put_reply(words(TOUCHED), page);
    } else {
        put_reply(words(EMPTY), page);
    }
}
