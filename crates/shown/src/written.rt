//! What a function that writes into lent bytes answers, and what it leaves there.
ghost use Rattle.std.specs.Prelude.{◌≡◌};
ghost use Rattle.text.specs.Page.{Adds};
ghost use Rattle.shown.specs.Written.{written_text};

use crate::bytes::put_bytes;
use crate::touched::put_touched;
use answers::Refusal;
use replies::outcome::of_written;
use replies::put::put_reply;
use text::marks::changed;
use text::page::Page;
use text::part::within;

// The form is that of what is done. No code and no pack is empty, so that it has digits.
pub fn put_written(form: usize, written: Result<usize, Refusal>, lent: &[u8], page: &mut Page<'_>)
    ensures { Adds (written_text form written lent.now)
        page.old page.new }
{
    let count = within(written.unwrap_or(0), lent);
    put_reply(of_written(form, written), page);
    put_bytes(form, &lent[..count], page);
    let touched = changed(lent, count, lent.len() as u64);
    put_touched(touched, page);
}
