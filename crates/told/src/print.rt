//! What the program prints: the account of a pack that is not too big for it.
ghost use Rattle.std.specs.Prelude.{◌≡◌, length};
ghost use Rattle.answers.specs.Listed.{written};
ghost use Rattle.answers.specs.Lent.{leaves};
ghost use Rattle.text.specs.Page.{Adds};
ghost use Rattle.lines.specs.Printed.{print_answer};
ghost use Rattle.told.specs.Printed.{printed, room};

use accounts::account::put_account;
use answers::Refusal;
use report::print::is_too_big;
use text::page::Page;

// Any text fits.
pub const ROOM: usize = 327_680;

fn put_printed(bytes: &[u8], page: &mut Page<'_>)
    ensures { Adds (printed bytes.now) page.old page.new }
{
    if is_too_big(bytes) {
        page.text(b"too big for this program\n");
    } else {
        put_account(true, bytes, page);
        page.byte(b'\n');
    }
}

// What is printed of the bytes, over the front of `out`. The frame is `print_pack`'s too: a function that takes what is
// put as a closure would be no plainer.
pub fn print_why(bytes: &[u8], out: &mut [u8]) -> Result<usize, Refusal>
    ensures { (written result ≡ print_answer room (printed bytes.now) (length out.old))
        × (out.new ≡ leaves (written result) (printed bytes.now) out.old) }
{
    if out.len() < ROOM {
        return Err(Refusal::BufferTooSmall {
            needed: ROOM,
            got: out.len(),
        });
    }
    let mut page = Page::new(0, out);
    put_printed(bytes, &mut page);
    Ok(page.place())
}
