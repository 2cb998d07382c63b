//! Bytes behind a reply: those that were written, in hex, or a text.
ghost use Rattle.std.specs.Prelude.{◌≡◌};
ghost use Rattle.text.specs.Page.{Adds};
ghost use Rattle.shown.specs.Bytes.{of_text, byte_text, bytes_text};

use replies::forms::DONE;
use text::page::Page;

// A byte of a text: lines are joined by `;`.
fn of_text(byte: u8) -> u8
    ensures { result ≡ of_text byte }
{
    if byte == b'\n' { b';' } else { byte }
}

// A byte of what is done is in hex; any other is of a text.
fn put_shown(form: usize, byte: u8, page: &mut Page<'_>)
    ensures { Adds (byte_text form byte) page.old page.new }
{
    if form == DONE {
        page.hex(byte as u64, 2);
    } else {
        page.byte(of_text(byte));
    }
}

pub fn put_bytes(form: usize, bytes: &[u8], page: &mut Page<'_>)
    ensures { Adds (bytes_text form bytes.now) page.old page.new }
{
    for &byte in bytes {
        put_shown(form, byte, page);
    }
}
