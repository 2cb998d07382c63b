//! What the program prints.
ghost use Rattle.std.specs.Prelude.{◌≡◌, length};
ghost use Rattle.answers.specs.Listed.{written};
ghost use Rattle.answers.specs.Lent.{leaves};
ghost use Rattle.text.specs.Page.{Adds};
ghost use Rattle.lines.specs.Printed.{print_answer};
ghost use Rattle.report.specs.Printed.{is_too_big, read_lines, printed, room};

use crate::answer::put_answer;
use answers::Refusal;
use layout::size::peek_matrix_size;
use text::page::Page;
use text::room::room_of;

// The most that is read: so many bytes, and so many rows with their slots.
const MAX_BYTES: usize = 20_480;

const MAX_ROWS: usize = 64;

const MAX_SLOTS: usize = 2016;

// Any text fits.
const ROOM: usize = 65_536;

// The bounds of the programs that print a pack.
pub fn is_too_big(bytes: &[u8]) -> bool
    ensures { result ≡ is_too_big bytes.now }
{
    MAX_BYTES < bytes.len() || peek_matrix_size(bytes).is_some_and(|n| MAX_ROWS < n as usize)
}

// The reader's answer, where it is lent room for so many rows.
fn put_read(bytes: &[u8], page: &mut Page<'_>)
    ensures { Adds (read_lines bytes.now) page.old page.new }
{
    let mut deviations: [u64; MAX_ROWS] = room_of(0);
    let mut correlations: [u64; MAX_SLOTS] = room_of(0);
    let mut states: [u8; MAX_SLOTS] = room_of(0);
    put_answer(bytes, &mut deviations, &mut correlations, &mut states, page);
}

fn put_printed(bytes: &[u8], page: &mut Page<'_>)
    ensures { Adds (printed bytes.now) page.old page.new }
{
    if is_too_big(bytes) {
        page.text(b"too big for this program\n");
    } else {
        put_read(bytes, page);
    }
}

// What is printed for the pack that the bytes are, over the front of `out`.
pub fn print_pack(bytes: &[u8], out: &mut [u8]) -> Result<usize, Refusal>
    ensures { (written result ≡ print_answer room (printed bytes.now) (length out.old))
        × (out.new ≡ leaves (written result) (printed bytes.now) out.old) }
{
    if out.len() < ROOM {
        return Err(Refusal::BufferTooSmall {
            needed: ROOM,
            got: out.len(),
        });
    }
    let mut page = Page::new(0, out);
    put_printed(bytes, &mut page);
    Ok(page.place())
}
