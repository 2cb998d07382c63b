//! The slots of a pack, row by row.
ghost use Rattle.std.specs.Prelude.{◌≡◌, ◌+◌, ◌-◌, ◌<◌};
ghost use Rattle.layout.specs.Triangle.{slot_of};
ghost use Rattle.explain.specs.Slots.{code_at};
ghost use Rattle.text.specs.Page.{Adds};
ghost use Rattle.accounts.specs.Account.{row_text, slots_text};
ghost use Rattle.accounts.specs.Held.{Told};

use explain::slot::{behind, slot_code};
use layout::header::Head;
use parts::slot::put_slot;
use text::page::Page;

// The slots of row i, whose first is `first` and whose first code starts at `start`, facts of this call alone and so no
// type; the answer is where the code behind them starts.
fn put_row(
    lines: bool,
    bytes: &[u8],
    head: Head,
    i: usize,
    first: usize,
    start: usize,
    page: &mut Page<'_>,
) -> usize
    requires { Told bytes.now head × (i < head.n) × (first ≡ slot_of head.n i (i + 1))
        × (start ≡ code_at bytes.now head first) }
    ensures { Adds (row_text lines bytes.now head i) page.old page.new
        × (result ≡ code_at bytes.now head (first + (head.n - 1 - i))) }
{
    let rows = head.n as usize;
    let mut code = start;
    for j in i + 1..rows {
        let slot = first + (j - 1 - i);
        let told = slot_code(bytes, head, slot, code);
        put_slot(lines, bytes, i as u64, j as u64, told, page);
        code = behind(code, told);
    }
    code
}

// Row by row; the first slot of each row and the place of its first code are carried along.
pub(crate) fn put_slots(lines: bool, bytes: &[u8], head: Head, start: usize, page: &mut Page<'_>)
    requires { Told bytes.now head × (start ≡ code_at bytes.now head 0) }
    ensures { Adds (slots_text lines bytes.now head) page.old page.new }
{
    let rows = head.n as usize;
    let mut code = start;
    let mut first: usize = 0;
    for i in 0..rows {
        code = put_row(lines, bytes, head, i, first, code, page);
        first += rows - 1 - i;
    }
}
