//! The request for what the program `sdcc` writes: print.

use answers::Refusal;
use replies::forms::EMPTY;
use report::print::print_pack;
use shown::written::put_written;
use text::marks::Marked;
use text::page::Page;
use text::room::room_of;

// What any text has room in, and more, so that what stands past it shows.
const TEXT: usize = 66_000;

// A call of its own, so that what its contract says is weighed once.
fn print(pack: &[u8], text: &mut [u8]) -> Result<usize, Refusal> {
    print_pack(pack, text)
}

pub(crate) fn put_print(pack: &[u8], page: &mut Page<'_>) {
    let mut text: [u8; TEXT] = room_of(u8::MARK);
    let printed = print(pack, &mut text);
    put_written(EMPTY, printed, &text, page);
}
