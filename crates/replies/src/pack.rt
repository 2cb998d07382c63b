//! The replies on a pack: its size, its counts, and the cells of its matrix.
ghost use Rattle.std.specs.Prelude.{◌≡◌};
ghost use Rattle.replies.specs.Replies.{peek_reply, read_reply, cell_reply, usable_reply};

use crate::forms::{COUNTS, NO, NOTHING, NUMBER, SIZE, YES};
use crate::refusal::refused;
use crate::reply::{Reply, one, words};
use answers::Refusal;
use layout::pack::SdccFlp;

pub fn of_peek(peek: Option<u32>) -> Reply
    ensures { result ≡ peek_reply peek }
{
    match peek {
        Some(n) => one(SIZE, n as u64),
        None => words(NOTHING),
    }
}

pub fn of_read(read: Result<SdccFlp, Refusal>) -> Reply
    ensures { result ≡ read_reply read }
{
    match read {
        Ok(pack) => Reply {
            form: COUNTS,
            a: pack.matrix_size,
            b: pack.deviations as u64,
            c: pack.slots as u64,
            d: 0,
        },
        Err(refusal) => refused(refusal),
    }
}

pub fn of_cell(cell: Result<u64, Refusal>) -> Reply
    ensures { result ≡ cell_reply cell }
{
    match cell {
        Ok(bits) => one(NUMBER, bits),
        Err(refusal) => refused(refusal),
    }
}

// A flag, which is all that is replied.
pub fn of_usable(usable: bool) -> Reply
    ensures { result ≡ usable_reply usable }
{
    if usable { words(YES) } else { words(NO) }
}
