//! The reply to what writes into lent bytes.
ghost use Rattle.std.specs.Prelude.{◌≡◌};
ghost use Rattle.replies.specs.Replies.{written_reply};

use crate::refusal::refused;
use crate::reply::{Reply, one};
use answers::Refusal;

// The form is that of what is done.
pub fn of_written(form: usize, written: Result<usize, Refusal>) -> Reply
    ensures { result ≡ written_reply form written }
{
    match written {
        Ok(count) => one(form, count as u64),
        Err(refusal) => refused(refusal),
    }
}
