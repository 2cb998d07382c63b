//! The reply to a request that is refused.
ghost use Rattle.std.specs.Prelude.{◌≡◌, ◌≤◌};
ghost use Rattle.replies.specs.Replies.{refused_form, refused_reply};

use crate::forms::{REFUSED, REFUSED_BITS};
use crate::reply::Reply;
use answers::Refusal;
use answers::row::row_of;

// By the row's own columns (`Row`).
fn form_of(count: usize, floats: bool) -> usize
    requires { count ≤ 3 }
    ensures { result ≡ refused_form count floats }
{
    if floats {
        REFUSED_BITS
    } else {
        REFUSED + count
    }
}

pub fn refused(refusal: Refusal) -> Reply
    ensures { result ≡ refused_reply refusal }
{
    let row = row_of(refusal);
    let values = row.values;
    Reply {
        form: form_of(row.count, row.floats),
        a: row.number,
        b: values[0],
        c: values[1],
        d: values[2],
    }
}
