//! The replies on a set: its counts, and the places of a pack.
ghost use Rattle.std.specs.Prelude.{◌≡◌};
ghost use Rattle.replies.specs.Replies.{set_reply, place_reply};

use crate::forms::{PACK, SET_COUNTS};
use crate::refusal::refused;
use crate::reply::Reply;
use answers::Refusal;
use sets::pack::PackPlace;
use sets::set::SetCounts;

pub fn of_set(set: Result<SetCounts, Refusal>) -> Reply
    ensures { result ≡ set_reply set }
{
    match set {
        Ok(counts) => Reply {
            form: SET_COUNTS,
            a: counts.packs as u64,
            b: counts.tags as u64,
            c: 0,
            d: 0,
        },
        Err(refusal) => refused(refusal),
    }
}

pub fn of_place(place: PackPlace) -> Reply
    ensures { result ≡ place_reply place }
{
    Reply {
        form: PACK,
        a: place.start as u64,
        b: place.end as u64,
        c: place.from as u64,
        d: place.to as u64,
    }
}
