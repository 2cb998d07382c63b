//! Pack k of a set, handed back as parts of the caller's memory. Each call goes through the set from its start: whoever
//! goes from pack to pack has `next_pack`.
ghost use Rattle.std.specs.Prelude.{◌≡◌, length};
ghost use Rattle.sets.specs.Handed.{pack_at, bytes_at, tags_at};

use crate::pack::{PackPlace, next_pack};
use crate::part::{pack_part, tags_part};
use crate::set::decide;

// Its places, or nothing where there is no pack k, or the set is not one that a list of so many tags takes.
pub fn pack_at(set: &[u8], room: usize, k: usize) -> Option<PackPlace>
    ensures { result ≡ pack_at set.now room k }
{
    decide(set, room).ok()?;
    let mut before = PackPlace::NONE;
    for _ in 0..k {
        before = next_pack(set, before)?;
    }
    next_pack(set, before)
}

// The part of the set that it is.
pub fn pack_of<'a>(set: &'a [u8], tags: &[u32], k: usize) -> &'a [u8]
    ensures { result.now ≡ bytes_at set.now (length tags.now) k }
{
    let Some(place) = pack_at(set, tags.len(), k) else {
        return &set[..0];
    };
    pack_part(set, place)
}

// The part of the list that holds the tags that it refines.
pub fn tags_of<'a>(set: &[u8], tags: &'a [u32], k: usize) -> &'a [u32]
    ensures { result.now ≡ tags_at set.now tags.now k }
{
    let Some(place) = pack_at(set, tags.len(), k) else {
        return &tags[..0];
    };
    tags_part(tags, place)
}
