//! Parts of the caller's memory, by their places.
ghost use Rattle.std.specs.Prelude.{◌≡◌};
ghost use Rattle.sets.specs.Parts.{part_of};

use crate::pack::PackPlace;

// The items from a place on up to another, and none where the slice ends before that.
pub(crate) fn items_from<T>(items: &[T], start: usize, end: usize) -> &[T]
    ensures { result.now ≡ part_of start end items.now }
{
    if items.len() < end || end < start {
        return &items[..0];
    }
    &items[start..end]
}

// The bytes of a pack.
pub fn pack_part(set: &[u8], place: PackPlace) -> &[u8]
    ensures { result.now ≡ part_of place.start place.end set.now }
{
    items_from(set, place.start, place.end)
}

// The tags that it refines.
pub fn tags_part(tags: &[u32], place: PackPlace) -> &[u32]
    ensures { result.now ≡ part_of place.from place.to tags.now }
{
    items_from(tags, place.from, place.to)
}
