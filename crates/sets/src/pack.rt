//! The packs of a set, from one to the next.
ghost use Rattle.std.specs.Prelude.{◌≡◌, ◌-◌};
ghost use Rattle.sets.specs.Packs.{pack_in, next_pack};

use crate::item::{Item, read_item};
use crate::part::items_from;
use crate::tag::{PACK, tag_count};
use layout::size::peek_matrix_size;

// Where a pack starts and ends in the set, and the part of the tag list that it refines. It is a cursor too: what comes
// next is looked for from its end on, with as many tags seen as its part ends at.
#[derive(Clone, Copy, Debug, PartialEq, Eq)]
pub struct PackPlace {
    pub start: usize,
    pub end: usize,
    pub from: usize,
    pub to: usize,
}

impl PackPlace {
    // Before the first pack.
    pub const NONE: PackPlace = PackPlace {
        start: 0,
        end: 0,
        from: 0,
        to: 0,
    };
}

// Where the last n of so many tags start, or all of them.
fn last(n: u32, seen: usize) -> usize
    ensures { result ≡ seen - n }
{
    let count = n as usize;
    if seen < count { 0 } else { seen - count }
}

// The pack that an item's value is, with so many tags seen before it; none where it is no pack, or peek does not pass
// it.
fn pack_in(set: &[u8], item: Item, seen: usize) -> Option<PackPlace>
    ensures { result ≡ pack_in set.now seen item.tag item.start item.end }
{
    if item.tag != PACK {
        return None;
    }
    let n = peek_matrix_size(items_from(set, item.start, item.end))?;
    Some(PackPlace {
        start: item.start,
        end: item.end,
        from: last(n, seen),
        to: seen,
    })
}

// The first pack behind another, up to the set's end or a faulty item. No cursor has more tags behind it than bytes.
pub fn next_pack(set: &[u8], before: PackPlace) -> Option<PackPlace>
    ensures { result ≡ next_pack set.now before }
{
    let mut at = before.end;
    let mut seen = before.to;
    if at < seen {
        return None;
    }
    loop {
        let item = read_item(set, at)?;
        if let Some(found) = pack_in(set, item, seen) {
            return Some(found);
        }
        seen += tag_count(item.tag);
        at = item.end;
    }
}
