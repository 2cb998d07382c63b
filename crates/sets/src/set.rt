//! A set, all of it decided before a tag is stored.
ghost use Rattle.std.specs.Prelude.{◌≡◌, ◌≤◌, ◌<◌, length};
ghost use Rattle.answers.specs.Table.{next};
ghost use Rattle.layout.specs.Size.{peeked};
ghost use Rattle.answers.specs.Listed.{checked};
ghost use Rattle.answers.specs.Lent.{over};
ghost use Rattle.sets.specs.Items.{items_of};
ghost use Rattle.sets.specs.Packs.{tags_of};
ghost use Rattle.sets.specs.Rules.{peek_rule, pack_rule, room_rule, set_listed, set_answer, left_tags};

use crate::item::{Item, read_item};
use crate::part::items_from;
use crate::tag::{PACK, is_pushed, pack_count, tag_count};
use answers::Refusal;
use layout::size::peek_matrix_size;

// How many packs a set has, and how many tags.
#[derive(Clone, Copy, Debug, PartialEq, Eq)]
pub struct SetCounts {
    pub packs: usize,
    pub tags: usize,
}

// A pack is to pass peek.
fn check_pack(pack: &[u8]) -> Result<(), Refusal>
    ensures { checked result ≡ peek_rule (peeked pack.now) }
{
    peek_matrix_size(pack).ok_or(Refusal::TruncatedField { needed: 0, got: 0 })?;
    Ok(())
}

// The rules of an item that was read, with so many tags seen before it and room for so many.
fn check_item(set: &[u8], item: Item, seen: usize, room: usize) -> Result<(), Refusal>
    requires { (seen ≤ room) × (seen < length set.now) }
    ensures { checked result
        ≡ next (pack_rule set.now item.tag item.start item.end) (room_rule room seen item.tag) }
{
    if item.tag == PACK {
        return check_pack(items_from(set, item.start, item.end));
    }
    if seen < room {
        return Ok(());
    }
    if is_pushed(item.tag) {
        return Err(Refusal::BufferTooSmall {
            needed: seen + 1,
            got: room,
        });
    }
    Ok(())
}

// The first faulty item decides.
pub(crate) fn decide(set: &[u8], room: usize) -> Result<SetCounts, Refusal>
    ensures { set_listed result ≡ set_answer set.now room }
{
    let mut packs: usize = 0;
    let mut seen: usize = 0;
    let mut at: usize = 0;
    // from item to item, each as long as it says
    while at < set.len() {
        let item = read_item(set, at).ok_or(Refusal::MalformedItem { offset: at })?;
        check_item(set, item, seen, room)?;
        packs += pack_count(item.tag);
        seen += tag_count(item.tag);
        at = item.end;
    }
    Ok(SetCounts { packs, tags: seen })
}

// The tags of a set that has no faulty item, from the front on.
fn store_tags(set: &[u8], tags: &mut [u32])
    requires { length (tags_of (items_of set.now)) ≤ length tags.old }
    ensures { tags.new ≡ over (tags_of (items_of set.now)) tags.old }
{
    let mut seen: usize = 0;
    let mut at: usize = 0;
    // the same
    while let Some(item) = read_item(set, at) {
        if is_pushed(item.tag) {
            tags[seen] = item.tag;
            seen += 1;
        }
        at = item.end;
    }
}

// The tags of the set into the front of the list, in their order; a set that is refused leaves the list as it was.
pub fn read_set(set: &[u8], tags: &mut [u32]) -> Result<SetCounts, Refusal>
    ensures { (set_listed result ≡ set_answer set.now (length tags.old))
        × (tags.new ≡ left_tags (set_listed result) set.now tags.old) }
{
    let counts = decide(set, tags.len())?;
    store_tags(set, tags);
    Ok(counts)
}
