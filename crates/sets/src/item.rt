//! One item of a set: a tag, a length, and as many bytes of value.
ghost use Rattle.std.specs.Prelude.{◌≡◌, ◌≤◌, length, drop};
ghost use Rattle.numbers.specs.Ber.{ber_read_strict};
ghost use Rattle.sets.specs.Items.{valued, item_at};

use numbers::ber::read_ber_strict;
use numbers::ber_oid::read_ber_oid_strict;

// Its tag, and where its value starts and ends.
#[derive(Clone, Copy, Debug, PartialEq, Eq)]
pub struct Item {
    pub tag: u32,
    pub start: usize,
    pub end: usize,
}

// The value of an item whose tag was read, up to a place.
fn value_behind(set: &[u8], tag: u32, at: usize) -> Option<Item>
    requires { at ≤ length set.now }
    ensures { result ≡ valued set.now tag at (ber_read_strict (drop at set.now)) }
{
    let length = read_ber_strict(&set[at..])?;
    let start = at + length.taken;
    if ((set.len() - start) as u64) < length.value {
        return None;
    }
    Some(Item {
        tag,
        start,
        end: start + length.value as usize,
    })
}

// The item that starts at a place of the set; or none, where the strict reading refuses the tag or the length, or the
// value runs past the set's end.
pub fn read_item(set: &[u8], at: usize) -> Option<Item>
    ensures { result ≡ item_at set.now at }
{
    if set.len() <= at {
        return None;
    }
    let oid = read_ber_oid_strict(&set[at..])?;
    value_behind(set, oid.value, at + oid.taken)
}
