//! Which tags are packs, and which are pushed on the list of the tags seen.
ghost use Rattle.std.specs.Prelude.{◌≡◌};
ghost use Rattle.sets.specs.Tags.{is_pushed, tag_count, pack_count};

// An SDCC-FLP pack.
pub const PACK: u32 = 102;

// The checksum, which is handled apart.
pub const CHECKSUM: u32 = 1;

// Every tag but a pack's and the checksum's.
pub fn is_pushed(tag: u32) -> bool
    ensures { result ≡ is_pushed tag }
{
    tag != PACK && tag != CHECKSUM
}

// How many tags an item of that tag pushes: 1 or 0, which is summed.
pub(crate) fn tag_count(tag: u32) -> usize
    ensures { result ≡ tag_count tag }
{
    if is_pushed(tag) { 1 } else { 0 }
}

// How many packs it is: 1 or 0, which is summed.
pub(crate) fn pack_count(tag: u32) -> usize
    ensures { result ≡ pack_count tag }
{
    if tag == PACK { 1 } else { 0 }
}
