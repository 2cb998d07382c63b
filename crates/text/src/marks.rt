//! Marks in lent memory, so that a change shows.
ghost use Rattle.std.specs.Prelude.{◌≡◌, min, length};
ghost use Rattle.text.specs.Marks.{byte_mark, tag_mark, word_mark, marked, unmarked_in, IsClonedAs};
ghost use Rattle.std.proofs.Common.{rules};

use crate::part::within;

// A type whose entries are marked, and the mark.
pub trait Marked: Copy + PartialEq {
    ghost MARK: { Self };

    const MARK: Self;

    // What `fill` asks of a clone.
    ghost cloned: { IsClonedAs Self.is_infallible Self.is_clone MARK };
}

impl Marked for u8 {
    ghost MARK = { byte_mark };

    ghost cloned = { Prim.search rules };

    const MARK: u8 = 0xa5;
}

impl Marked for u32 {
    ghost MARK = { tag_mark };

    ghost cloned = { Prim.search rules };

    const MARK: u32 = 0xa5a5_a5a5;
}

impl Marked for u64 {
    ghost MARK = { word_mark };

    ghost cloned = { Prim.search rules };

    const MARK: u64 = 0xa5a5_a5a5_a5a5_a5a5;
}

// The mark goes into the first entries, so many.
pub fn mark<T: Marked>(lent: &mut [T], count: u64)
    ensures { lent.new ≡ marked T.MARK (min count (length lent.old)) lent.old }
{
    let end = within(count as usize, lent);
    lent[..end].fill(T::MARK);
}

// Whether one of the first entries, so many, is without the mark, from a place on. All are looked at, several at a time,
// since mostly none is found.
pub fn changed<T: Marked>(lent: &[T], from: usize, count: u64) -> bool
    ensures { result ≡ unmarked_in T.eq T.MARK from count lent.now }
{
    let front = &lent[..within(count as usize, lent)];
    front[within(from, front)..]
        .iter()
        .fold(false, |found, &entry| found | (entry != T::MARK))
}
