//! The request on an ST 0601 set: set. Its answer can be longer than what is held, and is written out as it grows.
use crate::input::{HELD, flush_above};
use answers::Refusal;
use replies::forms;
use replies::put::put_reply;
use replies::reply::{one, words};
use replies::set::{of_place, of_set};
use requests::limits::TAGS;
use requests::request::Request;
use sets::handed::{pack_at, pack_of, tags_of};
use sets::pack::{PackPlace, next_pack};
use sets::part::{pack_part, tags_part};
use sets::set::{SetCounts, read_set};
use shown::touched::put_touched;
use std::io;
use std::io::Write;
use text::marks::{Marked, changed};
use text::page::Page;
use text::part::within;

// As much is lent as the request says.
fn read(room: u64, set: &[u8], tags: &mut [u32]) -> Result<SetCounts, Refusal> {
    let lent = within(room as usize, tags);
    read_set(set, &mut tags[..lent])
}

// So many packs are asked for by their number too, which is a walk of its own each time.
const BY_NUMBER: usize = 4;

// Whether pack k is found at those places by its number, and its parts are as long as those there.
fn is_numbered(k: usize, set: &[u8], tags: &[u32], place: PackPlace) -> bool {
    pack_at(set, tags.len(), k).is_some_and(|found| {
        found.start == place.start
            && found.from == place.from
            && pack_of(set, tags, k).len() == pack_part(set, place).len()
            && tags_of(set, tags, k).len() == tags_part(tags, place).len()
    })
}

// Pack k, behind the one before it. Where its number leads elsewhere it is left out, so that the answer shows it.
fn pack_behind(k: usize, set: &[u8], tags: &[u32], before: PackPlace) -> Option<PackPlace> {
    next_pack(set, before).filter(|&place| BY_NUMBER <= k || is_numbered(k, set, tags, place))
}

// The places of the packs, so many, each behind a `;`.
fn put_packs<W: Write>(
    stream: &mut W,
    count: usize,
    set: &[u8],
    tags: &[u32],
    page: &mut Page<'_>,
) -> io::Result<()> {
    let mut place = PackPlace::NONE;
    for k in 0..count {
        let Some(found) = pack_behind(k, set, tags, place) else {
            return Ok(());
        };
        place = found;
        put_reply(of_place(place), page);
        flush_above(stream, HELD, page)?;
    }
    Ok(())
}

fn put_tag<W: Write>(stream: &mut W, tag: u32, page: &mut Page<'_>) -> io::Result<()> {
    put_reply(one(forms::TAG, tag as u64), page);
    flush_above(stream, HELD, page)
}

// The tags behind a `;`, or a word for none.
fn put_tags<W: Write>(stream: &mut W, tags: &[u32], page: &mut Page<'_>) -> io::Result<()> {
    put_reply(words(forms::TAGS), page);
    if tags.is_empty() {
        put_reply(words(forms::NO_TAGS), page);
    }
    for &tag in tags {
        put_tag(stream, tag, page)?;
    }
    Ok(())
}

// What stands behind the reply, and whether the list was touched: all of it is to be as lent where the set is refused,
// and what is behind the tags where it is not.
fn put_behind<W: Write>(
    stream: &mut W,
    answer: Result<SetCounts, Refusal>,
    room: u64,
    set: &[u8],
    tags: &[u32],
    page: &mut Page<'_>,
) -> io::Result<()> {
    let Ok(counts) = answer else {
        put_touched(changed(tags, 0, room), page);
        return Ok(());
    };
    let count = within(counts.tags, tags);
    let lent = within(room as usize, tags);
    put_packs(stream, counts.packs, set, &tags[..lent], page)?;
    put_tags(stream, &tags[..count], page)?;
    put_touched(changed(tags, count, room), page);
    Ok(())
}

// Not inlined: the list of tags would stand in the frame of every answer.
#[inline(never)]
pub(crate) fn put_set<W: Write>(
    stream: &mut W,
    request: Request,
    set: &[u8],
    page: &mut Page<'_>,
) -> io::Result<()> {
    // made here, since a call's own would stand beside it on the stack
    let mut tags = [u32::MARK; TAGS];
    let answer = read(request.room, set, &mut tags);
    put_reply(of_set(answer), page);
    put_behind(stream, answer, request.room, set, &tags, page)
}
