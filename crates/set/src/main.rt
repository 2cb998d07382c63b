//! Reads a set's value from standard input and prints each of its packs, where it stands and which tags it refines, or
//! why the set is refused.
#![tactic(auto)]

ghost use Rattle.std.specs.Prelude.{◌≡◌, length};
ghost use Rattle.packs.specs.Printed.{max_tags, max_rows, max_slots, room};

use packs::first::{MAX_BYTES, MAX_TAGS, put_first};
use packs::pack::{MAX_ROWS, MAX_SLOTS, ROOM, put_pack_of};
use sets::pack::{PackPlace, next_pack};
use std::io;
use std::io::Write;
use streams::read_full;
use text::page::Page;
use text::room::room_of;

// One byte more than the most that is read.
const INPUT: usize = MAX_BYTES + 1;

// The rooms are as long as what is proved of the texts asks: no tag list is full.
fn room_for_tags() -> [u32; MAX_TAGS]
    ensures { max_tags ≡ length result }
{
    room_of(0)
}

fn room_for_deviations() -> [u64; MAX_ROWS]
    ensures { max_rows ≡ length result }
{
    room_of(0)
}

fn room_for_correlations() -> [u64; MAX_SLOTS]
    ensures { max_slots ≡ length result }
{
    room_of(0)
}

fn room_for_states() -> [u8; MAX_SLOTS]
    ensures { max_slots ≡ length result }
{
    room_of(0)
}

// Any pack's text fits (packs, Fits).
fn room_for_text() -> [u8; ROOM]
    ensures { room ≡ length result }
{
    room_of(0)
}

// So many packs in turn, each written before the next is read.
fn write_packs<W: Write>(
    stream: &mut W,
    count: usize,
    set: &[u8],
    tags: &[u32],
    out: &mut [u8],
) -> io::Result<()> {
    let mut deviations = room_for_deviations();
    let mut correlations = room_for_correlations();
    let mut states = room_for_states();
    let mut before = PackPlace::NONE;
    for _ in 0..count {
        let Some(place) = next_pack(set, before) else {
            return Ok(());
        };
        let mut page = Page::new(0, out);
        put_pack_of(
            set,
            tags,
            place,
            &mut deviations,
            &mut correlations,
            &mut states,
            &mut page,
        );
        let length = page.place();
        stream.write_all(&out[..length])?;
        before = place;
    }
    Ok(())
}

fn main(rt: HostRuntime) -> io::Result<()> {
    let mut input: [u8; INPUT] = room_of(0);
    let mut tags = room_for_tags();
    let mut out = room_for_text();
    let count = read_full(&mut rt.stdin(), &mut input)?;
    let mut page = Page::new(0, &mut out);
    let packs = put_first(&input[..count], &mut tags, &mut page);
    let length = page.place();
    rt.stdout().write_all(&out[..length])?;
    write_packs(&mut rt.stdout(), packs, &input[..count], &tags, &mut out)
}
