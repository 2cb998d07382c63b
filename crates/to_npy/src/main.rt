//! Reads a pack from standard input and writes its matrix to standard output as a .npy file, or to standard error why
//! there is none.
#![tactic(auto)]

use convert::file::{ROOM, npy_of_pack};
use convert::stream::Streamed;
use packs::first::MAX_BYTES;
use std::io;
use std::io::Write;
use streams::read_full;
use text::room::room_of;

// One byte more than the most that is read.
const INPUT: usize = MAX_BYTES + 1;

fn main(rt: HostRuntime) -> io::Result<()> {
    let mut input: [u8; INPUT] = room_of(0);
    let mut out: [u8; ROOM] = room_of(0);
    let count = read_full(&mut rt.stdin(), &mut input)?;
    let streamed = npy_of_pack(&input[..count], &mut out);
    match streamed {
        Streamed::Output(length) => rt.stdout().write_all(&out[..length]),
        Streamed::Errors(length) => rt.stderr().write_all(&out[..length]),
    }
}
