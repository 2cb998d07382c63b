//! Reads one pack from standard input and prints why it is refused, or where its parts stand.
#![tactic(auto)]

use std::io;
use std::io::Write;
use streams::read_full;
use text::room::room_of;
use told::print::{ROOM, print_why};

// One byte more than the most that is read.
const INPUT: usize = 20_481;

fn main(rt: HostRuntime) -> io::Result<()> {
    let mut input: [u8; INPUT] = room_of(0);
    let mut out: [u8; ROOM] = room_of(0);
    let count = read_full(&mut rt.stdin(), &mut input)?;
    let printed = print_why(&input[..count], &mut out);
    let Ok(length) = printed else {
        return Ok(());
    };
    rt.stdout().write_all(&out[..length])
}
