//! Reads one pack from standard input and prints what it holds, or why it is refused.
#![tactic(auto)]

use report::print::print_pack;
use std::io;
use std::io::Write;
use streams::read_full;
use text::room::room_of;

// One byte more than the most that is read.
const INPUT: usize = 20_481;

// The text of a pack that is printed is shorter.
const TEXT: usize = 65_536;

fn main(rt: HostRuntime) -> io::Result<()> {
    let mut input: [u8; INPUT] = room_of(0);
    let mut out: [u8; TEXT] = room_of(0);
    let count = read_full(&mut rt.stdin(), &mut input)?;
    let printed = print_pack(&input[..count], &mut out);
    let Ok(length) = printed else {
        return Ok(());
    };
    rt.stdout().write_all(&out[..length])
}
