//! Reads a .npy file from standard input and writes its matrix to standard output as a pack, or to standard error why
//! there is none: to_pack [CLEN].
#![tactic(auto)]

use convert::pack::{ROOM, pack_of_npy};
use convert::stream::Streamed;
use packs::first::MAX_BYTES;
use std::env::FillError;
use std::io;
use std::io::Write;
use std::rt::Env;
use streams::read_full;
use text::numeral::decimal;
use text::room::room_of;

// One byte more than the most that is read.
const INPUT: usize = MAX_BYTES + 1;

// A text that is all digits and at most 2^64-1, which has twenty. Any other is taken for 0, which no pack has: the
// writer refuses it.
fn number(text: &[u8]) -> usize {
    decimal(text, 0)
        .filter(|number| number.next == text.len())
        .map_or(0, |number| number.value as usize)
}

// The first argument, where there is one.
fn asked<E: Env>(env: &E) -> Option<usize> {
    let mut text = [0u8; 20];
    match env.arg(1, &mut text) {
        Ok(count) => Some(number(&text[..count])),
        Err(FillError::TooLong) => Some(0),
        Err(FillError::NotPresent) => None,
    }
}

fn main(rt: HostRuntime) -> io::Result<()> {
    let mut input: [u8; INPUT] = room_of(0);
    let mut out: [u8; ROOM] = room_of(0);
    let count = read_full(&mut rt.stdin(), &mut input)?;
    let streamed = pack_of_npy(asked(&rt), &input[..count], &mut out);
    match streamed {
        Streamed::Output(length) => rt.stdout().write_all(&out[..length]),
        Streamed::Errors(length) => rt.stderr().write_all(&out[..length]),
    }
}
