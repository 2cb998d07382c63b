//! Answers requests: a line of standard input each, and a line of standard output for each.
#![tactic(auto)]

mod answer;
mod cells;
mod files;
mod input;
mod lists;
mod prints;
mod ranged;
mod reads;
mod st0601;
mod writes;

use answer::answer;
use input::{HELD, flush_above, refill};
use requests::limits::{BYTES, FILE, WORDS};
use requests::request::read_request;
use std::io;
use std::io::Write;
use text::page::Page;
use text::part::within;
use text::room::room_of;

// A request of so many bytes in hex, with the words before them. Lists that fill all the words take less.
const LINE: usize = 2 * BYTES + 128;

const OUT: usize = 2 * HELD + LINE;

// How much of a line is a request: nothing of one that is longer. An empty line is a bad request too.
fn fitting(read: usize) -> usize {
    if read < LINE { read } else { 0 }
}

// The request, and its answer. What is held is written out when there is much of it.
fn answer_line<W: Write>(
    stream: &mut W,
    line: &mut Page<'_>,
    words: &mut [u64],
    page: &mut Page<'_>,
) -> io::Result<()> {
    let count = within(fitting(line.at), line.room);
    line.at = 0;
    let request = read_request(&mut line.room[..count], words);
    answer(stream, request, line.room, words, page)?;
    page.byte(b'\n');
    flush_above(stream, HELD, page)
}

// Answers each line that the block ends, and says how much of the next is read. What a line has no room for is dropped.
// What is held is written before the next block is read, so that whoever asks line by line is answered at once.
fn feed<W: Write>(
    stream: &mut W,
    block: &[u8],
    begun: usize,
    line: &mut [u8],
    words: &mut [u64],
    out: &mut [u8],
) -> io::Result<usize> {
    let mut line = Page::new(begun, line);
    let mut page = Page::new(0, out);
    for &byte in block {
        if byte == b'\n' {
            answer_line(stream, &mut line, words, &mut page)?;
        } else {
            line.byte(byte);
        }
    }
    flush_above(stream, 0, &mut page)?;
    Ok(line.at)
}

// The turns are counted, up to a number that no run comes to, since nothing says that the input ends.
fn main(rt: HostRuntime) -> io::Result<()> {
    let mut block: [u8; HELD] = room_of(0);
    let mut words: [u64; WORDS] = room_of(0);
    // What a request writes goes where its line stood, and of that a file is lent the most. So large an array is made
    // here, since a call's own would stand beside it on the stack.
    let mut line = [0; FILE];
    let mut out = [0; OUT];
    let mut read: usize = 0;
    for _ in 0..u64::MAX {
        let got = refill(&mut rt.stdin(), &mut block, read)?;
        let end = within(got, &block);
        if end == 0 {
            return Ok(());
        }
        read = feed(
            &mut rt.stdout(),
            &block[..end],
            read,
            &mut line,
            &mut words,
            &mut out,
        )?;
    }
    Ok(())
}
