//! The repetitions.
use crate::figure::REFUSED;
use crate::job::{Job, Op};
use crate::{cells, coded, figure};
use layout::size::peek_matrix_size;
use npy::import::import_npy;
use npy_export::export::export_npy;
use reader::read::decode_sdcc_flp;
use writer::write::encode_sdcc_flp_mode2;

const SIGN: u64 = 0x8000_0000_0000_0000;

// The first number changes its sign, which neither makes a zero nor takes one away.
fn vary(words: &mut [u64]) {
    if 0 < words.len() {
        words[0] = words[0] ^ SIGN;
    }
}

// The last byte of a pack, the low one of a code or of a deviation, changes its last bit; of a file it is the high one
// of a deviation.
fn vary_pack(pack: &mut [u8]) {
    if 0 < pack.len() {
        let last = pack.len() - 1;
        pack[last] = pack[last] ^ 1;
    }
}

fn read(pack: &[u8], deviations: &mut [u64], correlations: &mut [u64], states: &mut [u8]) -> u64 {
    figure::of_read(decode_sdcc_flp(pack, deviations, correlations, states))
}

pub(crate) fn write(deviations: &[u64], correlations: &[u64], clen: usize, pack: &mut [u8]) -> u64 {
    figure::of_written(encode_sdcc_flp_mode2(deviations, correlations, clen, pack))
}

fn peek(pack: &[u8]) -> u64 {
    peek_matrix_size(pack).map_or(REFUSED, |n| n as u64)
}

pub(crate) fn to_npy(deviations: &[u64], correlations: &[u64], file: &mut [u8]) -> u64 {
    let rows = deviations.len() as u64;
    figure::of_written(export_npy(rows, deviations, correlations, file))
}

fn from_npy(
    file: &[u8],
    deviations: &mut [u64],
    correlations: &mut [u64],
    states: &mut [u8],
) -> u64 {
    figure::of_read(import_npy(file, deviations, correlations, states))
}

// The pack is read, codes are written over it, it is written again, peeked at, and its cells are looked up.
fn each(
    clen: usize,
    deviations: &mut [u64],
    correlations: &mut [u64],
    states: &mut [u8],
    pack: &mut [u8],
) -> u64 {
    let slots = read(pack, deviations, correlations, states);
    let values = coded::of_values(correlations, clen, pack);
    let specials = coded::of_specials(correlations.len(), clen, pack);
    let length = write(deviations, correlations, clen, pack);
    let rows = peek(pack);
    let cells = cells::of_matrix(deviations, correlations);
    let coded = figure::add(figure::add(slots, values), specials);
    figure::add(figure::add(figure::add(coded, length), rows), cells)
}

// The operation, once, and what it answers. Of the two on files the pack is the file.
fn once(
    job: Job,
    deviations: &mut [u64],
    correlations: &mut [u64],
    states: &mut [u8],
    pack: &mut [u8],
) -> u64 {
    let op = job.op;
    match op {
        Op::Read => read(pack, deviations, correlations, states),
        Op::Write => write(deviations, correlations, job.clen, pack),
        Op::Peek => peek(pack),
        Op::Cell => cells::of_matrix(deviations, correlations),
        Op::Value => coded::of_values(correlations, job.clen, pack),
        Op::Special => coded::of_specials(correlations.len(), job.clen, pack),
        Op::ToNpy => to_npy(deviations, correlations, pack),
        Op::FromNpy => from_npy(pack, deviations, correlations, states),
        Op::Each => each(job.clen, deviations, correlations, states, pack),
        Op::Idle => 0,
    }
}

// The entry at a place that goes on with each repetition, or `none` where there is none.
fn entry_at<T: Copy>(entries: &[T], turn: usize, none: T) -> T {
    if entries.len() == 0 {
        return none;
    }
    let at = turn % entries.len();
    if at < entries.len() {
        entries[at]
    } else {
        none
    }
}

// Each repetition finds another input, and adds its answer, a correlation and a byte to the figure: some fifty
// instructions, the same for each operation, which `idle` measures.
pub(crate) fn repeat(
    job: Job,
    deviations: &mut [u64],
    correlations: &mut [u64],
    states: &mut [u8],
    pack: &mut [u8],
) -> u64 {
    let mut sum: u64 = 0;
    for left in (0..job.reps).rev() {
        vary(deviations);
        vary(correlations);
        vary_pack(pack);
        let answer = once(job, deviations, correlations, states, pack);
        sum = figure::add(sum, answer);
        sum = figure::add(sum, entry_at(correlations, left, 0));
        sum = figure::add_byte(sum, entry_at(pack, left, 0));
    }
    sum
}
