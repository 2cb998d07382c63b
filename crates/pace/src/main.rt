//! Does one operation of the codec over and over, so that its cost can be measured (bench/run):
//! pace OP N CLEN KIND REPS.
#![tactic(auto)]

mod cells;
mod coded;
mod figure;
mod job;
mod sample;
mod turns;

use figure::REFUSED;
use job::{Job, Kind, Op};
use layout::pack::SdccFlp;
use layout::triangle::corr_slots;
use std::io;
use text::part::within;
use text::room::room_of;

// The largest matrix.
const ROWS: usize = SdccFlp::MAX_ROWS as usize;

const SLOTS: usize = SdccFlp::MAX_SLOTS as usize;

// Its file: a header, and 8 bytes to an entry. Its pack, which has 8 to a slot at most, is little more than half.
const BYTES: usize = 128 + 8 * ROWS * ROWS;

// The length of what was written, or 0 where nothing was.
fn length_of(written: u64) -> usize {
    if written == REFUSED {
        0
    } else {
        written as usize
    }
}

// Makes the matrix's pack, and answers its length.
fn make_pack(job: Job, deviations: &[u64], correlations: &[u64], room: &mut [u8]) -> usize {
    let kind = job.kind;
    let written = turns::write(deviations, correlations, job.clen, room);
    let length = within(length_of(written), room);
    if let Kind::Specials = kind {
        coded::over_last(correlations.len(), job.clen, &mut room[..length]);
    }
    length
}

// Makes the matrix, and its pack, or its file for the operations on files, and answers the length of that.
fn make(job: Job, deviations: &mut [u64], correlations: &mut [u64], room: &mut [u8]) -> usize {
    let kind = job.kind;
    sample::fill_deviations(deviations);
    sample::fill_correlations(correlations, kind);
    let op = job.op;
    match op {
        Op::ToNpy | Op::FromNpy => length_of(turns::to_npy(deviations, correlations, room)),
        _ => make_pack(job, deviations, correlations, room),
    }
}

// Does the job; the figure is then taken over all that it leaves.
fn measured(
    job: Job,
    deviations: &mut [u64],
    correlations: &mut [u64],
    states: &mut [u8],
    pack: &mut [u8],
) -> u64 {
    let repeated = turns::repeat(job, deviations, correlations, states, pack);
    let over_deviations = figure::of_words(repeated, deviations);
    let over_correlations = figure::of_words(over_deviations, correlations);
    let over_states = figure::of_states(over_correlations, states);
    figure::of_bytes(over_states, pack)
}

// The job, on rooms of the matrix's own size.
fn run(
    rt: &impl Print,
    job: Job,
    deviations: &mut [u64],
    correlations: &mut [u64],
    states: &mut [u8],
    room: &mut [u8],
) -> io::Result<()> {
    let made = make(job, deviations, correlations, room);
    let length = within(made, room);
    let figure = measured(job, deviations, correlations, states, &mut room[..length]);
    println!(rt; "pack {length} figure {figure}")
}

fn main(rt: HostRuntime) -> io::Result<()> {
    let mut deviations: [u64; ROWS] = room_of(0);
    let mut correlations: [u64; SLOTS] = room_of(0);
    let mut states: [u8; SLOTS] = room_of(0);
    let mut pack: [u8; BYTES] = room_of(0);
    let job = job::asked(&rt);
    let rows = within(job.rows, &deviations);
    let slots = corr_slots(rows as u32) as usize;
    let sent = within(slots, &correlations);
    let told = within(slots, &states);
    run(
        &rt,
        job,
        &mut deviations[..rows],
        &mut correlations[..sent],
        &mut states[..told],
        &mut pack,
    )
}
