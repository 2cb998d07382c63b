//! The figure: a number that depends on everything that was made, so that no compiler can leave any of it out.
use answers::Refusal;
use layout::pack::SdccFlp;

// What a refusal adds.
pub(crate) const REFUSED: u64 = u64::MAX;

// The word of what a writer answers: how many bytes it wrote.
pub(crate) fn of_written(written: Result<usize, Refusal>) -> u64 {
    written.map_or(REFUSED, |length| length as u64)
}

// The word of what a reader answers: how many slots it stored.
pub(crate) fn of_read(read: Result<SdccFlp, Refusal>) -> u64 {
    read.map_or(REFUSED, |matrix| matrix.slots as u64)
}

// One word more.
pub(crate) fn add(figure: u64, word: u64) -> u64 {
    (figure % 0x100_0000_0000_0000 * 131) ^ word
}

// One byte more. It is widened here, where it need not be shown to fit.
pub(crate) fn add_byte(figure: u64, byte: u8) -> u64 {
    add(figure, byte as u64)
}

// Every word.
pub(crate) fn of_words(from: u64, words: &[u64]) -> u64 {
    words.iter().fold(from, |figure, &word| add(figure, word))
}

// What the Rust keeps of a state: whether the slot is present.
fn bool_of(state: u8) -> u64 {
    if state == 0 { 0 } else { 1 }
}

// Every state, as the Rust has it.
pub(crate) fn of_states(from: u64, states: &[u8]) -> u64 {
    states
        .iter()
        .fold(from, |figure, &state| add(figure, bool_of(state)))
}

// Every byte.
pub(crate) fn of_bytes(from: u64, bytes: &[u8]) -> u64 {
    bytes
        .iter()
        .fold(from, |figure, &byte| add_byte(figure, byte))
}
