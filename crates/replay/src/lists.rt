//! The lists of a request: the deviations stand in the first ROWS of the words, the correlations in the SLOTS behind
//! them, and the states in the SLOTS behind those.
use requests::limits::{ROWS, SLOTS};
use text::part::within;

// So many words, from a place on.
fn listed(words: &[u64], from: usize, count: u64) -> &[u64] {
    let start = within(from, words);
    let rest = &words[start..];
    let end = within(count as usize, rest);
    &rest[..end]
}

pub(crate) fn deviations(words: &[u64], count: u64) -> &[u64] {
    listed(words, 0, count)
}

pub(crate) fn correlations(words: &[u64], count: u64) -> &[u64] {
    listed(words, ROWS, count)
}

pub(crate) fn states(words: &[u64], count: u64) -> &[u64] {
    listed(words, ROWS + SLOTS, count)
}
