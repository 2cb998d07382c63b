//! The states that a request gives, which stand in the words as its other numbers do.
ghost use Rattle.std.specs.Prelude.{◌≡◌};
ghost use Rattle.answers.specs.Lent.{over};
ghost use Rattle.requests.specs.States.{state_count, states_of};

use text::part::within;

// Each word's low byte, into the front of `states`, and how many: as many as both have room for.
pub fn states_of(words: &[u64], states: &mut [u8]) -> usize
    ensures value { result ≡ state_count words.now states.old }
    ensures states_after { states.new
        ≡ over (states_of words.now states.old) states.old }
{
    let count = within(words.len(), states);
    for (i, &word) in words[..count].iter().enumerate() {
        states[i] = (word % 256) as u8;
    }
    count
}
