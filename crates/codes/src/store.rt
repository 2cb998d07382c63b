//! The slots of a pack that the rules have passed, where its codes are read by words.
ghost use Rattle.std.specs.Prelude.{◌≡◌, ◌+◌, ◌/◌, ◌≤◌, true, length};
ghost use Rattle.answers.specs.Lent.{over, tab};
ghost use Rattle.elements.specs.Elements.{head_of, slot_in, correlations as correlations_of, states as states_of};
ghost use Rattle.elements.specs.Held.{SlotsHeld};
ghost use Rattle.rules.specs.Decided.{decided_listed};
ghost use Rattle.codes.specs.Store.{by_words, store_ready, left_by_words};

use crate::coded::Coded;
use answers::Refusal;
use deviations::form::DeviationRange;
use imapb::mapping::imapb_mapping;
use layout::control::ParseControl;
use layout::triangle::corr_slots;
use rules::decide::{Decided, decide};
use rules::rooms::check_rooms;

// Codes in mapped form, of a length that has codes, each the end of a word of eight bytes.
pub fn by_words(control: ParseControl, codes: usize) -> bool
    ensures { result ≡ by_words control codes }
{
    if control.clen < 1 {
        return false;
    }
    if 8 < control.clen {
        return false;
    }
    if codes < 8 {
        return false;
    }
    control.cf
}

// Elements 3 and 5. Not inlined: the loops have the registers to themselves.
#[inline(never)]
fn fill_mapped(
    bytes: &[u8],
    vector: usize,
    codes: usize,
    control: ParseControl,
    slots: usize,
    correlations: &mut [u64],
    states: &mut [u8],
)
    requires { SlotsHeld bytes.now vector codes control slots
        × (control.cs ≡ true → vector + (slots + 7) / 8 ≤ length bytes.now) × (by_words control codes ≡ true)
        × (slots ≤ length correlations.old) × (slots ≤ length states.old) }
    ensures { (correlations.new
        ≡ over (tab slots (λ k. (slot_in bytes.now vector codes control k).bits)) correlations.old)
        × (states.new
        ≡ over (tab slots (λ k. (slot_in bytes.now vector codes control k).state)) states.old) }
{
    // never: the length has codes
    let Some(mapping) = imapb_mapping(control.clen as usize) else {
        return;
    };
    let coded = Coded {
        bytes,
        vector,
        codes,
        control,
        mapping,
        slots,
    };
    let met = coded.fill_values(correlations, states);
    if met <= mapping.top {
        return;
    }
    coded.fill_states(states)
}

// Rules a) to l), with so much room for deviations; and then the slots, where they are read by words.
pub fn store_mapped(
    bytes: &[u8],
    range: Option<DeviationRange>,
    room: usize,
    correlations: &mut [u64],
    states: &mut [u8],
) -> Result<Decided, Refusal>
    ensures { (decided_listed result
        ≡ store_ready range bytes.now room (length correlations.old)
        (length states.old))
        × (correlations.new
        ≡ left_by_words range bytes.now room (length correlations.old)
        (length states.old)
        (correlations_of bytes.now (head_of bytes.now)) correlations.old)
        × (states.new
        ≡ left_by_words range bytes.now room (length correlations.old)
        (length states.old)
        (states_of bytes.now (head_of bytes.now)) states.old) }
{
    let decided = decide(bytes, range)?;
    let places = decided.places;
    let head = places.head;
    check_rooms(head, room, correlations.len(), states.len())?;
    if !by_words(head.control, places.codes) {
        return Ok(decided);
    }
    let slots = corr_slots(head.n) as usize;
    fill_mapped(
        bytes,
        head.body,
        places.codes,
        head.control,
        slots,
        correlations,
        states,
    );
    Ok(decided)
}
