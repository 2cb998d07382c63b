//! Everything that is stored of a pack but its deviations.
ghost use Rattle.std.specs.Prelude.{◌≡◌, length};
ghost use Rattle.answers.specs.Lent.{leaves};
ghost use Rattle.elements.specs.Elements.{head_of, correlations as correlations_of, states as states_of};
ghost use Rattle.rules.specs.Decided.{decided_listed};
ghost use Rattle.codes.specs.Store.{store_rules, store_ready};

use crate::plain::fill_plain;
use answers::Refusal;
use codes::store::{by_words, store_mapped};
use deviations::form::DeviationRange;
use layout::triangle::corr_slots;
use rules::decide::Decided;

// Rules a) to l), with so much room for deviations, and then the slots.
pub(crate) fn store_slots(
    bytes: &[u8],
    range: Option<DeviationRange>,
    room: usize,
    correlations: &mut [u64],
    states: &mut [u8],
) -> Result<Decided, Refusal>
    ensures { (decided_listed result
        ≡ store_ready range bytes.now room (length correlations.old)
        (length states.old))
        × (correlations.new
        ≡ leaves (store_rules range bytes.now room (length correlations.old)
        (length states.old))
        (correlations_of bytes.now (head_of bytes.now)) correlations.old)
        × (states.new
        ≡ leaves (store_rules range bytes.now room (length correlations.old)
        (length states.old))
        (states_of bytes.now (head_of bytes.now)) states.old) }
{
    let decided = store_mapped(bytes, range, room, correlations, states)?;
    let places = decided.places;
    let head = places.head;
    if by_words(head.control, places.codes) {
        return Ok(decided);
    }
    fill_plain(
        bytes,
        head.body,
        places.codes,
        head.control,
        corr_slots(head.n) as usize,
        correlations,
        states,
    );
    Ok(decided)
}
