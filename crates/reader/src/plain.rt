//! The plain form of the pass that stores the slots. Everything that can be refused has been by now.
ghost use Rattle.std.specs.Prelude.{◌≡◌, ◌≤◌, length};
ghost use Rattle.answers.specs.Lent.{over, tab};
ghost use Rattle.elements.specs.Elements.{slot_in};
ghost use Rattle.elements.specs.Held.{SlotsHeld};

use elements::present::is_present;
use elements::slot::slot_at;
use layout::control::ParseControl;

// Slot by slot, in every format. The rooms are lent apart, so it is asked here that they are long enough.
pub(crate) fn fill_plain(
    bytes: &[u8],
    vector: usize,
    codes: usize,
    control: ParseControl,
    slots: usize,
    correlations: &mut [u64],
    states: &mut [u8],
)
    requires { SlotsHeld bytes.now vector codes control slots × (slots ≤ length correlations.old)
        × (slots ≤ length states.old) }
    ensures { (correlations.new
        ≡ over (tab slots (λ k. (slot_in bytes.now vector codes control k).bits)) correlations.old)
        × (states.new
        ≡ over (tab slots (λ k. (slot_in bytes.now vector codes control k).state)) states.old) }
{
    let size = control.clen as usize;
    let mut next = codes;
    for k in 0..slots {
        let present = is_present(bytes, vector, control, k);
        let read = slot_at(bytes, next, control, present);
        // never: every slot has been decided
        let Ok(slot) = read else {
            return;
        };
        correlations[k] = slot.bits;
        states[k] = slot.state;
        if present {
            next += size;
        }
    }
}
