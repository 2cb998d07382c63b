//! What the slots of mapped codes were, where a code may be no value.
ghost use Rattle.std.specs.Prelude.{◌≡◌, ◌≤◌, length};
ghost use Rattle.answers.specs.Lent.{over, tab};
ghost use Rattle.elements.specs.Elements.{slot_in};

use crate::coded::Coded;
use crate::mapped::state_at;
use elements::present::is_present;

impl Coded<'_> {
    // What each was, slot by slot.
    pub(crate) fn fill_states(&self, states: &mut [u8])
        requires { self.now.slots ≤ length states.old }
        ensures { states.new
            ≡ over (tab self.now.slots
            (λ k. (slot_in self.now.bytes.now self.now.vector self.now.codes self.now.control k).state)) states.old }
    {
        let Coded {
            bytes,
            vector,
            codes,
            control,
            mapping,
            slots,
        } = *self;
        let mut next = codes;
        for k in 0..slots {
            if is_present(bytes, vector, control, k) {
                states[k] = state_at(bytes, next, mapping);
                next += mapping.length;
            } else {
                states[k] = 0;
            }
        }
    }
}
