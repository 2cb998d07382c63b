//! The slots of a pack that no rule refuses, with its plan.
ghost use Rattle.std.proofs.Props.{props};
ghost use Rattle.slots.specs.Fill.{SlotsFit};

use plan::places::Plan;

// Every correlation has a code of the plan's length, and elements 3 and 5 stand at its places up to its end. `out` is
// lent apart, so whoever writes to it asks that it is long enough.
#[derive(Clone, Copy)]
pub(crate) struct Planned<'a> {
    pub correlations: &'a [u64],
    pub plan: Plan,
    ghost fits: { SlotsFit plan.sparse correlations.now plan.clen plan.vector plan.codes plan.end
        plan.end } by { Prim.hlevel props },
}
