//! The plan of a pack, or why it has none.
ghost use Rattle.std.specs.Prelude.{◌≡◌};
ghost use Rattle.plan.specs.Listed.{plan_listed, planned};

use crate::check::{check_correlations, check_counts};
use crate::places::{Plan, plan_of};
use answers::Refusal;
use layout::pack::bounded_slots;

// The writer's order up to the last correlation, and then the plan. The limit on the slots bounds what is planned with.
pub fn plan_pack(rows: usize, correlations: &[u64], clen: usize) -> Result<Plan, Refusal>
    ensures { plan_listed result ≡ planned rows correlations.now clen }
{
    check_counts(rows, correlations.len(), clen)?;
    let zeros = check_correlations(correlations)?;
    let slots = bounded_slots(correlations.len() as u64);
    Ok(plan_of(rows, slots, zeros, clen))
}
