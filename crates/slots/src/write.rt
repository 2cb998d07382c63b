//! Elements 3 and 5, each form in the one pass that writes it.
ghost use Rattle.std.specs.Prelude.{◌≡◌, ◌≤◌, length};
ghost use Rattle.plan.specs.Listed.{plan_listed};
ghost use Rattle.slots.specs.Listed.{slots_answer, slots_left, slots_over};

use crate::planned::Planned;
use answers::Refusal;
use plan::pack::plan_pack;
use plan::places::Plan;

impl Planned<'_> {
    // The slots, in the form that the plan has chosen.
    fn write_form(&self, out: &mut [u8])
        requires { self.now.plan.end ≤ length out.old }
        ensures { out.new ≡ slots_over self.now.correlations.now self.now.plan out.old }
    {
        if self.plan.sparse {
            self.write_sent(out);
        } else {
            self.write_all(out);
        }
    }
}

// The slots of a pack of so many rows, where no rule refuses it: the plan, by which the other elements follow.
pub fn write_slots(
    rows: usize,
    correlations: &[u64],
    clen: usize,
    out: &mut [u8],
) -> Result<Plan, Refusal>
    ensures { (plan_listed result
        ≡ slots_answer rows correlations.now clen (length out.old))
        × (out.new ≡ slots_left (plan_listed result) correlations.now out.old) }
{
    let plan = plan_pack(rows, correlations, clen)?;
    if out.len() < plan.end {
        return Err(Refusal::BufferTooSmall {
            needed: plan.end,
            got: out.len(),
        });
    }
    let planned = Planned { correlations, plan };
    planned.write_form(out);
    Ok(plan)
}
