//! The rooms that a matrix's numbers need: rule l) of a pack.
ghost use Rattle.std.specs.Prelude.{◌≡◌};
ghost use Rattle.answers.specs.Listed.{checked};
ghost use Rattle.rules.specs.Rules.{rooms_rule, room_rules};

use answers::Refusal;
use elements::head::pack_of;
use layout::header::Head;

// The first short buffer, where so many rows and slots are needed.
pub fn check_rooms_for(
    rows: usize,
    slots: usize,
    deviations: usize,
    correlations: usize,
    states: usize,
) -> Result<(), Refusal>
    ensures { checked result ≡ rooms_rule rows slots deviations correlations states }
{
    if deviations < rows {
        return Err(Refusal::BufferTooSmall {
            needed: rows,
            got: deviations,
        });
    }
    if correlations < slots {
        return Err(Refusal::BufferTooSmall {
            needed: slots,
            got: correlations,
        });
    }
    if states < slots {
        return Err(Refusal::BufferTooSmall {
            needed: slots,
            got: states,
        });
    }
    Ok(())
}

// Those of a pack.
pub fn check_rooms(
    head: Head,
    deviations: usize,
    correlations: usize,
    states: usize,
) -> Result<(), Refusal>
    ensures { checked result ≡ room_rules head deviations correlations states }
{
    let pack = pack_of(head);
    check_rooms_for(
        pack.deviations,
        pack.slots,
        deviations,
        correlations,
        states,
    )
}
