//! What a function that reads a pack answers, and what it leaves in the lists that it is lent.
ghost use Rattle.std.specs.Prelude.{◌≡◌};
ghost use Rattle.text.specs.Page.{Adds};
ghost use Rattle.shown.specs.Pack.{pack_of, is_touched, read_text};

use crate::lines::{put_deviations, put_slots};
use crate::touched::put_touched;
use answers::Refusal;
use layout::pack::SdccFlp;
use replies::pack::of_read;
use replies::put::put_reply;
use text::marks;
use text::page::Page;

// How much is lent of each list.
#[derive(Clone, Copy, Debug, PartialEq, Eq)]
pub struct Lent {
    pub deviations: u64,
    pub correlations: u64,
    pub states: u64,
}

// What was read; nothing of a pack that was refused.
fn pack_of(read: Result<SdccFlp, Refusal>) -> SdccFlp
    ensures { result ≡ pack_of read }
{
    read.unwrap_or(SdccFlp {
        matrix_size: 0,
        deviations: 0,
        slots: 0,
    })
}

// Whether an entry that was lent, past those of the pack, is without its mark.
fn touched(
    lent: Lent,
    pack: SdccFlp,
    deviations: &[u64],
    correlations: &[u64],
    states: &[u8],
) -> bool
    ensures { result ≡ is_touched lent pack
        deviations.now correlations.now states.now }
{
    if marks::changed(deviations, pack.deviations, lent.deviations) {
        return true;
    }
    if marks::changed(correlations, pack.slots, lent.correlations) {
        return true;
    }
    marks::changed(states, pack.slots, lent.states)
}

pub fn put_pack(
    lent: Lent,
    read: Result<SdccFlp, Refusal>,
    deviations: &[u64],
    correlations: &[u64],
    states: &[u8],
    page: &mut Page<'_>,
)
    ensures { Adds (read_text lent read
        deviations.now correlations.now states.now)
        page.old page.new }
{
    let pack = pack_of(read);
    put_reply(of_read(read), page);
    put_deviations(pack.deviations, deviations, page);
    put_slots(pack.matrix_size, pack.slots, correlations, states, page);
    put_touched(touched(lent, pack, deviations, correlations, states), page);
}
