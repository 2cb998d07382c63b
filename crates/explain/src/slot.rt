//! The code of one slot.
ghost use Rattle.std.specs.Prelude.{◌≡◌};
ghost use Rattle.explain.specs.Slots.{slot_from, behind};

use crate::spans::Span;
use elements::present::is_present;
use elements::slot::correlation_at;
use layout::header::Head;

// The bytes of a slot's code, and what it was.
#[derive(Clone, Copy, Debug, PartialEq, Eq)]
pub struct SlotCode {
    pub span: Span,
    pub state: u8,
}

// Slot k, where the code of the next present slot starts at a place: so the slots of a pack are told one behind the
// other, each at the same cost. None for one that is absent, and for a code that is refused.
pub fn slot_code(bytes: &[u8], head: Head, k: usize, at: usize) -> Option<SlotCode>
    ensures { result ≡ slot_from bytes.now head k at }
{
    let control = head.control;
    let size = control.clen as usize;
    if !is_present(bytes, head.body, control, k) {
        return None;
    }
    let slot = correlation_at(bytes, at, control).ok()?;
    Some(SlotCode {
        span: Span {
            start: at,
            end: at + size,
        },
        state: slot.state,
    })
}

// Where the code of the next present slot starts, behind a slot that is told where one starts at a place.
pub fn behind(at: usize, code: Option<SlotCode>) -> usize
    ensures { result ≡ behind at code }
{
    code.map_or(at, |code| code.span.end)
}
