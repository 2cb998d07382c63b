//! The form of a pack, and the places of its elements.
ghost use Rattle.std.specs.Prelude.{◌≡◌, ◌≤◌};
ghost use Rattle.layout.specs.Size.{max_rows, max_slots};
ghost use Rattle.plan.specs.Places.{vector_length, sent_count, plan_of};

use numbers::ber_oid::ber_oid_len;

// Elements 1 and 2 start at 0; `end` is the pack's length.
#[derive(Clone, Copy, Debug, PartialEq, Eq)]
pub struct Plan {
    pub clen: usize,
    pub sparse: bool,
    pub vector: usize,
    pub deviations: usize,
    pub codes: usize,
    pub end: usize,
}

// The bytes of element 3.
fn vector_length(sparse: bool, slots: usize) -> usize
    requires { slots ≤ max_slots }
    ensures { result ≡ vector_length sparse slots }
{
    if sparse { (slots + 7) / 8 } else { 0 }
}

// The codes of element 5.
fn sent_count(sparse: bool, slots: usize, zeros: usize) -> usize
    requires { zeros ≤ slots }
    ensures { result ≡ sent_count sparse slots zeros }
{
    if sparse { slots - zeros } else { slots }
}

// Appendix A's rule decides the form. What bounds the four numbers is asked here, and no type: each is used as a
// number.
pub(crate) fn plan_of(rows: usize, slots: usize, zeros: usize, clen: usize) -> Plan
    requires { (rows ≤ max_rows) × (slots ≤ max_slots) × (zeros ≤ slots) × (clen ≤ 8) }
    ensures { result ≡ plan_of rows slots zeros clen }
{
    let sparse = slots < 8 * zeros * clen;
    let vector = ber_oid_len(rows as u32) + 2;
    let deviations = vector + vector_length(sparse, slots);
    let codes = deviations + 4 * rows;
    Plan {
        clen,
        sparse,
        vector,
        deviations,
        codes,
        end: codes + sent_count(sparse, slots, zeros) * clen,
    }
}
