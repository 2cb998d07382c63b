//! What the first two elements say of a pack, and where the others start.
ghost use Rattle.std.specs.Prelude.{◌≡◌};
ghost use Rattle.layout.specs.Size.{fit_ruled};
ghost use Rattle.elements.specs.Elements.{vector_length, deviation_count, places_of};
ghost use Rattle.elements.specs.Held.{Within};
ghost use Rattle.elements.specs.Listed.{pack_of, opened_listed, verdict};

use answers::Refusal;
use layout::header::{Head, HeaderError, read_header};
use layout::pack::SdccFlp;
use layout::rule::{Broken, Rule};
use layout::size::check_matrix_size_fits;
use layout::triangle::corr_slots;

// What elements 1 and 2 say, and where elements 4 and 5 start.
#[derive(Clone, Copy, Debug, PartialEq, Eq)]
pub struct Places {
    pub head: Head,
    pub deviations: usize,
    pub codes: usize,
}

// N deviations, or none for Slen=0.
pub fn deviation_count(head: Head) -> usize
    ensures { result ≡ deviation_count head }
{
    if head.control.slen == 0 {
        0
    } else {
        head.n as usize
    }
}

// The bytes of element 3.
fn vector_length(head: Head) -> usize
    ensures { result ≡ vector_length head }
{
    if head.control.cs {
        (corr_slots(head.n) as usize + 7) / 8
    } else {
        0
    }
}

// What a pack of that head holds. A function and no `From`: `Determined` names it.
pub fn pack_of(head: Head) -> SdccFlp
    ensures { result ≡ pack_of head }
{
    SdccFlp {
        matrix_size: head.n as u64,
        deviations: deviation_count(head),
        slots: corr_slots(head.n) as usize,
    }
}

fn places_of(bytes: &[u8], head: Head) -> Places
    requires { Within bytes.now head }
    ensures { result ≡ places_of head }
{
    let deviations = head.body + vector_length(head);
    Places {
        head,
        deviations,
        codes: deviations + head.n as usize * head.control.slen as usize,
    }
}

// Rules a) to g), and where the elements of what passes them start.
pub fn open_pack(bytes: &[u8]) -> Result<Places, Broken>
    ensures { opened_listed result ≡ verdict bytes.now (fit_ruled bytes.now) }
{
    match read_header(bytes) {
        Err(HeaderError::Unreadable) => Err(Broken {
            rule: Rule::A,
            refusal: Refusal::TruncatedField { needed: 0, got: 0 },
        }),
        Err(HeaderError::Short) => Err(Broken {
            rule: Rule::B,
            refusal: Refusal::TruncatedField { needed: 1, got: 0 },
        }),
        Ok(head) => {
            check_matrix_size_fits(head.n, bytes.len() - head.body, head.control)?;
            Ok(places_of(bytes, head))
        }
    }
}
