//! What there is to tell of a pack.
ghost use Rattle.std.specs.Prelude.{◌≡◌};
ghost use Rattle.explain.specs.Explained.{explained_listed, explained};

use crate::place::place_of;
use crate::spans::{Elements, elements_of};
use answers::Refusal;
use layout::header::Head;
use layout::rule::Rule;
use rules::judge::judge;

// Where the elements of a pack that the reader accepts stand.
#[derive(Clone, Copy, Debug, PartialEq, Eq)]
pub struct Accepted {
    pub head: Head,
    pub elements: Elements,
}

// The rule that refuses a pack, its place and the refusal.
#[derive(Clone, Copy, Debug, PartialEq, Eq)]
pub struct Rejected {
    pub rule: Rule,
    pub place: usize,
    pub refusal: Refusal,
}

// Of every byte string, as the reader takes it that is lent no range.
pub fn explain(bytes: &[u8]) -> Result<Accepted, Rejected>
    ensures { explained_listed result ≡ explained bytes.now }
{
    match judge(bytes) {
        Ok(places) => Ok(Accepted {
            head: places.head,
            elements: elements_of(bytes, places),
        }),
        Err(broken) => Err(Rejected {
            rule: broken.rule,
            place: place_of(bytes, broken.rule, broken.refusal),
            refusal: broken.refusal,
        }),
    }
}
