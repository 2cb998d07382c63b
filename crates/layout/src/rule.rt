//! The rules of the reader's order, by name.
ghost use Rattle.std.specs.Prelude.{◌≡◌};
ghost use Rattle.answers.specs.Listed.{checked};
ghost use Rattle.layout.specs.Ruled.{passed, named, ruled};

use answers::Refusal;

// a) to k), in the order in which a pack is held to them.
#[derive(Clone, Copy, Debug, PartialEq, Eq)]
pub enum Rule {
    A,
    B,
    C,
    D,
    E,
    F,
    G,
    H,
    I,
    J,
    K,
}

// Of rules one behind the other, the first that does not pass, and its refusal.
#[derive(Clone, Copy, Debug, PartialEq, Eq)]
pub struct Broken {
    pub rule: Rule,
    pub refusal: Refusal,
}

// The refusal, without the name.
impl From<Broken> for Refusal {
    ghost from_gives = { λ broken refusal. refusal ≡ broken.refusal };

    fn from(broken: Broken) -> Refusal {
        broken.refusal
    }
}

// What a rule answers, under its name.
pub fn by(rule: Rule, check: Result<(), Refusal>) -> Result<(), Broken>
    ensures { ruled result ≡ named rule (checked check) passed }
{
    check.map_err(|refusal| Broken { rule, refusal })
}
