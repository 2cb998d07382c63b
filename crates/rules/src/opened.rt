//! A pack that has passed rules a) to g).
ghost use Rattle.std.proofs.Props.{props};
ghost use Rattle.elements.specs.Held.{Placed};

use elements::head::Places;

// Its elements start where its head says, and its rows and its Bit Vector are within the limits.
#[derive(Clone, Copy)]
pub(crate) struct Opened<'a> {
    pub bytes: &'a [u8],
    pub places: Places,
    ghost placed: { Placed bytes.now places } by { Prim.hlevel props },
}
