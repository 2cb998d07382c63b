//! The slots of a pack whose codes are in mapped form and are read by words.
ghost use Rattle.std.proofs.Props.{props};
ghost use Rattle.codes.specs.Fill.{Mapped};

use imapb::mapping::Mapping;
use layout::control::ParseControl;

// The Bit Vector, if there is one, and the codes stand where they are said to, and the mapping is that of the codes.
// The rooms are lent apart, so whoever fills one asks that it is long enough.
#[derive(Clone, Copy)]
pub(crate) struct Coded<'a> {
    pub bytes: &'a [u8],
    pub vector: usize,
    pub codes: usize,
    pub control: ParseControl,
    pub mapping: Mapping,
    pub slots: usize,
    ghost mapped: { Mapped bytes.now vector codes control mapping slots } by { Prim.hlevel props },
}
