//! The places of a pack's elements.
ghost use Rattle.std.specs.Prelude.{◌≡◌};
ghost use Rattle.elements.specs.Elements.{head_of, places_of};
ghost use Rattle.layout.specs.Header.{control_at};
ghost use Rattle.layout.specs.Ruled.{passed};
ghost use Rattle.rules.specs.Named.{pack_ruled};
ghost use Rattle.explain.specs.Found.{Sized};
ghost use Rattle.explain.specs.Spans.{elements_of};

use elements::head::Places;
use numbers::ber_oid::read_ber_oid;

// From a byte on, up to another.
#[derive(Clone, Copy, Debug, PartialEq, Eq)]
pub struct Span {
    pub start: usize,
    pub end: usize,
}

// The five elements, one behind the other.
#[derive(Clone, Copy, Debug, PartialEq, Eq)]
pub struct Elements {
    pub n: Span,
    pub control: Span,
    pub vector: Span,
    pub deviations: Span,
    pub codes: Span,
}

// The first control byte, which N is followed by.
pub(crate) fn control_at(bytes: &[u8]) -> usize
    requires { Sized bytes.now }
    ensures { result ≡ control_at bytes.now }
{
    read_ber_oid(bytes).unwrap().taken
}

// Those of a pack that passes all rules, so that nothing stands behind its codes.
pub(crate) fn elements_of(bytes: &[u8], places: Places) -> Elements
    requires { (pack_ruled bytes.now ≡ passed) × (places ≡ places_of (head_of bytes.now)) }
    ensures { result ≡ elements_of bytes.now }
{
    let control = control_at(bytes);
    let body = places.head.body;
    Elements {
        n: Span {
            start: 0,
            end: control,
        },
        control: Span {
            start: control,
            end: body,
        },
        vector: Span {
            start: body,
            end: places.deviations,
        },
        deviations: Span {
            start: places.deviations,
            end: places.codes,
        },
        codes: Span {
            start: places.codes,
            end: bytes.len(),
        },
    }
}
