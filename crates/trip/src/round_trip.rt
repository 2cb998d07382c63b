//! `round_trip`: writes, reads what was written, and compares.
ghost use Rattle.trip.specs.Tripped.{lent_of, Tripped};

use crate::compare::same_numbers;
use reader::read::decode_sdcc_flp;
use writer::write::encode_sdcc_flp_mode2;

// Whether the deviations and the correlations, written to the front of `pack` and read from there, come back.
pub fn round_trip(
    deviations: &[u64],
    correlations: &[u64],
    clen: usize,
    pack: &mut [u8],
    deviations_back: &mut [u64],
    correlations_back: &mut [u64],
    states: &mut [u8],
) -> bool
    ensures { Tripped deviations.now correlations.now clen
        (lent_of pack.old deviations_back.old correlations_back.old
        states.old)
        (lent_of pack.new deviations_back.new correlations_back.new
        states.new) result }
{
    let written = encode_sdcc_flp_mode2(deviations, correlations, clen, pack);
    let Ok(n) = written else {
        return false;
    };
    let bytes = &pack[..];
    let read = decode_sdcc_flp(&bytes[..n], deviations_back, correlations_back, states);
    let Ok(_) = read else {
        return false;
    };
    same_numbers(
        deviations,
        correlations,
        clen,
        deviations_back,
        correlations_back,
        states,
    )
}
