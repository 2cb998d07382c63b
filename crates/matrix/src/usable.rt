//! Whether a matrix can be used.
ghost use Rattle.std.specs.Prelude.{◌≡◌, ◌&&◌};
ghost use Rattle.matrix.specs.Usable.{counts_fit, is_deviation, is_correlation, is_settled, first_all, is_usable};

use imapb::encode::check_range;
use layout::pack::SdccFlp;
use layout::triangle::corr_slots;

// The bits of the infinity, above which stand only NaNs and negative numbers, and of -0.0.
const INFINITY: u64 = 0x7ff0_0000_0000_0000;

const MINUS_ZERO: u64 = 0x8000_0000_0000_0000;

// The limit, and the counts that N asks for.
fn counts_fit(pack: SdccFlp) -> bool
    ensures { result ≡ counts_fit pack }
{
    let n = pack.matrix_size;
    if SdccFlp::MAX_ROWS < n || pack.slots as u64 != corr_slots(n as u32) {
        return false;
    }
    pack.deviations == 0 || pack.deviations as u64 == n
}

// Finite and at least 0, either zero.
fn is_deviation(bits: u64) -> bool
    ensures { result ≡ is_deviation bits }
{
    bits < INFINITY || bits == MINUS_ZERO
}

// From -1 to 1.
fn is_correlation(bits: u64) -> bool
    ensures { result ≡ is_correlation bits }
{
    check_range(bits).is_ok()
}

// So many deviations, each of them one that can be used.
fn deviations_fit(count: usize, deviations: &[u64]) -> bool
    ensures { result ≡ first_all is_deviation count deviations.now }
{
    count <= deviations.len() && deviations[..count].iter().all(|&bits| is_deviation(bits))
}

// A slot that can be used: absent or a value, from -1 to 1. Any other slot reads 0.0, so its state alone tells it.
fn slot_fits(bits: u64, state: u8) -> bool
    ensures { result ≡ (is_correlation bits && is_settled state) }
{
    state < 2 && is_correlation(bits)
}

// So many slots, each of them one that can be used.
fn slots_fit(count: usize, correlations: &[u64], states: &[u8]) -> bool
    ensures { result
        ≡ (first_all is_correlation count correlations.now && first_all is_settled count states.now) }
{
    if correlations.len() < count || states.len() < count {
        return false;
    }
    correlations[..count]
        .iter()
        .zip(&states[..count])
        .all(|(&bits, &state)| slot_fits(bits, state))
}

// Whether the numbers that a pack counts, with so many states, are those of a matrix.
pub fn usable(
    pack: SdccFlp,
    state_count: usize,
    deviations: &[u64],
    correlations: &[u64],
    states: &[u8],
) -> bool
    ensures { result
        ≡ is_usable pack state_count deviations.now correlations.now states.now }
{
    counts_fit(pack)
        && state_count == pack.slots
        && deviations_fit(pack.deviations, deviations)
        && slots_fit(pack.slots, correlations, states)
}
