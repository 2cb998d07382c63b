//! The matrix that is measured, as the bits of binary64s: made in whole numbers, so that it is the same everywhere.
use crate::job::Kind;
use numbers::conversions::nearest_binary64;
use std::num::wrapping_sub_u64;

// The bits of 2^1 and of 2^30, less those of 1: taken off a number's bits they divide it.
const BY_2: u64 = 0x10_0000_0000_0000;

const BY_2_30: u64 = 0x1e0_0000_0000_0000;

const SIGN: u64 = 0x8000_0000_0000_0000;

// Deviation i is i/2.
fn deviation(i: usize) -> u64 {
    if i == 0 {
        return 0;
    }
    wrapping_sub_u64(nearest_binary64(i as u64), BY_2)
}

// Correlation k is (7919k mod 2001 - 1000) / 1000.5, nearly.
fn correlation(k: usize) -> u64 {
    let spread = 7919 * (k as u64 % 2001) % 2001;
    if spread < 1000 {
        return SIGN ^ over_1000_5(1000 - spread);
    }
    over_1000_5(spread - 1000)
}

// A number up to 1,000 over 1000.5, as a whole number of 2^-30, so that it has more digits than the shorter codes
// keep; 0 has no exponent to take from.
fn over_1000_5(size: u64) -> u64 {
    if size == 0 {
        return 0;
    }
    wrapping_sub_u64(nearest_binary64(size % 1024 * 1_073_205), BY_2_30)
}

pub(crate) fn fill_deviations(deviations: &mut [u64]) {
    for (i, bits) in deviations.iter_mut().enumerate() {
        *bits = deviation(i);
    }
}

// Of a sparse matrix one slot in four is present, and not the first, so that a single slot is absent.
fn slot(k: usize, kind: Kind) -> u64 {
    if let Kind::Sparse = kind {
        if k % 4 != 3 {
            return 0;
        }
    }
    correlation(k)
}

pub(crate) fn fill_correlations(correlations: &mut [u64], kind: Kind) {
    for (k, bits) in correlations.iter_mut().enumerate() {
        *bits = slot(k, kind);
    }
}
