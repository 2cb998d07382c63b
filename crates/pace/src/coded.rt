//! A code for every slot, one behind the other: of its correlation, or a special one.
use crate::figure;
use imapb::encode::encode_imapb;
use imapb::special::{ImapbSpecial, encode_imapb_special};
use std::num::{wrapping_add_usize, wrapping_sub_usize};
use text::part::within;

// The code of every correlation.
pub(crate) fn of_values(correlations: &[u64], clen: usize, out: &mut [u8]) -> u64 {
    let mut figure: u64 = 0;
    let mut at: usize = 0;
    for &correlation in correlations {
        let written = encode_imapb(clen, correlation, &mut out[at..]);
        figure = figure::add(figure, figure::of_written(written));
        at = within(wrapping_add_usize(at, clen), out);
    }
    figure
}

// The nine in turn, with what fits the three bits that a code of one byte has for it.
fn special(k: usize) -> ImapbSpecial {
    let signal = k as u64 % 8;
    match k % 9 {
        0 => ImapbSpecial::PositiveInfinity,
        1 => ImapbSpecial::NegativeInfinity,
        2 => ImapbSpecial::PositiveQuietNaN { nan_id: signal },
        3 => ImapbSpecial::NegativeQuietNaN { nan_id: signal },
        4 => ImapbSpecial::PositiveSignalingNaN { signal },
        5 => ImapbSpecial::NegativeSignalingNaN { signal },
        6 => ImapbSpecial::BelowMin,
        7 => ImapbSpecial::AboveMax,
        _ => ImapbSpecial::UserDefined { signal },
    }
}

// A special code for each of so many slots. Not one loop with `of_values`: its closure would look up each correlation.
pub(crate) fn of_specials(slots: usize, clen: usize, out: &mut [u8]) -> u64 {
    let mut figure: u64 = 0;
    let mut at: usize = 0;
    for k in 0..slots {
        let written = encode_imapb_special(special(k), clen, &mut out[at..]);
        figure = figure::add(figure, figure::of_written(written));
        at = within(wrapping_add_usize(at, clen), out);
    }
    figure
}

// The bytes of so many codes. No pack has so many slots or so long codes that a remainder would change them.
fn bytes_of(slots: usize, clen: usize) -> usize {
    (slots % 0x1_0000) * (clen % 16)
}

// Special codes in the place of those that end a full pack.
pub(crate) fn over_last(slots: usize, clen: usize, pack: &mut [u8]) {
    let start = within(wrapping_sub_usize(pack.len(), bytes_of(slots, clen)), pack);
    of_specials(slots, clen, &mut pack[start..]);
}
