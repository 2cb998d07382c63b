//! What came back, held to what was sent.
ghost use Rattle.std.specs.Prelude.{◌≡◌, ◌≤◌, T, length};
ghost use Rattle.std.specs.Float.{binary64};
ghost use Rattle.std.specs.Float.Ieee.{of_bits};
ghost use Rattle.imapb.specs.Mapping.{in_range};
ghost use Rattle.plan.specs.Rules.{InRange, Supported};
ghost use Rattle.trip.specs.Values.{correlation_kept};
ghost use Rattle.trip.specs.Compared.{slot_agrees, deviations_agree, slots_agree, numbers_agree, Comparable};

use imapb::decode::{DecodedImapb, decode_imapb};
use imapb::encode::encode_imapb;
use numbers::conversions::{binary32_to_binary64, binary64_to_binary32};

// Whether each deviation came back as its binary32.
fn same_deviations(sent: &[u64], back: &[u64]) -> bool
    requires { length sent.now ≤ length back.now }
    ensures { result ≡ deviations_agree sent.now back.now }
{
    sent.iter().zip(back).all(|(&d, &r)| r == binary32_to_binary64(binary64_to_binary32(d)))
}

// The value of a correlation's code. What was sent is asked for as the writer's rules have it, and no type carries it.
fn value_back(clen: usize, sent: u64) -> u64
    requires { Supported clen × T (in_range (of_bits binary64 sent)) }
    ensures { result ≡ correlation_kept clen sent }
{
    let mut code = [0u8; 8];
    let Ok(_) = encode_imapb(clen, sent, &mut code) else {
        return 0;
    };
    let read = decode_imapb(clen, &code[..clen]);
    let Ok(decoded) = read else {
        return 0;
    };
    let DecodedImapb::Value(x) = decoded else {
        return 0;
    };
    f64::to_bits(x)
}

// Whether a slot came back: with state 1 it is the value of its code, and one left out is 0 and reads +0.0.
fn same_slot(clen: usize, sent: u64, back: u64, state: u8) -> bool
    requires { Supported clen × T (in_range (of_bits binary64 sent)) }
    ensures { result ≡ slot_agrees clen sent back state }
{
    if state == 1 {
        return back == value_back(clen, sent);
    }
    if state != 0 {
        return false;
    }
    if sent % 0x8000_0000_0000_0000 != 0 {
        return false;
    }
    back == 0
}

// Whether each slot did.
fn same_slots(clen: usize, sent: &[u64], back: &[u64], states: &[u8]) -> bool
    requires { Supported clen × InRange sent.now × (length sent.now ≤ length back.now)
        × (length sent.now ≤ length states.now) }
    ensures { result ≡ slots_agree clen sent.now back.now states.now }
{
    for (k, &slot) in sent.iter().enumerate() {
        if !same_slot(clen, slot, back[k], states[k]) {
            return false;
        }
    }
    true
}

// Whether all numbers did.
pub(crate) fn same_numbers(
    deviations: &[u64],
    correlations: &[u64],
    clen: usize,
    deviations_back: &[u64],
    correlations_back: &[u64],
    states: &[u8],
) -> bool
    requires { Comparable deviations.now correlations.now clen deviations_back.now
        correlations_back.now states.now }
    ensures { result
        ≡ numbers_agree deviations.now correlations.now clen deviations_back.now
        correlations_back.now states.now }
{
    if !same_deviations(deviations, deviations_back) {
        return false;
    }
    same_slots(clen, correlations, correlations_back, states)
}
