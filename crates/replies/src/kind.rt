//! The kinds of special code, in the order of their forms.
ghost use Rattle.std.specs.Prelude.{◌≡◌};
ghost use Rattle.replies.specs.Special.{form_for, carried, special_reply, special_of};

use crate::reply::{Reply, one};
use imapb::special::ImapbSpecial;

// The special value that a request names.
pub fn special_of(form: usize, payload: u64) -> ImapbSpecial
    ensures { result ≡ special_of form payload }
{
    match form {
        12 => ImapbSpecial::UserDefined { signal: payload },
        13 => ImapbSpecial::PositiveInfinity,
        14 => ImapbSpecial::PositiveQuietNaN { nan_id: payload },
        15 => ImapbSpecial::PositiveSignalingNaN { signal: payload },
        16 => ImapbSpecial::NegativeInfinity,
        17 => ImapbSpecial::NegativeQuietNaN { nan_id: payload },
        18 => ImapbSpecial::NegativeSignalingNaN { signal: payload },
        19 => ImapbSpecial::BelowMin,
        _ => ImapbSpecial::AboveMax,
    }
}

fn form_for(special: ImapbSpecial) -> usize
    ensures { result ≡ form_for special }
{
    match special {
        ImapbSpecial::UserDefined { signal: _ } => 12,
        ImapbSpecial::PositiveInfinity => 13,
        ImapbSpecial::PositiveQuietNaN { nan_id: _ } => 14,
        ImapbSpecial::PositiveSignalingNaN { signal: _ } => 15,
        ImapbSpecial::NegativeInfinity => 16,
        ImapbSpecial::NegativeQuietNaN { nan_id: _ } => 17,
        ImapbSpecial::NegativeSignalingNaN { signal: _ } => 18,
        ImapbSpecial::BelowMin => 19,
        ImapbSpecial::AboveMax => 20,
    }
}

// The payload, which is 0 where a kind carries none.
fn carried_by(special: ImapbSpecial) -> u64
    ensures { result ≡ carried special }
{
    match special {
        ImapbSpecial::UserDefined { signal } => signal,
        ImapbSpecial::PositiveInfinity => 0,
        ImapbSpecial::PositiveQuietNaN { nan_id } => nan_id,
        ImapbSpecial::PositiveSignalingNaN { signal } => signal,
        ImapbSpecial::NegativeInfinity => 0,
        ImapbSpecial::NegativeQuietNaN { nan_id } => nan_id,
        ImapbSpecial::NegativeSignalingNaN { signal } => signal,
        ImapbSpecial::BelowMin => 0,
        ImapbSpecial::AboveMax => 0,
    }
}

// The reply that names a special value.
pub fn special(special: ImapbSpecial) -> Reply
    ensures { result ≡ special_reply special }
{
    one(form_for(special), carried_by(special))
}
