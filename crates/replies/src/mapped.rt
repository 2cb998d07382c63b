//! The reply on a mapped value.
ghost use Rattle.std.specs.Prelude.{◌≡◌};
ghost use Rattle.replies.specs.Replies.{decoded_reply, mapped_reply};

use crate::forms::{OUTSIDE, RESERVED, VALUE};
use crate::kind;
use crate::refusal::refused;
use crate::reply::{Reply, one};
use answers::Refusal;
use imapb::decode::DecodedImapb;
use numbers::conversions::bits_of;

fn of_decoded(decoded: DecodedImapb) -> Reply
    ensures { result ≡ decoded_reply decoded }
{
    match decoded {
        DecodedImapb::Value(value) => one(VALUE, bits_of(value)),
        DecodedImapb::Special(special) => kind::special(special),
        DecodedImapb::ReservedSpecial { raw } => one(RESERVED, raw),
        DecodedImapb::OutOfRange { decoded } => one(OUTSIDE, bits_of(decoded)),
    }
}

pub fn of_mapped(read: Result<DecodedImapb, Refusal>) -> Reply
    ensures { result ≡ mapped_reply read }
{
    match read {
        Ok(decoded) => of_decoded(decoded),
        Err(refusal) => refused(refusal),
    }
}
