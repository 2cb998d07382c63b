//! The slots of a sparse pack: eight to a byte of the Bit Vector, and a code for each that is not 0.
ghost use Rattle.std.specs.Prelude.{◌≡◌, true, not, ◌+◌, ◌*◌, ◌≤◌, ◌<◌, T, length, get_or, set};
ghost use Rattle.std.proofs.lemmas.List.Edits.{sets};
ghost use Rattle.std.specs.Float.{binary64};
ghost use Rattle.std.specs.Float.Ieee.{of_bits};
ghost use Rattle.answers.specs.Table.{pick};
ghost use Rattle.layout.specs.Size.{max_slots};
ghost use Rattle.imapb.specs.Mapping.{in_range};
ghost use Rattle.plan.specs.Rules.{Supported};
ghost use Rattle.plan.specs.Zero.{is_zero};
ghost use Rattle.slots.specs.Slots.{eight_bits, element3, element5};
ghost use Rattle.slots.specs.Fill.{Begun, RestFits};
ghost use Rattle.slots.specs.Fill.{codes_from, codes_of, sent_bytes, vector_from, words_of};

use crate::code::{put_slot, put_word};
use crate::planned::Planned;
use plan::zero::zero_of;

// What eight slots came to: their byte of the Bit Vector, and the place behind their codes.
#[derive(Clone, Copy, Debug, PartialEq, Eq)]
pub(crate) struct Group {
    pub(crate) bits: u8,
    pub(crate) next: usize,
}

// So many bytes of the Bit Vector, and the place behind the codes of their slots.
#[derive(Clone, Copy, Debug, PartialEq, Eq)]
pub(crate) struct Sent {
    pub(crate) bytes: usize,
    pub(crate) next: usize,
}

// A correlation, and 0 past the last one.
fn value_at(correlations: &[u64], k: usize) -> u64
    ensures { result ≡ get_or correlations.now k 0 }
{
    if k < correlations.len() {
        correlations[k]
    } else {
        0
    }
}

// The code of a correlation unless that is 0, from a place on: its bit of the Bit Vector.
fn put_sent(value: u64, clen: usize, at: usize, out: &mut [u8]) -> u8
    requires { Supported clen × T (in_range (of_bits binary64 value))
        × (at + length (sent_bytes value clen) ≤ length out.old) }
    ensures { (result ≡ pick (not (is_zero value)) 1 0)
        × (out.new ≡ sets out.old at (sent_bytes value clen)) }
{
    // the count of zeros that it is
    if zero_of(value) == 1 {
        return 0;
    }
    put_slot(value, clen, at, out);
    1
}

impl Planned<'_> {
    // Eight slots of a sparse pack, their codes from a place on.
    fn write_group(&self, from: usize, at: usize, out: &mut [u8]) -> Group
        requires { (from ≤ max_slots)
            × (at + length (codes_of true self.now.correlations.now self.now.plan.clen from 8) ≤ length out.old) }
        ensures { (result.bits ≡ eight_bits true self.now.correlations.now from)
            × (result.next ≡ at + length (codes_of true self.now.correlations.now self.now.plan.clen from 8))
            × (out.new ≡ sets out.old at (codes_of true self.now.correlations.now self.now.plan.clen from 8)) }
    {
        let clen = self.plan.clen;
        let mut bits: u8 = 0;
        let mut next = at;
        for j in 0..8 {
            let bit = put_sent(value_at(self.correlations, from + j), clen, next, out);
            bits = bits * 2 + bit;
            next += bit as usize * clen;
        }
        Group { bits, next }
    }

    // Eight slots of a sparse pack, their codes by words, and their byte of the Bit Vector to a place before them:
    // where the next code goes. Each bit is added in its place, and the correlation is looked at again behind that: so
    // the compiler tests it where it stands.
    fn write_group_words(&self, from: usize, at: usize, place: usize, out: &mut [u8]) -> usize
        requires { (from + 8 ≤ length self.now.correlations.now) × (place < at)
            × (at + 8 * self.now.plan.clen + 8 ≤ length out.old) }
        ensures { (result ≡ at + length (codes_of true self.now.correlations.now self.now.plan.clen from 8))
            × (out.new ≡ sets (set out.old place (eight_bits true self.now.correlations.now from)) at
            (words_of true self.now.correlations.now self.now.plan.clen from 8)) }
    {
        let Planned { correlations, plan } = *self;
        out[place] = 0;
        let mut next = at;
        for j in 0..8 {
            if correlations[from + j] % 0x8000_0000_0000_0000 != 0 {
                out[place] = out[place] + (128 >> j);
                put_word(correlations[from + j], next, out);
                next += plan.clen;
            }
        }
        next
    }

    // The first slots of a sparse pack, eight to a byte of the Bit Vector, by words while those end before the pack
    // does. That there are eight more follows.
    fn write_sent_words(&self, out: &mut [u8]) -> Sent
        requires { (self.now.plan.sparse ≡ true) × (self.now.plan.end ≤ length out.old) }
        ensures { Begun self.now.correlations.now self.now.plan.clen self.now.plan.vector self.now.plan.codes
            self.now.plan.end result.bytes result.next out.old out.new }
    {
        let plan = self.plan;
        let reach = 8 * plan.clen + 8;
        if plan.end < plan.codes + reach {
            return Sent {
                bytes: 0,
                next: plan.codes,
            };
        }
        let limit = plan.end - reach;
        let mut next = plan.codes;
        let mut i: usize = 0;
        // as long as the words of eight more slots fit, which their codes decide
        while next <= limit {
            next = self.write_group_words(8 * i, next, plan.vector + i, out);
            i += 1;
        }
        Sent { bytes: i, next }
    }

    // The plain form, from a byte of the Bit Vector on.
    fn write_sent_each(&self, from: Sent, out: &mut [u8])
        requires { RestFits self.now.correlations.now self.now.plan.clen self.now.plan.vector from.bytes from.next
            (length out.old) }
        ensures { out.new ≡ sets
            (sets out.old (self.now.plan.vector + from.bytes) (vector_from self.now.correlations.now from.bytes))
            from.next (codes_from self.now.correlations.now self.now.plan.clen from.bytes) }
    {
        let bytes = (self.correlations.len() + 7) / 8;
        let mut next = from.next;
        for i in from.bytes..bytes {
            let group = self.write_group(8 * i, next, out);
            out[self.plan.vector + i] = group.bits;
            next = group.next;
        }
    }

    // The slots of a sparse pack.
    pub(crate) fn write_sent(&self, out: &mut [u8])
        requires { (self.now.plan.sparse ≡ true) × (self.now.plan.end ≤ length out.old) }
        ensures { out.new
            ≡ sets (sets out.old self.now.plan.vector (element3 true self.now.correlations.now)) self.now.plan.codes
            (element5 true self.now.correlations.now self.now.plan.clen) }
    {
        let first = self.write_sent_words(out);
        self.write_sent_each(first, out);
    }
}
