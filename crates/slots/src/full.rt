//! The slots of a full pack: a code for each.
ghost use Rattle.std.specs.Prelude.{◌≡◌, false, ◌+◌, ◌-◌, ◌*◌, ◌≤◌, length};
ghost use Rattle.std.proofs.lemmas.List.Edits.{sets};
ghost use Rattle.slots.specs.Slots.{element5};
ghost use Rattle.slots.specs.Fill.{codes_of, words_of};

use crate::code::{put_slot, put_word};
use crate::planned::Planned;

impl Planned<'_> {
    // The first codes of a full pack, by words.
    fn write_words(&self, count: usize, out: &mut [u8])
        requires { (count ≤ length self.now.correlations.now)
            × (self.now.plan.codes + (count + 7) * self.now.plan.clen ≤ length out.old) }
        ensures { out.new ≡ sets out.old self.now.plan.codes
            (words_of false self.now.correlations.now self.now.plan.clen 0 count) }
    {
        let mut next = self.plan.codes;
        for &value in &self.correlations[..count] {
            put_word(value, next, out);
            next += self.plan.clen;
        }
    }

    // The plain form, from a slot on: every correlation's code.
    fn write_each(&self, from: usize, at: usize, out: &mut [u8])
        requires { (from ≤ length self.now.correlations.now)
            × (at + (length self.now.correlations.now - from) * self.now.plan.clen ≤ length out.old) }
        ensures { out.new ≡ sets out.old at
            (codes_of false self.now.correlations.now self.now.plan.clen from
            (length self.now.correlations.now - from)) }
    {
        let mut next = at;
        for &value in &self.correlations[from..] {
            put_slot(value, self.plan.clen, next, out);
            next += self.plan.clen;
        }
    }

    // Every correlation's code: the slots of a full pack. The last seven are not written by words, which would end
    // behind them.
    pub(crate) fn write_all(&self, out: &mut [u8])
        requires { (self.now.plan.sparse ≡ false) × (self.now.plan.end ≤ length out.old) }
        ensures { out.new ≡ sets out.old self.now.plan.codes
            (element5 false self.now.correlations.now self.now.plan.clen) }
    {
        let at = self.plan.codes;
        if self.correlations.len() < 8 {
            self.write_each(0, at, out);
        } else {
            let words = self.correlations.len() - 7;
            self.write_words(words, out);
            self.write_each(words, at + words * self.plan.clen, out);
        }
    }
}
