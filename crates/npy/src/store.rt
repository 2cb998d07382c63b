//! A file's numbers, stored in the one pass that decodes them. Everything that can be refused has been by now.
ghost use Rattle.std.specs.Prelude.{◌≡◌, ◌+◌, ◌≤◌, ◌<◌, length};
ghost use Rattle.std.proofs.lemmas.List.Edits.{sets};
ghost use Rattle.answers.specs.Lent.{over, tab};
ghost use Rattle.layout.specs.Triangle.{slots_of, slot_of};
ghost use Rattle.npy.specs.Matrix.{deviations_in, row_in, correlations_in};

use crate::entry::MatrixFile;

impl MatrixFile<'_> {
    // The diagonal.
    pub(crate) fn store_deviations(&self, deviations: &mut [u64])
        requires { self.now.rows ≤ length deviations.old }
        ensures { deviations.new ≡ over (deviations_in self.now.file.now self.now.rows) deviations.old }
    {
        let mut at = self.place(0, 0);
        for deviation in &mut deviations[..self.rows] {
            *deviation = self.entry_at(at);
            at += 8 * self.rows + 8;
        }
    }

    // The slots of row i, of which the first is given, a fact of this call alone; and a room that is lent apart.
    fn store_row(&self, i: usize, first: usize, correlations: &mut [u64])
        requires { (i < self.now.rows) × (first ≡ slot_of self.now.rows i (i + 1))
            × (slots_of self.now.rows ≤ length correlations.old) }
        ensures { correlations.new
            ≡ sets correlations.old first (row_in self.now.file.now self.now.rows i) }
    {
        let count = self.rows - 1 - i;
        let mut at = self.place(i, i + 1);
        for correlation in &mut correlations[first..first + count] {
            *correlation = self.entry_at(at);
            at += 8;
        }
    }

    // Row by row; the first slot of each row is carried along.
    pub(crate) fn store_correlations(&self, correlations: &mut [u64])
        requires { slots_of self.now.rows ≤ length correlations.old }
        ensures { correlations.new
            ≡ over (correlations_in self.now.file.now self.now.rows) correlations.old }
    {
        let mut first: usize = 0;
        for i in 0..self.rows {
            self.store_row(i, first, correlations);
            first += self.rows - 1 - i;
        }
    }
}

// Every slot is a value.
pub(crate) fn store_states(slots: usize, states: &mut [u8])
    requires { slots ≤ length states.old }
    ensures { states.new ≡ over (tab slots (λ _. 1)) states.old }
{
    states[..slots].fill(1);
}
