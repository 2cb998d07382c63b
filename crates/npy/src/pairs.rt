//! The pairs of a file, row by row: the two entries of each are to agree in every bit.
ghost use Rattle.std.specs.Prelude.{◌≡◌, ◌<◌};
ghost use Rattle.answers.specs.Listed.{checked};
ghost use Rattle.npy.specs.Rules.{row_rules, pair_rules};

use crate::entry::MatrixFile;
use answers::Refusal;

impl MatrixFile<'_> {
    // Along row i, and down column i.
    fn check_row(&self, i: usize) -> Result<(), Refusal>
        requires { i < self.now.rows }
        ensures { checked result ≡ row_rules self.now.file.now self.now.rows i }
    {
        let mut along = self.place(i, i + 1);
        let mut down = self.place(i + 1, i);
        for j in i + 1..self.rows {
            if self.entry_at(along) != self.entry_at(down) {
                return Err(Refusal::Asymmetric {
                    i: i as u64,
                    j: j as u64,
                });
            }
            along += 8;
            down += 8 * self.rows;
        }
        Ok(())
    }

    // All rows.
    pub(crate) fn check_pairs(&self) -> Result<(), Refusal>
        ensures { checked result ≡ pair_rules self.now.file.now self.now.rows }
    {
        for i in 0..self.rows {
            self.check_row(i)?;
        }
        Ok(())
    }
}
