//! The entries of a file, each a binary64 by its bits, low byte first: where one stands, and one read.
ghost use Rattle.std.specs.Prelude.{◌≡◌, ◌+◌, ◌≤◌, length};
ghost use Rattle.numbers.specs.Words.{low_word_of};
ghost use Rattle.layout.specs.Size.{max_rows};
ghost use Rattle.elements.specs.Elements.{part};
ghost use Rattle.npy_export.specs.File.{file_length};
ghost use Rattle.npy.specs.Matrix.{place_of};

use npy_header::header::HEADER_LENGTH;
use numbers::words::read_le;

// A file that holds all entries of so many rows.
#[derive(Clone, Copy)]
pub(crate) struct MatrixFile<'a> {
    pub file: &'a [u8],
    pub rows: usize,
    ghost few: { rows ≤ max_rows },
    ghost whole: { file_length rows ≤ length file.now },
}

impl MatrixFile<'_> {
    // Where entry (i, j) starts.
    pub(crate) fn place(&self, i: usize, j: usize) -> usize
        requires { (i ≤ self.now.rows) × (j ≤ self.now.rows) }
        ensures { result ≡ place_of self.now.rows i j }
    {
        HEADER_LENGTH + 8 * (i * self.rows + j)
    }

    // The one at a place.
    pub(crate) fn entry_at(&self, at: usize) -> u64
        requires { at + 8 ≤ length self.now.file.now }
        ensures { result ≡ low_word_of (part self.now.file.now at 8) }
    {
        let end = at + 8;
        read_le(&self.file[at..end])
    }
}
