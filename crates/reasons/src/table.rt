//! The sentences, by their numbers.
ghost use Rattle.std.specs.Prelude.{◌≡◌};
ghost use Rattle.reasons.specs.Sentences.{letter_of};

use text::table::letter_in;

// Words stand for themselves, L, M, N, P, Q, R and S for a number, and a bar for the end.
const SENTENCES: [u8; COUNT * WIDTH] = *b"\
    The pack does not begin with a matrix size that can be read.||||||||||||||||||||||||||||||||||||\
    The parse control needs P byte more, and Q are there.|||||||||||||||||||||||||||||||||||||||||||\
    The parse control gives P bytes to a deviation and Q to a correlation.||||||||||||||||||||||||||\
    The matrix is said to have P rows, and Q to R can be read.||||||||||||||||||||||||||||||||||||||\
    The N deviations of S bytes need P bytes, and Q are there.||||||||||||||||||||||||||||||||||||||\
    The M correlations of L bytes need P bytes, and Q are there.||||||||||||||||||||||||||||||||||||\
    The bit vector of M correlations needs P bytes, and Q are there.||||||||||||||||||||||||||||||||\
    A deviation needs P bytes, and Q are left.||||||||||||||||||||||||||||||||||||||||||||||||||||||\
    A deviation of Q bytes in this form can't be read: only IEEE numbers of 4 or 8 bytes can.|||||||\
    The correlations that the bit vector marks present need P bytes, and Q are left.||||||||||||||||\
    A correlation needs P bytes, and Q are left.||||||||||||||||||||||||||||||||||||||||||||||||||||\
    A mapped correlation of P bytes can't be read: only those of 1 to 8 bytes can.||||||||||||||||||\
    An IEEE correlation of Q bytes can't be read: only those of 4 or 8 bytes can.|||||||||||||||||||\
    The pack ends after P bytes, and Q are there.|||||||||||||||||||||||||||||||||||||||||||||||||||";

pub(crate) const WIDTH: usize = 96;

const COUNT: usize = 14;

// The byte of a sentence at a place, and a bar past its end or past the last sentence.
pub(crate) fn letter(sentence: usize, i: usize) -> u8
    ensures { result ≡ letter_of sentence i }
{
    letter_in(&SENTENCES, WIDTH, b'|', sentence, i)
}
