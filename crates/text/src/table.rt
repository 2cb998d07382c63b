//! Tables of letters: a row for each form, all of one width, with a mark behind the forms that are shorter.
ghost use Rattle.std.specs.Prelude.{◌≡◌};
ghost use Rattle.text.specs.Forms.{letter_in};

// The letter at a place of a form, and the mark past the row's end or past the last row.
pub fn letter_in(table: &[u8], width: usize, mark: u8, form: usize, i: usize) -> u8
    ensures { result ≡ letter_in table.now width mark form i }
{
    if width <= i {
        return mark;
    }
    if table.len() / width <= form {
        return mark;
    }
    table[form * width + i]
}
