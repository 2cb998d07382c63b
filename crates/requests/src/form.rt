//! Which form a line has.
ghost use Rattle.std.specs.Prelude.{◌≡◌};
ghost use Rattle.requests.specs.Form.{begins_as, form_of};

use replies::forms::{BAD_REQUEST, is_field, letter};

// Whether the line begins as a form does, up to its first field.
fn begins_as(form: usize, line: &[u8]) -> bool
    ensures { result ≡ begins_as form line.now }
{
    for (i, &byte) in line.iter().enumerate() {
        let letter = letter(form, i);
        if is_field(letter) {
            return true;
        }
        if byte != letter {
            return false;
        }
    }
    false
}

// The one form that the line begins as.
pub(crate) fn form_of(line: &[u8]) -> usize
    ensures { result ≡ form_of line.now }
{
    for form in 0..BAD_REQUEST {
        if begins_as(form, line) {
            return form;
        }
    }
    BAD_REQUEST
}
