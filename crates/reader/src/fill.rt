//! The deviations, in the one pass that decodes and stores them. Everything that can be refused has been by now.
ghost use Rattle.std.specs.Prelude.{◌≡◌, ◌≤◌, length};
ghost use Rattle.answers.specs.Lent.{over, tab};
ghost use Rattle.elements.specs.Numbers.{number_listed};
ghost use Rattle.deviations.specs.Form.{form_listed, form_number};
ghost use Rattle.reader.specs.Rows.{RowsHeld, form_in};

use answers::Refusal;
use deviations::form::DeviationForm;
use deviations::number::deviation_in;
use elements::number::deviation_at;
use layout::control::ParseControl;

// The deviation of a row. One that is as the pack says goes without the range, which is long to hand on.
fn deviation_of(
    bytes: &[u8],
    at: usize,
    control: ParseControl,
    form: DeviationForm,
    row: usize,
) -> Result<u64, Refusal>
    ensures { number_listed result ≡ form_number bytes.now at control (form_listed form) row }
{
    if let DeviationForm::Plain = form {
        return deviation_at(bytes, at, control);
    }
    deviation_in(bytes, at, control, form, row)
}

// Element 4.
pub(crate) fn fill_deviations(
    bytes: &[u8],
    at: usize,
    control: ParseControl,
    form: DeviationForm,
    count: usize,
    out: &mut [u64],
)
    requires { RowsHeld bytes.now at control (form_listed form) count × (count ≤ length out.old) }
    ensures { out.new
        ≡ over (tab count (form_in bytes.now at control (form_listed form))) out.old }
{
    let size = control.slen as usize;
    let mut next = at;
    for i in 0..count {
        let number = deviation_of(bytes, next, control, form, i);
        // never: every deviation has been decided
        let Ok(x) = number else {
            return;
        };
        out[i] = x;
        next += size;
    }
}
