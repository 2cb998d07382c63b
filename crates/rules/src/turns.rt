//! Rules h) and j): each element in turn, decided by the first and by how many bytes there are, or one by one.
ghost use Rattle.std.specs.Prelude.{◌≡◌, ◌*◌, ◌≤◌, ◌<◌, ◌^◌, length};
ghost use Rattle.answers.specs.Listed.{checked};
ghost use Rattle.layout.specs.Size.{max_rows};
ghost use Rattle.deviations.specs.Form.{form_listed};
ghost use Rattle.rules.specs.Decided.{form_rule};
ghost use Rattle.rules.specs.Turns.{turns_rule};

use answers::Refusal;
use deviations::form::DeviationForm;
use deviations::number::deviation_in;
use layout::control::ParseControl;

// `count` elements of `size` bytes, of which the first's answer is given, with so many bytes left for all.
pub(crate) fn in_turn(
    first: Result<(), Refusal>,
    count: usize,
    size: usize,
    left: usize,
) -> Result<(), Refusal>
    requires { count * size < 2 ^ 64 }
    ensures { checked result ≡ turns_rule (checked first) count size left }
{
    if count == 0 {
        return Ok(());
    }
    first?;
    let all = count * size;
    if left < all {
        // those before the one that is short are whole
        Err(Refusal::TruncatedField {
            needed: size,
            got: left % size,
        })
    } else {
        Ok(())
    }
}

// Deviations that each can be refused: one row after the other.
pub(crate) fn rows_in_turn(
    bytes: &[u8],
    at: usize,
    control: ParseControl,
    form: DeviationForm,
    count: usize,
) -> Result<(), Refusal>
    requires { (at ≤ length bytes.now) × (count ≤ max_rows) }
    ensures { checked result ≡ form_rule bytes.now at control (form_listed form) count }
{
    let size = control.slen as usize;
    let mut next = at;
    for row in 0..count {
        deviation_in(bytes, next, control, form, row)?;
        next += size;
    }
    Ok(())
}
