//! The floor of a number that is not above 0.
ghost use Rattle.std.specs.Prelude.{◌≡◌};
ghost use Rattle.ranges.specs.Floor.{floor_of, Falls};

use std::num::{nearest_u64_to_f64, truncating_f64_to_u64};

// Towards zero first, and one further down where there is a fraction.
pub(crate) fn floor_of(x: f64) -> f64
    requires { Falls x }
    ensures { result ≡ floor_of x }
{
    let whole = truncating_f64_to_u64(-x);
    let above = -nearest_u64_to_f64(whole);
    if x < above {
        -nearest_u64_to_f64(whole + 1)
    } else {
        above
    }
}
