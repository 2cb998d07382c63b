//! How the deviations of a pack are read.
ghost use Rattle.std.specs.Prelude.{◌≡◌};
ghost use Rattle.answers.specs.Listed.{checked};
ghost use Rattle.deviations.specs.Form.{form_listed, form_of};
ghost use Rattle.deviations.specs.Range.{lent_rule};

use answers::Refusal;
use layout::control::ParseControl;
use ranges::mapping::{RangeMapping, range_mapping};
use ranges::range::{ImapbParams, check_range};

// The range of deviations in mapped form, which no pack says: it is lent with one, or not at all.
#[derive(Clone, Copy, Debug, PartialEq)]
pub struct DeviationRange {
    pub min: f64,
    pub max: f64,
}

// Two ways of reading, and neither is the want of one, which an `Option` of a `Result` would say.
#[derive(Clone, Copy, Debug, PartialEq)]
pub enum DeviationForm {
    // as the pack says
    Plain,
    // Sf=1, over a range that is lent
    Mapped(Result<RangeMapping, Refusal>),
}

// A range that is lent has codes.
pub fn check_deviation_range(range: Option<DeviationRange>) -> Result<(), Refusal>
    ensures { checked result ≡ lent_rule range }
{
    match range {
        None => Ok(()),
        Some(range) => check_range(range.min, range.max),
    }
}

// What the control and the range decide: the range counts only where Sf=1.
pub fn deviation_form(range: Option<DeviationRange>, control: ParseControl) -> DeviationForm
    ensures { form_listed result ≡ form_of range control }
{
    let Some(DeviationRange { min, max }) = range else {
        return DeviationForm::Plain;
    };
    if control.sf {
        let length = control.slen as usize;
        return DeviationForm::Mapped(range_mapping(ImapbParams { min, max, length }));
    }
    DeviationForm::Plain
}
