//! Rules a) to k), of the bytes and the range that is lent.
ghost use Rattle.std.specs.Prelude.{◌≡◌, ◌-◌, ◌*◌, ◌<◌, ◌^◌, length};
ghost use Rattle.answers.specs.Listed.{checked};
ghost use Rattle.elements.specs.Numbers.{refusal_of};
ghost use Rattle.elements.specs.Slots.{present_read};
ghost use Rattle.layout.specs.Ruled.{ruled};
ghost use Rattle.elements.specs.Elements.{deviation_count};
ghost use Rattle.deviations.specs.Form.{form_listed};
ghost use Rattle.rules.specs.Decided.{decided_listed, decided, form_rule};
ghost use Rattle.rules.specs.Turns.{turns_rule};
ghost use Rattle.rules.specs.Rules.{code_ruled, element_ruled};
ghost use Rattle.rules.specs.Rules.{codes_rule, over_rule};

use crate::opened::Opened;
use crate::turns::{in_turn, rows_in_turn};
use answers::Refusal;
use deviations::form::{DeviationForm, DeviationRange, check_deviation_range, deviation_form};
use elements::head::{Places, deviation_count, open_pack};
use elements::number::{check_number, deviation_at, left};
use elements::present::present_count;
use elements::slot::{check_slot, correlation_at};
use layout::control::ParseControl;
use layout::rule::{Broken, Rule, by};

// What the rules decide of a pack that passes them: where its elements start, and how its deviations are read.
#[derive(Clone, Copy, Debug, PartialEq)]
pub struct Decided {
    pub places: Places,
    pub form: DeviationForm,
}

// Rule i): the codes that a Bit Vector announces are there.
fn codes_there(control: ParseControl, present: usize, after: usize) -> Result<(), Refusal>
    requires { present * control.clen < 2 ^ 64 }
    ensures { checked result ≡ codes_rule control present after }
{
    if !control.cs {
        return Ok(());
    }
    let needed = present * control.clen as usize;
    if after < needed {
        Err(Refusal::TruncatedField { needed, got: after })
    } else {
        Ok(())
    }
}

// Rule j): every present slot, by the first of them.
fn codes_held(bytes: &[u8], control: ParseControl, at: usize, present: usize) -> Result<(), Refusal>
    requires { present * control.clen < 2 ^ 64 }
    ensures { checked result
        ≡ turns_rule (refusal_of (present_read bytes.now at control)) present control.clen
        (length bytes.now - at) }
{
    let first = check_slot(correlation_at(bytes, at, control));
    in_turn(first, present, control.clen as usize, left(bytes, at))
}

// Rule k): nothing is left over.
fn nothing_over(bytes: &[u8], end: usize) -> Result<(), Refusal>
    ensures { checked result ≡ over_rule end (length bytes.now) }
{
    if end < bytes.len() {
        return Err(Refusal::InvalidLength {
            expected: end,
            got: bytes.len(),
        });
    }
    Ok(())
}

impl Opened<'_> {
    // Rule h): every deviation. Mapped ones are each looked at; of the others the first tells.
    fn deviations_held(self, form: DeviationForm) -> Result<(), Refusal>
        ensures { checked result
            ≡ form_rule self.entry.bytes.now self.entry.places.deviations self.entry.places.head.control
            (form_listed form)
            (deviation_count self.entry.places.head) }
    {
        let Opened { bytes, places } = self;
        let head = places.head;
        let control = head.control;
        let at = places.deviations;
        let count = deviation_count(head);
        if let DeviationForm::Mapped(_) = form {
            return rows_in_turn(bytes, at, control, form, count);
        }
        let first = check_number(deviation_at(bytes, at, control));
        in_turn(first, count, control.slen as usize, left(bytes, at))
    }

    // Rules i) to k).
    fn codes_whole(self) -> Result<(), Broken>
        ensures { ruled result ≡ code_ruled self.entry.bytes.now self.entry.places.head }
    {
        let Opened { bytes, places } = self;
        let head = places.head;
        let control = head.control;
        let at = places.codes;
        let present = present_count(bytes, head);
        by(Rule::I, codes_there(control, present, left(bytes, at)))?;
        by(Rule::J, codes_held(bytes, control, at, present))?;
        by(
            Rule::K,
            nothing_over(bytes, at + present * control.clen as usize),
        )
    }

    // Rules h) to k), of a pack that has passed a) to g).
    pub(crate) fn elements_whole(self, form: DeviationForm) -> Result<(), Broken>
        ensures { ruled result
            ≡ element_ruled (form_rule self.entry.bytes.now self.entry.places.deviations
            self.entry.places.head.control (form_listed form)
            (deviation_count self.entry.places.head)) self.entry.bytes.now self.entry.places.head }
    {
        by(Rule::H, self.deviations_held(form))?;
        self.codes_whole()
    }
}

// The range that is lent, and rules a) to k).
pub fn decide(bytes: &[u8], range: Option<DeviationRange>) -> Result<Decided, Refusal>
    ensures { decided_listed result ≡ decided range bytes.now }
{
    check_deviation_range(range)?;
    let places = open_pack(bytes)?;
    let form = deviation_form(range, places.head.control);
    let opened = Opened { bytes, places };
    opened.elements_whole(form)?;
    Ok(Decided { places, form })
}
