//! `decode_sdcc_flp`, and the reader that is lent a range: the rules in their order, and only then what is stored.
ghost use Rattle.std.specs.Prelude.{◌≡◌, length};
ghost use Rattle.reader.specs.Listed.{read_listed};
ghost use Rattle.deviations.specs.Range.{known};
ghost use Rattle.reader.specs.Rules.{read_answer_in, read_answer};
ghost use Rattle.reader.specs.Read.{left_deviations_in, left_deviations, left_correlations, left_states};

use crate::fill::fill_deviations;
use crate::store::store_slots;
use answers::Refusal;
use deviations::form::DeviationRange;
use elements::head::pack_of;
use layout::pack::SdccFlp;

// Over a range for deviations in mapped form, or none.
fn read_pack(
    bytes: &[u8],
    range: Option<DeviationRange>,
    deviations: &mut [u64],
    correlations: &mut [u64],
    states: &mut [u8],
) -> Result<SdccFlp, Refusal>
    ensures { (read_listed result
        ≡ read_answer_in range bytes.now (length deviations.old)
        (length correlations.old) (length states.old))
        × (deviations.new
        ≡ left_deviations_in range (read_listed result) bytes.now deviations.old)
        × (correlations.new ≡ left_correlations (read_listed result) bytes.now correlations.old)
        × (states.new ≡ left_states (read_listed result) bytes.now states.old) }
{
    let decided = store_slots(bytes, range, deviations.len(), correlations, states)?;
    let places = decided.places;
    let pack = pack_of(places.head);
    fill_deviations(
        bytes,
        places.deviations,
        places.head.control,
        decided.form,
        pack.deviations,
        deviations,
    );
    Ok(pack)
}

// The pack that the bytes are, its numbers into the lent memory: each buffer by itself, since a struct of the three
// would be made for the call alone.
pub fn decode_sdcc_flp(
    bytes: &[u8],
    deviations: &mut [u64],
    correlations: &mut [u64],
    states: &mut [u8],
) -> Result<SdccFlp, Refusal>
    ensures { (read_listed result
        ≡ read_answer bytes.now (length deviations.old) (length correlations.old)
        (length states.old))
        × (deviations.new ≡ left_deviations (read_listed result) bytes.now deviations.old)
        × (correlations.new ≡ left_correlations (read_listed result) bytes.now correlations.old)
        × (states.new ≡ left_states (read_listed result) bytes.now states.old) }
{
    read_pack(bytes, None, deviations, correlations, states)
}

// The same, over a range from min to max for deviations in mapped form.
pub fn decode_sdcc_flp_in(
    bytes: &[u8],
    min: f64,
    max: f64,
    deviations: &mut [u64],
    correlations: &mut [u64],
    states: &mut [u8],
) -> Result<SdccFlp, Refusal>
    ensures { (read_listed result
        ≡ read_answer_in (known min max) bytes.now (length deviations.old)
        (length correlations.old) (length states.old))
        × (deviations.new
        ≡ left_deviations_in (known min max) (read_listed result) bytes.now deviations.old)
        × (correlations.new ≡ left_correlations (read_listed result) bytes.now correlations.old)
        × (states.new ≡ left_states (read_listed result) bytes.now states.old) }
{
    read_pack(
        bytes,
        Some(DeviationRange { min, max }),
        deviations,
        correlations,
        states,
    )
}
