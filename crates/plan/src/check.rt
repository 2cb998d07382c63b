//! What is refused before the pack's length is known: the counts, Clen, and each correlation in turn.
ghost use Rattle.std.specs.Prelude.{◌≡◌, length};
ghost use Rattle.answers.specs.Listed.{checked};
ghost use Rattle.plan.specs.Listed.{count_listed, counted_one, counted};
ghost use Rattle.plan.specs.Rules.{count_rules};
ghost use Rattle.plan.specs.Tally.{bits_met, least_met};

use crate::zero::{least_of, raised, zero_of};
use answers::Refusal;
use imapb::encode::check_range;
use layout::pack::SdccFlp;
use layout::triangle::corr_slots;

// N, the count of correlations, Clen.
pub(crate) fn check_counts(rows: usize, count: usize, clen: usize) -> Result<(), Refusal>
    ensures { checked result ≡ count_rules rows count clen }
{
    if SdccFlp::MAX_ROWS < rows as u64 {
        return Err(Refusal::TooManyRows { n: rows });
    }
    let slots = corr_slots(rows as u32);
    if count as u64 != slots {
        return Err(Refusal::OutOfRange {
            value: count as u64,
            least: slots,
            most: slots,
        });
    }
    if clen < 1 || 8 < clen {
        return Err(Refusal::UnsupportedImapbLength { length: clen });
    }
    Ok(())
}

// One correlation: 1 where it is 0, and 0 for another from -1 to 1.
fn check_one(value: u64) -> Result<usize, Refusal>
    ensures { count_listed result ≡ counted_one value }
{
    check_range(value)?;
    Ok(zero_of(value))
}

// The plain form: each correlation in turn.
fn check_each(correlations: &[u64]) -> Result<usize, Refusal>
    ensures { count_listed result ≡ counted correlations.now }
{
    let mut zeros: usize = 0;
    for &value in correlations {
        zeros += check_one(value)?;
    }
    Ok(zeros)
}

// The bits that are set in one number or another, itself or raised, and how many of them are 0.
#[derive(Clone, Copy, Debug, PartialEq, Eq)]
pub(crate) struct Tally {
    bits: u64,
    zeros: usize,
}

// The one pass that checks and counts, with no branch. Where the second highest bit is clear, every number is below 1
// without its sign, and the zeros are counted.
fn tally_of(correlations: &[u64]) -> Tally
    ensures { (result.bits ≡ bits_met correlations.now (length correlations.now))
        × (result.zeros ≡ least_met correlations.now (length correlations.now)) }
{
    let mut bits: u64 = 0;
    let mut zeros: usize = 0;
    for &value in correlations {
        let high = raised(value);
        bits |= value | high;
        zeros += least_of(high);
    }
    Tally { bits, zeros }
}

// Where a number is 1 or more, the plain form looks at each in turn.
pub(crate) fn check_correlations(correlations: &[u64]) -> Result<usize, Refusal>
    ensures { count_listed result ≡ counted correlations.now }
{
    let found = tally_of(correlations);
    if found.bits / 0x4000_0000_0000_0000 % 2 == 0 {
        return Ok(found.zeros);
    }
    check_each(correlations)
}
