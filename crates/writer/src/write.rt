//! `encode_sdcc_flp_mode2`, and the one that takes no Clen.
ghost use Rattle.std.specs.Prelude.{◌≡◌, length};
ghost use Rattle.answers.specs.Listed.{written};
ghost use Rattle.answers.specs.Lent.{leaves};
ghost use Rattle.writer.specs.Pack.{pack_bytes};
ghost use Rattle.writer.specs.Rules.{default_clen, write_answer};

use crate::elements::write_others;
use answers::Refusal;
use slots::write::write_slots;

const DEFAULT_CLEN: usize = 2;

// A pack of Mode 2: deviations as binary32, correlations mapped to Clen bytes each, sparse where Appendix A says so.
pub fn encode_sdcc_flp_mode2(
    deviations: &[u64],
    correlations: &[u64],
    clen: usize,
    out: &mut [u8],
) -> Result<usize, Refusal>
    ensures { (written result
        ≡ write_answer deviations.now correlations.now clen (length out.old))
        × (out.new ≡ leaves (written result)
        (pack_bytes deviations.now correlations.now clen) out.old) }
{
    let plan = write_slots(deviations.len(), correlations, clen, out)?;
    write_others(deviations, plan, out);
    Ok(plan.end)
}

// With the Clen that the standard's users agree on where nobody names one.
pub fn encode_sdcc_flp(
    deviations: &[u64],
    correlations: &[u64],
    out: &mut [u8],
) -> Result<usize, Refusal>
    ensures { (written result
        ≡ write_answer deviations.now correlations.now default_clen (length out.old))
        × (out.new ≡ leaves (written result)
        (pack_bytes deviations.now correlations.now default_clen) out.old) }
{
    encode_sdcc_flp_mode2(deviations, correlations, DEFAULT_CLEN, out)
}
