//! Elements 1, 2 and 4, each written to its place: what N and the deviations decide.
ghost use Rattle.std.specs.Prelude.{◌≡◌, ◌++◌, ◌+◌, ◌*◌, ◌≤◌, length};
ghost use Rattle.std.proofs.lemmas.List.Edits.{sets};
ghost use Rattle.layout.specs.Size.{max_rows};
ghost use Rattle.numbers.specs.BerOid.{oid_length};
ghost use Rattle.writer.specs.Pack.{control_byte, element1, element2, element4, others_over};

use numbers::ber_oid::write_ber_oid;
use numbers::conversions::binary64_to_binary32;
use numbers::words::write_be;
use plan::places::Plan;

// Mode 2, Cf=1; CS where the pack is sparse, a bit of the byte. Bounded numbers, and no types of them: each is a number
// here.
fn control_byte(sparse: bool, clen: usize) -> u8
    requires { clen ≤ 8 }
    ensures { result ≡ control_byte sparse clen }
{
    if sparse {
        0xb0 + clen as u8
    } else {
        0x90 + clen as u8
    }
}

// N and Parse Control.
fn write_head(rows: usize, sparse: bool, clen: usize, out: &mut [u8])
    requires { (rows ≤ max_rows) × (clen ≤ 8) × (oid_length rows + 2 ≤ length out.old) }
    ensures { out.new ≡ sets out.old 0 (element1 rows ++ element2 sparse clen) }
{
    let Ok(taken) = write_ber_oid(rows as u32, out) else {
        return;
    };
    out[taken] = control_byte(sparse, clen);
    // Sf=0, Slen=4
    out[taken + 1] = 4;
}

// The deviations as binary32, from a place on: no page, since they are proved to fit.
fn write_deviations(deviations: &[u64], at: usize, out: &mut [u8])
    requires { at + 4 * length deviations.now ≤ length out.old }
    ensures { out.new ≡ sets out.old at (element4 deviations.now) }
{
    let mut next = at;
    for &deviation in deviations {
        let end = next + 4;
        write_be(binary64_to_binary32(deviation) as u64, &mut out[next..end]);
        next = end;
    }
}

// All three, by the plan.
pub(crate) fn write_others(deviations: &[u64], plan: Plan, out: &mut [u8])
    requires { (length deviations.now ≤ max_rows) × (plan.clen ≤ 8)
        × (oid_length (length deviations.now) + 2 ≤ plan.deviations)
        × (plan.deviations + 4 * length deviations.now ≤ length out.old) }
    ensures { out.new ≡ others_over deviations.now plan out.old }
{
    write_head(deviations.len(), plan.sparse, plan.clen, out);
    write_deviations(deviations, plan.deviations, out);
}
