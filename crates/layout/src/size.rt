//! The rules that a pack's size decides.
ghost use Rattle.std.specs.Prelude.{◌≡◌, ltb};
ghost use Rattle.answers.specs.Table.{short, pick, passes};
ghost use Rattle.answers.specs.Listed.{checked};
ghost use Rattle.layout.specs.Ruled.{ruled};
ghost use Rattle.layout.specs.Size.{size_ruled, peeked};

use crate::control::ParseControl;
use crate::header::header_behind;
use crate::pack::SdccFlp;
use crate::rule::{Broken, Rule, by};
use crate::triangle::corr_slots;
use answers::Refusal;
use numbers::ber_oid::read_ber_oid;

// Whether so many bytes are left.
fn held(needed: usize, left: usize) -> Result<(), Refusal>
    ensures { checked result ≡ pick (ltb left needed) (short needed left) passes }
{
    if left < needed {
        Err(Refusal::TruncatedField { needed, got: left })
    } else {
        Ok(())
    }
}

// Rules c) to g), with so many bytes left after Parse Control.
pub fn check_matrix_size_fits(n: u32, remaining: usize, control: ParseControl) -> Result<(), Broken>
    ensures { ruled result ≡ size_ruled n remaining control }
{
    let rows = n as u64;
    let slen = control.slen as usize;
    let clen = control.clen as usize;
    if slen + clen == 0 {
        return Err(Broken {
            rule: Rule::C,
            refusal: Refusal::InvalidLength {
                expected: 0,
                got: 0,
            },
        });
    }
    if SdccFlp::MAX_ROWS < rows {
        return Err(Broken {
            rule: Rule::D,
            refusal: Refusal::OutOfRange {
                value: rows,
                least: 0,
                most: SdccFlp::MAX_ROWS,
            },
        });
    }
    by(Rule::E, held(n as usize * slen, remaining))?;
    let slots = corr_slots(n) as usize;
    if control.cs {
        return by(Rule::G, held((slots + 7) / 8, remaining));
    }
    by(Rule::F, held(slots * clen, remaining))
}

// N, where rules a) to g) pass. It costs the same for any pack.
pub fn peek_matrix_size(bytes: &[u8]) -> Option<u32>
    ensures { result ≡ peeked bytes.now }
{
    let oid = read_ber_oid(bytes)?;
    let head = header_behind(bytes, oid.value, oid.taken).ok()?;
    check_matrix_size_fits(head.n, bytes.len() - head.body, head.control).ok()?;
    Some(head.n)
}
