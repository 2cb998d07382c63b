//! The reader's answer as lines: of the pack that was read, or of the refusal.
ghost use Rattle.text.specs.Page.{Adds};
ghost use Rattle.report.specs.Answer.{answer_lines, answered, Left};

use crate::pack::put_pack;
use lines::refusal::put_refusal;
use reader::read::decode_sdcc_flp;
use text::page::Page;

// The pack is read into the rooms that are lent.
pub fn put_answer(
    bytes: &[u8],
    deviations: &mut [u64],
    correlations: &mut [u64],
    states: &mut [u8],
    page: &mut Page<'_>,
)
    ensures { Adds (answer_lines bytes.now
        (answered bytes.now deviations.old correlations.old states.old))
        page.old page.new
        × Left bytes.now deviations.old correlations.old states.old
        deviations.new correlations.new states.new }
{
    let read = decode_sdcc_flp(bytes, deviations, correlations, states);
    match read {
        Ok(pack) => put_pack(pack, deviations, correlations, states, page),
        Err(refusal) => put_refusal(refusal, page),
    }
}
