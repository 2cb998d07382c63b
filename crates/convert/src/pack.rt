//! What `to_pack` writes: the pack of a .npy file.
ghost use Rattle.std.specs.Prelude.{◌≡◌, length};
ghost use Rattle.answers.specs.Listed.{written};
ghost use Rattle.answers.specs.Lent.{leaves};
ghost use Rattle.writer.specs.Pack.{pack_bytes};
ghost use Rattle.writer.specs.Rules.{write_answer};
ghost use Rattle.convert.specs.Stream.{Streams};
ghost use Rattle.convert.specs.Converted.{clen_of, pack_answer, pack_of, pack_stream};

use crate::stream::{Streamed, refused, too_big};
use answers::Refusal;
use npy::import::import_npy;
use packs::first::is_too_big;
use packs::pack::{MAX_ROWS, MAX_SLOTS};
use text::room::room_of;
use writer::write::{encode_sdcc_flp, encode_sdcc_flp_mode2};

// Any pack fits, and any line: two bytes of N and two of control, four to a deviation and eight to a code.
pub const ROOM: usize = 4 + 4 * MAX_ROWS + 8 * MAX_SLOTS;

fn write_with(
    clen: Option<usize>,
    deviations: &[u64],
    correlations: &[u64],
    out: &mut [u8],
) -> Result<usize, Refusal>
    ensures { (written result
        ≡ write_answer deviations.now correlations.now (clen_of clen) (length out.old))
        × (out.new ≡ leaves (written result)
        (pack_bytes deviations.now correlations.now (clen_of clen)) out.old) }
{
    match clen {
        None => encode_sdcc_flp(deviations, correlations, out),
        Some(length) => encode_sdcc_flp_mode2(deviations, correlations, length, out),
    }
}

// The file is imported, and what it holds is written.
fn put_pack(clen: Option<usize>, file: &[u8], out: &mut [u8]) -> Result<usize, Refusal>
    ensures { (written result ≡ pack_answer file.now (clen_of clen) (length out.old))
        × (out.new ≡ leaves (written result) (pack_of file.now (clen_of clen)) out.old) }
{
    let mut deviations: [u64; MAX_ROWS] = room_of(0);
    let mut correlations: [u64; MAX_SLOTS] = room_of(0);
    let mut states: [u8; MAX_SLOTS] = room_of(0);
    let pack = import_npy(file, &mut deviations, &mut correlations, &mut states)?;
    let rows = pack.deviations;
    let slots = pack.slots;
    write_with(clen, &deviations[..rows], &correlations[..slots], out)
}

// The pack of the matrix that the file holds, over the front of `out`, or why there is none.
pub fn pack_of_npy(clen: Option<usize>, file: &[u8], out: &mut [u8]) -> Streamed
    ensures { Streams (pack_stream file.now (clen_of clen) (length out.old))
        out.old result out.new }
{
    if is_too_big(file) {
        return too_big(out);
    }
    let made = put_pack(clen, file, out);
    match made {
        Ok(length) => Streamed::Output(length),
        Err(refusal) => refused(refusal, out),
    }
}
