//! What `to_npy` writes: the .npy file of a pack.
ghost use Rattle.std.specs.Prelude.{◌≡◌, length};
ghost use Rattle.answers.specs.Listed.{written};
ghost use Rattle.answers.specs.Lent.{leaves};
ghost use Rattle.convert.specs.Stream.{Streams};
ghost use Rattle.convert.specs.Converted.{npy_answer, npy_of, npy_stream};

use crate::stream::{Streamed, refused, too_big};
use answers::Refusal;
use npy_export::export::export_npy;
use packs::first::is_too_big;
use packs::pack::{MAX_ROWS, MAX_SLOTS};
use reader::read::decode_sdcc_flp;
use text::room::room_of;

// Any file fits, and any line.
pub const ROOM: usize = 128 + 8 * MAX_ROWS * MAX_ROWS;

// The pack is read, and what it holds is exported.
fn put_npy(bytes: &[u8], out: &mut [u8]) -> Result<usize, Refusal>
    ensures { (written result ≡ npy_answer bytes.now (length out.old))
        × (out.new ≡ leaves (written result) (npy_of bytes.now) out.old) }
{
    let mut deviations: [u64; MAX_ROWS] = room_of(0);
    let mut correlations: [u64; MAX_SLOTS] = room_of(0);
    let mut states: [u8; MAX_SLOTS] = room_of(0);
    let pack = decode_sdcc_flp(bytes, &mut deviations, &mut correlations, &mut states)?;
    let rows = pack.deviations;
    let slots = pack.slots;
    export_npy(
        pack.matrix_size,
        &deviations[..rows],
        &correlations[..slots],
        out,
    )
}

// The file of the pack that the bytes are, over the front of `out`, or why there is none.
pub fn npy_of_pack(bytes: &[u8], out: &mut [u8]) -> Streamed
    ensures { Streams (npy_stream bytes.now (length out.old))
        out.old result out.new }
{
    if is_too_big(bytes) {
        return too_big(out);
    }
    let made = put_npy(bytes, out);
    match made {
        Ok(length) => Streamed::Output(length),
        Err(refusal) => refused(refusal, out),
    }
}
