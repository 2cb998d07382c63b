//! Export: a matrix as a .npy file.
ghost use Rattle.std.specs.Prelude.{◌≡◌, ◌≤◌, length};
ghost use Rattle.answers.specs.Listed.{written, checked};
ghost use Rattle.answers.specs.Lent.{leaves};
ghost use Rattle.layout.specs.Size.{max_rows};
ghost use Rattle.npy_export.specs.File.{file_length, file_of};
ghost use Rattle.npy_export.specs.Rules.{export_rules, export_answer};

use crate::write::put_body;
use answers::Refusal;
use layout::pack::SdccFlp;
use layout::triangle::corr_slots;
use npy_header::header::{HEADER_LENGTH, write_header};

// How long the file of so many rows is.
fn file_length(rows: usize) -> usize
    requires { rows ≤ max_rows }
    ensures { result ≡ file_length rows }
{
    HEADER_LENGTH + 8 * (rows * rows)
}

// N, the two counts, the room.
fn check_export(n: u64, deviations: usize, correlations: usize, room: usize) -> Result<(), Refusal>
    ensures { checked result ≡ export_rules n deviations correlations room }
{
    if SdccFlp::MAX_ROWS < n {
        return Err(Refusal::OutOfRange {
            value: n,
            least: 0,
            most: SdccFlp::MAX_ROWS,
        });
    }
    let rows = n as usize;
    if deviations != rows {
        return Err(Refusal::InvalidLength {
            expected: rows,
            got: deviations,
        });
    }
    let slots = corr_slots(n as u32) as usize;
    if correlations != slots {
        return Err(Refusal::InvalidLength {
            expected: slots,
            got: correlations,
        });
    }
    let needed = file_length(rows);
    if room < needed {
        return Err(Refusal::BufferTooSmall { needed, got: room });
    }
    Ok(())
}

// The file of N rows with these numbers, each by its bits, over the front of `out`.
pub fn export_npy(
    n: u64,
    deviations: &[u64],
    correlations: &[u64],
    out: &mut [u8],
) -> Result<usize, Refusal>
    ensures { (written result
        ≡ export_answer n (length deviations.now) (length correlations.now)
        (length out.old))
        × (out.new ≡ leaves (written result)
        (file_of n deviations.now correlations.now) out.old) }
{
    check_export(n, deviations.len(), correlations.len(), out.len())?;
    let rows = n as usize;
    // it fits: a room for the file was asked for
    let _ = write_header(n, out);
    put_body(rows, deviations, correlations, out);
    Ok(file_length(rows))
}
