//! Import: the matrix of a .npy file.
ghost use Rattle.std.specs.Prelude.{◌≡◌, ◌≤◌, length};
ghost use Rattle.answers.specs.Listed.{checked};
ghost use Rattle.reader.specs.Listed.{read_listed};
ghost use Rattle.npy_header.specs.Header.{header_length, size_in};
ghost use Rattle.npy.specs.Rules.{size_rules, file_rules, import_rules, import_answer};
ghost use Rattle.npy.specs.Left.{left_deviations, left_correlations, left_states};

use crate::entry::MatrixFile;
use crate::store::store_states;
use answers::Refusal;
use layout::pack::SdccFlp;
use layout::triangle::corr_slots;
use npy_header::check::{check_header, size_in};
use npy_header::header::HEADER_LENGTH;
use rules::rooms::check_rooms_for;

// N, and the body's length.
fn check_size(file: &[u8], n: u64) -> Result<(), Refusal>
    requires { header_length ≤ length file.now }
    ensures { checked result ≡ size_rules file.now n }
{
    if SdccFlp::MAX_ROWS < n {
        return Err(Refusal::OutOfRange {
            value: n,
            least: 0,
            most: SdccFlp::MAX_ROWS,
        });
    }
    let rows = n as usize;
    let expected = 8 * (rows * rows);
    let got = file.len() - HEADER_LENGTH;
    if got != expected {
        return Err(Refusal::InvalidLength { expected, got });
    }
    Ok(())
}

// The header, N, the body's length, the pairs.
fn check_file(file: &[u8], n: u64) -> Result<(), Refusal>
    requires { n ≡ size_in file.now }
    ensures { checked result ≡ file_rules file.now }
{
    check_header(file)?;
    check_size(file, n)?;
    let matrix = MatrixFile {
        file,
        rows: n as usize,
    };
    matrix.check_pairs()
}

// And then the rooms.
fn check_import(
    file: &[u8],
    n: u64,
    deviations: usize,
    correlations: usize,
    states: usize,
) -> Result<(), Refusal>
    requires { n ≡ size_in file.now }
    ensures { checked result ≡ import_rules file.now deviations correlations states }
{
    check_file(file, n)?;
    check_rooms_for(
        n as usize,
        corr_slots(n as u32) as usize,
        deviations,
        correlations,
        states,
    )
}

// The matrix that the file holds, its numbers by their bits into the lent memory, with every state 1.
pub fn import_npy(
    file: &[u8],
    deviations: &mut [u64],
    correlations: &mut [u64],
    states: &mut [u8],
) -> Result<SdccFlp, Refusal>
    ensures { (read_listed result
        ≡ import_answer file.now (length deviations.old) (length correlations.old)
        (length states.old))
        × (deviations.new ≡ left_deviations (read_listed result) file.now deviations.old)
        × (correlations.new ≡ left_correlations (read_listed result) file.now correlations.old)
        × (states.new ≡ left_states (read_listed result) file.now states.old) }
{
    let n = size_in(file);
    check_import(file, n, deviations.len(), correlations.len(), states.len())?;
    let rows = n as usize;
    let slots = corr_slots(n as u32) as usize;
    let matrix = MatrixFile { file, rows };
    matrix.store_deviations(deviations);
    matrix.store_correlations(correlations);
    store_states(slots, states);
    Ok(SdccFlp {
        matrix_size: n,
        deviations: rows,
        slots,
    })
}
