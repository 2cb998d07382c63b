//! The cells of a matrix, looked up in lent memory.
ghost use Rattle.std.specs.Prelude.{◌≡◌, min, max, ◌≤◌, ◌<◌};
ghost use Rattle.layout.specs.Size.{max_rows};
ghost use Rattle.layout.specs.Triangle.{triangle_slot};
ghost use Rattle.matrix.specs.Lookup.{cell_listed, entry_answer, cell_answer};

use answers::Refusal;
use layout::pack::SdccFlp;
use layout::triangle::triangle_slot;

// The entry at a place, where the lent values hold so many, as cell (i, j).
fn entry(lent: &[u64], count: usize, place: u64, i: u64, j: u64) -> Result<u64, Refusal>
    ensures { cell_listed result ≡ entry_answer lent.now count place i j }
{
    if count as u64 <= place || lent.len() as u64 <= place {
        return Err(Refusal::NoSuchCell { i, j });
    }
    Ok(lent[place as usize])
}

// The slot of (i, j), either way round.
fn pair_slot(n: u64, i: u64, j: u64) -> Option<u64>
    requires { (n ≤ max_rows) × (i < n) × (j < n) }
    ensures { result ≡ triangle_slot n (min i j) (max i j) }
{
    if i < j {
        return triangle_slot(i as u32, j as u32, n as u32);
    }
    triangle_slot(j as u32, i as u32, n as u32)
}

// The correlation of i and j, and for i = j the deviation: the lent numbers each by itself, as the reader fills them.
pub fn correlation(
    pack: SdccFlp,
    deviations: &[u64],
    correlations: &[u64],
    i: u64,
    j: u64,
) -> Result<u64, Refusal>
    ensures { cell_listed result ≡ cell_answer pack deviations.now correlations.now i j }
{
    let n = pack.matrix_size;
    if SdccFlp::MAX_ROWS < n || n <= i || n <= j {
        return Err(Refusal::NoSuchCell { i, j });
    }
    if i == j {
        return entry(deviations, pack.deviations, i, i, j);
    }
    let place = pair_slot(n, i, j).ok_or(Refusal::NoSuchCell { i, j })?;
    entry(correlations, pack.slots, place, i, j)
}
