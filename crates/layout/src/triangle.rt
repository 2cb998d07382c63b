//! The slots of the upper triangle, row by row.
ghost use Rattle.std.specs.Prelude.{◌≡◌};
ghost use Rattle.layout.specs.Triangle.{slots_of, triangle_slot};

// How many pairs i < j there are.
pub fn corr_slots(n: u32) -> u64
    ensures { result ≡ slots_of n }
{
    if n == 0 {
        return 0;
    }
    let rows = n as u64;
    rows * (rows - 1) / 2
}

// The slot of (i, j).
pub fn triangle_slot(i: u32, j: u32, n: u32) -> Option<u64>
    ensures { result ≡ triangle_slot n i j }
{
    if j <= i {
        return None;
    }
    if n <= j {
        return None;
    }
    let row = i as u64;
    Some(row * (2 * (n as u64) - row - 1) / 2 + (j - i - 1) as u64)
}
