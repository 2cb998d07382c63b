//! The pack type and its limits.
ghost use Rattle.std.specs.Prelude.{◌≡◌, min};
ghost use Rattle.layout.specs.Size.{max_slots};

// What a pack that was read holds; the numbers themselves stand in the lent memory.
#[derive(Clone, Copy, Debug, PartialEq, Eq)]
pub struct SdccFlp {
    pub matrix_size: u64,
    pub deviations: usize,
    pub slots: usize,
}

impl SdccFlp {
    pub const MAX_ROWS: u64 = 256;

    pub const MAX_SLOTS: u64 = 32640;
}

// A count of slots, bounded by the limit: whatever number it came from, nothing that is worked out of it can wrap.
pub fn bounded_slots(slots: u64) -> usize
    ensures { result ≡ min slots max_slots }
{
    if SdccFlp::MAX_SLOTS < slots {
        return SdccFlp::MAX_SLOTS as usize;
    }
    slots as usize
}
