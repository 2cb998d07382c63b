//! How much a request may give, and how much it may be lent.
use layout::pack::SdccFlp;

// No request gives more, and none but for a file is lent more.
pub const BYTES: usize = 600_000;

// Far more than any file has: N and the counts are refused before a room, however large that is.
pub const FILE: usize = 4_000_000;

// An item of a set has two bytes at least, so that this is room for the tags of any.
pub const TAGS: usize = BYTES / 2;

// A request can be lent more than the largest pack has, so that what stands past it shows.
pub const ROWS: usize = 4 * SdccFlp::MAX_ROWS as usize;

pub const SLOTS: usize = SdccFlp::MAX_SLOTS as usize + 1152;

// The words hold the three lists that a request gives: deviations, correlations and states.
pub const WORDS: usize = ROWS + SLOTS + SLOTS;
