//! The requests on .npy files: to-npy, from-npy.
use crate::lists::{correlations, deviations};
use answers::Refusal;
use layout::pack::SdccFlp;
use npy::import::import_npy;
use npy_export::export::export_npy;
use requests::request::Request;

// N is taken as it is, whatever the lists hold.
pub(crate) fn to_npy(request: Request, lists: &[u64], lent: &mut [u8]) -> Result<usize, Refusal> {
    let rows = deviations(lists, request.rows);
    let slots = correlations(lists, request.slots);
    export_npy(request.size, rows, slots, lent)
}

// It answers, and leaves what is lent, as the reader does.
pub(crate) fn from_npy(
    file: &[u8],
    deviations: &mut [u64],
    correlations: &mut [u64],
    states: &mut [u8],
) -> Result<SdccFlp, Refusal> {
    import_npy(file, deviations, correlations, states)
}
