//! The requests on a matrix: cell, usable.
use crate::lists::{correlations, deviations, states};
use layout::pack::SdccFlp;
use matrix::lookup::correlation;
use matrix::usable::usable;
use replies::forms::CELL;
use replies::pack::{of_cell, of_usable};
use replies::reply::Reply;
use requests::limits::SLOTS;
use requests::request::Request;
use requests::states::states_of;
use text::part::within;
use text::room::room_of;

// The states are listed as numbers, and lent as bytes.
fn reply_to_usable(pack: SdccFlp, rows: &[u64], slots: &[u64], listed: &[u64]) -> Reply {
    let mut room: [u8; SLOTS] = room_of(0);
    let stored = states_of(listed, &mut room);
    let count = within(stored, &room);
    let told = &room[..count];
    of_usable(usable(pack, count, rows, slots, told))
}

// The counts are the pack's own, and what is lent holds just those entries.
pub(crate) fn on_matrix(request: Request, lists: &[u64]) -> Reply {
    let rows = deviations(lists, request.rows);
    let slots = correlations(lists, request.slots);
    let pack = SdccFlp {
        matrix_size: request.size,
        deviations: request.rows as usize,
        slots: request.slots as usize,
    };
    if request.form == CELL {
        of_cell(correlation(pack, rows, slots, request.value, request.given))
    } else {
        reply_to_usable(pack, rows, slots, states(lists, request.states))
    }
}
