//! The requests that read a pack or a file into what is lent: read, read-in, from-npy.
use crate::files::from_npy;
use crate::ranged::read_in;
use answers::Refusal;
use layout::pack::SdccFlp;
use reader::read::decode_sdcc_flp;
use replies::forms::{FROM_NPY, READ_IN};
use requests::limits::{ROWS, SLOTS};
use requests::request::Request;
use shown::pack::{Lent, put_pack};
use text::marks::{Marked, mark};
use text::page::Page;
use text::part::within;
use text::room::room_of;

// A file, or a pack by the reader that is lent a range or by the one that is lent none.
fn decode(
    request: Request,
    given: &[u8],
    deviations: &mut [u64],
    correlations: &mut [u64],
    states: &mut [u8],
) -> Result<SdccFlp, Refusal> {
    let form = request.form;
    match form {
        READ_IN => read_in(request, given, deviations, correlations, states),
        FROM_NPY => from_npy(given, deviations, correlations, states),
        _ => decode_sdcc_flp(given, deviations, correlations, states),
    }
}

// As much is lent as the request says.
fn read(
    request: Request,
    lent: Lent,
    given: &[u8],
    deviations: &mut [u64],
    correlations: &mut [u64],
    states: &mut [u8],
) -> Result<SdccFlp, Refusal> {
    mark(correlations, lent.correlations);
    let rows = within(lent.deviations as usize, deviations);
    let slots = within(lent.correlations as usize, correlations);
    let told = within(lent.states as usize, states);
    decode(
        request,
        given,
        &mut deviations[..rows],
        &mut correlations[..slots],
        &mut states[..told],
    )
}

pub(crate) fn put_read(
    request: Request,
    given: &[u8],
    correlations: &mut [u64],
    page: &mut Page<'_>,
) {
    // with the mark in every entry; the correlations are too many to be marked anew for each request
    let mut deviations: [u64; ROWS] = room_of(u64::MARK);
    let mut states: [u8; SLOTS] = room_of(u8::MARK);
    let lent = Lent {
        deviations: request.rows,
        correlations: request.slots,
        states: request.states,
    };
    let read = read(
        request,
        lent,
        given,
        &mut deviations,
        correlations,
        &mut states,
    );
    put_pack(lent, read, &deviations, correlations, &states, page);
}
