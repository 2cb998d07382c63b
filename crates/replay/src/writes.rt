//! The requests that write into what is lent: map, special, write, to-npy.
use crate::files::to_npy;
use crate::lists::{correlations, deviations};
use answers::Refusal;
use imapb::encode::encode_imapb;
use imapb::special::encode_imapb_special;
use replies::forms::{DONE, TO_NPY, WRITE};
use replies::kind::special_of;
use requests::request::Request;
use shown::written::put_written;
use text::marks::mark;
use text::page::Page;
use text::part::within;
use writer::write::{encode_sdcc_flp, encode_sdcc_flp_mode2};

// A pack, by the writer that takes a Clen or by the one that takes none.
fn write_pack(request: Request, lists: &[u64], lent: &mut [u8]) -> Result<usize, Refusal> {
    let rows = deviations(lists, request.rows);
    let slots = correlations(lists, request.slots);
    if request.form == WRITE {
        encode_sdcc_flp_mode2(rows, slots, request.size as usize, lent)
    } else {
        encode_sdcc_flp(rows, slots, lent)
    }
}

fn write(request: Request, lists: &[u64], lent: &mut [u8]) -> Result<usize, Refusal> {
    let form = request.form;
    match form {
        9 => encode_imapb(request.size as usize, request.value, lent),
        10 | 11 => write_pack(request, lists, lent),
        TO_NPY => to_npy(request, lists, lent),
        _ => encode_imapb_special(special_of(form, request.value), request.size as usize, lent),
    }
}

// As much is lent as the request says.
pub(crate) fn put_write(request: Request, lists: &[u64], bytes: &mut [u8], page: &mut Page<'_>) {
    mark(bytes, request.room);
    let room = within(request.room as usize, bytes);
    let lent = &mut bytes[..room];
    let written = write(request, lists, lent);
    put_written(DONE, written, lent, page);
}
