//! The answer to a request: each calls a function of the port, and puts what that answers.
use crate::cells::on_matrix;
use crate::prints::put_print;
use crate::ranged::mapped_in;
use crate::reads::put_read;
use crate::st0601::put_set;
use crate::writes::put_write;
use accounts::account::put_account;
use imapb::decode::decode_imapb;
use layout::size::peek_matrix_size;
use numbers::ber::{read_ber, read_ber_strict};
use numbers::ber_oid::{read_ber_oid, read_ber_oid_strict};
use replies::forms::{
    BAD_REQUEST, BER, FROM_NPY, MAPPED_IN, READ_IN, SET, STRICT_BER, STRICT_OID, TO_NPY, WHY,
};
use replies::mapped::of_mapped;
use replies::numeric;
use replies::numeric::{of_ber, of_oid, of_strict_oid};
use replies::pack::of_peek;
use replies::put::put_reply;
use replies::reply::{Reply, words};
use requests::request::Request;
use std::io;
use std::io::Write;
use text::page::Page;
use text::part::within;

// The requests that are answered by a form alone.
fn short(request: Request, given: &[u8], lists: &[u64]) -> Reply {
    let form = request.form;
    match form {
        0 => numeric::widen(request.value),
        1 => numeric::narrow(request.value),
        2 => of_oid(read_ber_oid(given), given.len()),
        3 => of_mapped(decode_imapb(request.size as usize, given)),
        4 => of_peek(peek_matrix_size(given)),
        5 | 6 => on_matrix(request, lists),
        MAPPED_IN => mapped_in(request, given),
        STRICT_OID => of_strict_oid(read_ber_oid_strict(given), given.len()),
        BER => of_ber(read_ber(given), given.len()),
        STRICT_BER => of_ber(read_ber_strict(given), given.len()),
        _ => words(BAD_REQUEST),
    }
}

// The requests that leave the bytes that they are given as they are.
fn answer_given<W: Write>(
    stream: &mut W,
    request: Request,
    given: &[u8],
    lists: &mut [u64],
    page: &mut Page<'_>,
) -> io::Result<()> {
    let form = request.form;
    match form {
        7 => put_print(given, page),
        8 | READ_IN | FROM_NPY => put_read(request, given, lists, page),
        WHY => put_account(false, given, page),
        SET => return put_set(stream, request, given, page),
        _ => put_reply(short(request, given, lists), page),
    }
    Ok(())
}

// Whether it is one of map, special, write and to-npy, which write into what is lent.
fn writes(form: usize) -> bool {
    form == TO_NPY || 8 < form && form < MAPPED_IN
}

// What a request gives stands in the front of the bytes, and what it writes goes there.
pub(crate) fn answer<W: Write>(
    stream: &mut W,
    request: Request,
    bytes: &mut [u8],
    lists: &mut [u64],
    page: &mut Page<'_>,
) -> io::Result<()> {
    if writes(request.form) {
        put_write(request, lists, bytes, page);
        return Ok(());
    }
    let given = within(request.given as usize, bytes);
    answer_given(stream, request, &bytes[..given], lists, page)
}
