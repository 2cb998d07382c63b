//! The requests over a range, whose ends are given by their bits: mapped-in, read-in.
use answers::Refusal;
use layout::pack::SdccFlp;
use ranges::decode::decode_imapb_in;
use ranges::range::ImapbParams;
use reader::read::decode_sdcc_flp_in;
use replies::mapped::of_mapped;
use replies::numeric::float_of;
use replies::reply::Reply;
use requests::request::Request;

pub(crate) fn mapped_in(request: Request, given: &[u8]) -> Reply {
    let params = ImapbParams {
        min: float_of(request.value),
        max: float_of(request.second),
        length: request.size as usize,
    };
    of_mapped(decode_imapb_in(params, given))
}

pub(crate) fn read_in(
    request: Request,
    pack: &[u8],
    deviations: &mut [u64],
    correlations: &mut [u64],
    states: &mut [u8],
) -> Result<SdccFlp, Refusal> {
    let min = float_of(request.value);
    let max = float_of(request.second);
    decode_sdcc_flp_in(pack, min, max, deviations, correlations, states)
}
