//! The 128 bytes of a header.
ghost use Rattle.std.specs.Prelude.{◌≡◌, ◌≤◌, ◌<◌, length};
ghost use Rattle.std.proofs.lemmas.List.Edits.{sets};
ghost use Rattle.answers.specs.Listed.{written};
ghost use Rattle.answers.specs.Lent.{leaves};
ghost use Rattle.text.specs.Page.{Adds};
ghost use Rattle.npy_header.specs.Header.{header_length, described, padding, header, max_size};
ghost use Rattle.npy_header.specs.Rules.{header_written};

use answers::Refusal;
use text::page::Page;

pub const HEADER_LENGTH: usize = 128;

// The most that nine digits spell.
const MAX_SIZE: u64 = 999_999_999;

// All but the padding. Inlined, as `put_header` is: then a file is compared with what they make sixteen bytes at a time.
#[inline(always)]
fn put_described(n: u64, page: &mut Page<'_>)
    ensures { Adds (described n) page.old page.new }
{
    page.named(
        b"\x93NUMPY\x01\x00\x76\x00{'descr': '<f8', 'fortran_order': False, 'shape': (",
        n,
    );
    page.named(b", ", n);
    page.text(b"), }");
}

// Spaces up to the last byte, which is a newline: a range that is filled, with nothing to leave out, and so no page.
fn pad(at: usize, out: &mut [u8])
    requires { (at < header_length) × (header_length ≤ length out.old) }
    ensures { out.new ≡ sets out.old at (padding at) }
{
    let last = HEADER_LENGTH - 1;
    out[at..last].fill(b' ');
    out[last] = b'\n';
}

// Both, over the front of `out`.
#[inline(always)]
pub(crate) fn put_header(n: u64, out: &mut [u8])
    requires { (n ≤ max_size) × (header_length ≤ length out.old) }
    ensures { out.new ≡ sets out.old 0 (header n) }
{
    let mut page = Page::new(0, out);
    put_described(n, &mut page);
    let at = page.place();
    pad(at, out);
}

// The header of N, over the front of `out`. Not inlined: whoever exports has the registers for the entries.
#[inline(never)]
pub fn write_header(n: u64, out: &mut [u8]) -> Result<usize, Refusal>
    ensures { (written result ≡ header_written n (length out.old))
        × (out.new ≡ leaves (written result) (header n) out.old) }
{
    if MAX_SIZE < n {
        return Err(Refusal::OutOfRange {
            value: n,
            least: 0,
            most: MAX_SIZE,
        });
    }
    if out.len() < HEADER_LENGTH {
        return Err(Refusal::BufferTooSmall {
            needed: HEADER_LENGTH,
            got: out.len(),
        });
    }
    put_header(n, out);
    Ok(HEADER_LENGTH)
}
