//! What a program writes goes to standard output whole, or, where it says why there is nothing, to standard error.
ghost use Rattle.answers.specs.Listed.{listed};
ghost use Rattle.lines.specs.Lines.{refused_line};
ghost use Rattle.report.specs.Lines.{too_big_line};
ghost use Rattle.convert.specs.Stream.{errors, Streams};

use answers::Refusal;
use lines::refusal::put_refusal;
use text::page::Page;

// So many bytes at the front of lent memory. No `Result`: both texts are written, and neither is an error here.
#[derive(Clone, Copy, Debug, PartialEq, Eq)]
pub enum Streamed {
    Output(usize),
    Errors(usize),
}

pub(crate) fn too_big(out: &mut [u8]) -> Streamed
    ensures { Streams (errors too_big_line) out.old result out.new }
{
    let mut page = Page::new(0, out);
    page.text(b"too big for this program\n");
    Streamed::Errors(page.place())
}

pub(crate) fn refused(refusal: Refusal, out: &mut [u8]) -> Streamed
    ensures { Streams (errors (refused_line (listed refusal))) out.old result out.new }
{
    let mut line = Page::new(0, out);
    put_refusal(refusal, &mut line);
    Streamed::Errors(line.place())
}
