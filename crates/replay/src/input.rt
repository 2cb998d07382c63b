//! The input, a block at a time, and the output, written when there is enough of it.
use std::io;
use std::io::{Read, Write};
use text::page::Page;

// As much is held at most as a block has. An answer has room behind it, or is written out as it grows.
pub(crate) const HELD: usize = 65_536;

// The block's bytes are read anew. The input's end ends a line that was begun, as a newline does.
pub(crate) fn refill<R: Read>(reader: &mut R, block: &mut [u8], read: usize) -> io::Result<usize> {
    let count = reader.read(block)?;
    if count == 0 && 0 < read {
        let mut page = Page::new(0, block);
        page.byte(b'\n');
        return Ok(page.place());
    }
    Ok(count)
}

// What is held is written out where it is more than that, and nothing is held any more.
pub(crate) fn flush_above<W: Write>(
    stream: &mut W,
    most: usize,
    page: &mut Page<'_>,
) -> io::Result<()> {
    let held = page.place();
    if most < held {
        stream.write_all(&page.room[..held])?;
        page.at = 0;
    }
    Ok(())
}
