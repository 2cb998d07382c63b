//! The first line: how many packs a set has, and how many tags; or why it is refused.
ghost use Rattle.std.specs.Prelude.{◌≡◌, length};
ghost use Rattle.sets.specs.Rules.{set_listed};
ghost use Rattle.text.specs.Page.{Adds};
ghost use Rattle.packs.specs.Lines.{set_text};
ghost use Rattle.packs.specs.Printed.{is_too_big, first_line, pack_count, printed_packs, tags_left};

use answers::Refusal;
use lines::refusal::put_refused;
use lines::values::put_values;
use sets::set::{SetCounts, read_set};
use text::page::Page;

// The most that is read.
pub const MAX_BYTES: usize = 600_000;

// An item takes two bytes at least, so that no list is full.
pub const MAX_TAGS: usize = 300_000;

pub fn is_too_big(bytes: &[u8]) -> bool
    ensures { result ≡ is_too_big bytes.now }
{
    MAX_BYTES < bytes.len()
}

// What is answered of a set.
pub fn put_set(answer: Result<SetCounts, Refusal>, page: &mut Page<'_>)
    ensures { Adds (set_text (set_listed answer)) page.old page.new }
{
    match answer {
        Ok(counts) => {
            page.text(b"set");
            put_values(2, [counts.packs as u64, counts.tags as u64, 0], page);
        }
        Err(refusal) => put_refused(refusal, page),
    }
}

// None of a set that is refused.
fn count_of(answer: Result<SetCounts, Refusal>) -> usize
    ensures { result ≡ pack_count answer }
{
    answer.map_or(0, |counts| counts.packs)
}

// The set is read, and its tags go into the list, unless it is too big. Answers how many packs are to follow.
pub fn put_first(set: &[u8], tags: &mut [u32], page: &mut Page<'_>) -> usize
    ensures { (result ≡ length (printed_packs set.now (length tags.old)))
        × Adds (first_line set.now (length tags.old)) page.old page.new
        × (tags.new ≡ tags_left set.now tags.old) }
{
    if is_too_big(set) {
        page.text(b"too big for this program\n");
        return 0;
    }
    let answer = read_set(set, tags);
    put_set(answer, page);
    page.byte(b'\n');
    count_of(answer)
}
