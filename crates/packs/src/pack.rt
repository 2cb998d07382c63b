//! The text of one pack of a set.
ghost use Rattle.text.specs.Page.{Adds};
ghost use Rattle.report.specs.Answer.{answered, Left};
ghost use Rattle.packs.specs.Lines.{place_line, bytes_of, pack_text};

use crate::tags::put_tags;
use lines::values::put_values;
use report::answer::put_answer;
use sets::pack::PackPlace;
use sets::part::{pack_part, tags_part};
use text::page::Page;

// The most rows that a pack has, and their slots.
pub const MAX_ROWS: usize = 256;

pub const MAX_SLOTS: usize = 32_640;

// The text of any pack of a set fits.
pub const ROOM: usize = 1_000_000;

fn put_place(place: PackPlace, page: &mut Page<'_>)
    ensures { Adds (place_line place) page.old page.new }
{
    page.text(b"pack");
    put_values(2, [place.start as u64, place.end as u64, 0], page);
    page.byte(b'\n');
}

// Where it stands, the tags that it refines, and what the reader answers of it, with the rooms that it is lent.
pub fn put_pack_of(
    set: &[u8],
    tags: &[u32],
    place: PackPlace,
    deviations: &mut [u64],
    correlations: &mut [u64],
    states: &mut [u8],
    page: &mut Page<'_>,
)
    ensures { Adds (pack_text set.now tags.now place
        (answered (bytes_of set.now place)
        deviations.old correlations.old states.old))
        page.old page.new
        × Left (bytes_of set.now place)
        deviations.old correlations.old states.old
        deviations.new correlations.new states.new }
{
    put_place(place, page);
    put_tags(tags_part(tags, place), page);
    page.byte(b'\n');
    put_answer(
        pack_part(set, place),
        deviations,
        correlations,
        states,
        page,
    );
}
