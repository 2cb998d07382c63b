//! Rules a) to k) by name: which of them refuses a pack, where the reader is lent no range.
ghost use Rattle.std.specs.Prelude.{◌≡◌};
ghost use Rattle.elements.specs.Listed.{opened_listed, verdict};
ghost use Rattle.rules.specs.Named.{pack_ruled};

use crate::opened::Opened;
use deviations::form::DeviationForm;
use elements::head::{Places, open_pack};
use layout::rule::Broken;

// Where the elements of a pack that passes them all start, or the first that refuses it.
pub fn judge(bytes: &[u8]) -> Result<Places, Broken>
    ensures { opened_listed result ≡ verdict bytes.now (pack_ruled bytes.now) }
{
    let places = open_pack(bytes)?;
    let opened = Opened { bytes, places };
    opened.elements_whole(DeviationForm::Plain)?;
    Ok(places)
}
