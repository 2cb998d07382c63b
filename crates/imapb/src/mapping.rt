//! What the length decides, for whoever reads many codes of one length.
ghost use Rattle.std.specs.Prelude.{◌≡◌};
ghost use Rattle.imapb.specs.Tables.{imapb_mapping};

use crate::code_length::CodeLength;
pub use crate::code_length::Mapping;

pub fn imapb_mapping(length: usize) -> Option<Mapping>
    ensures { result ≡ imapb_mapping length }
{
    let length = CodeLength::new(length).ok()?;
    Some(length.mapping())
}
