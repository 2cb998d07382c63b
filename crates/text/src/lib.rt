//! Text in lent memory: a page that words and numbers are added to, numbers and byte strings read from a line, tables
//! of letters, marks that show a change, and rooms for what is lent.
#![tactic(auto)]

pub mod list;
pub mod marks;
pub mod numeral;
pub mod page;
pub mod part;
pub mod room;
pub mod string;
pub mod table;
