//! Lists of numbers read from a line into lent memory.
ghost use Rattle.std.specs.Prelude.{◌≡◌, length};
ghost use Rattle.answers.specs.Lent.{over};
ghost use Rattle.text.specs.Entries.{entries_at, numbers_at, list_at, listed_at};

use crate::numeral::{Entry, Numeral, decimal_up_to, entry_after_space};

// As many numbers as the list has entries, each after a space. Those before one that is malformed are stored.
pub fn entries(entry: Entry, line: &[u8], at: usize, list: &mut [u64]) -> Option<Numeral>
    ensures value { result ≡ entries_at entry (length list.old) line.now at }
    ensures list_after { list.new
        ≡ over (numbers_at entry (length list.old) line.now at) list.old }
{
    let mut next = at;
    for place in list.iter_mut() {
        let number = entry_after_space(entry, line, next)?;
        *place = number.value;
        next = number.next;
    }
    Some(Numeral {
        value: list.len() as u64,
        next,
    })
}

// The list, into the front of `room`: its count, and then its entries.
pub fn list(entry: Entry, line: &[u8], at: usize, room: &mut [u64]) -> Option<Numeral>
    ensures value { result ≡ list_at entry (length room.old) line.now at }
    ensures room_after { room.new
        ≡ over (listed_at entry (length room.old) line.now at) room.old }
{
    let count = decimal_up_to(room.len() as u64, line, at)?;
    entries(entry, line, count.next, &mut room[..count.value as usize])
}
