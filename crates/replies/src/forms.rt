//! The forms of the requests and of the replies: a request is read by its form, and a reply is put by its own.
ghost use Rattle.std.specs.Prelude.{◌≡◌};
ghost use Rattle.replies.specs.Forms.{letter_of, is_field};

use text::table::letter_in;

// Words stand for themselves, a capital for a field of the request or a value of the reply, and a dot for the end.
// A reply ends at a comma, which a request has none of: `special` is asked for as it is replied.
const FORMS: [u8; 1416] = *b"\
    widen W.................\
    narrow X................\
    oid H...................\
    mapped N H..............\
    peek H..................\
    cell N S C I J..........\
    usable N S C T..........\
    print H.................\
    read D E F H............\
    map N R X...............\
    write - R S C...........\
    write N R S C...........\
    special user P, N R.....\
    special +inf P, N R.....\
    special +qnan P, N R....\
    special +snan P, N R....\
    special -inf P, N R.....\
    special -qnan P, N R....\
    special -snan P, N R....\
    special below P, N R....\
    special above P, N R....\
    mapped-in X Y N H.......\
    read-in X Y D E F H.....\
    why H...................\
    strict-oid H............\
    ber H...................\
    strict-ber H............\
    set G H.................\
    to-npy L N S C..........\
    from-npy D E F H........\
    bad request.............\
    refused A...............\
    refused A B.............\
    refused A B C...........\
    refused A B C D.........\
    refused A X Y Z.........\
    ........................\
    X.......................\
    W.......................\
    oid A B.................\
    size A..................\
    nothing.................\
    value X.................\
    outside X...............\
    reserved A..............\
    number X................\
    no......................\
    yes.....................\
    done A .................\
    n A deviations B slots C\
    ;s A X..................\
    ;c A B C Z..............\
    \x20touched................\
    length A B..............\
    set A B.................\
    ;pack A B C D...........\
    ;tags...................\
    \x20A......................\
    \x20-......................";

pub const WIDTH: usize = 24;

// Numbers and no enum: a form is its place in the table, by which contracts find its letters (`letter_of`).
// The requests come first: 0 to 6, 21 and 24 to 26 are replied to by a form, 7 is print, 8, 22 and 29 read, 9 to 20 and
// 28 write, from 12 on the special kinds, 23 is why, and 27 is set.
pub const CELL: usize = 5;

pub const WRITE: usize = 11;

pub const MAPPED_IN: usize = 21;

pub const READ_IN: usize = 22;

pub const WHY: usize = 23;

pub const STRICT_OID: usize = 24;

pub const BER: usize = 25;

pub const STRICT_BER: usize = 26;

pub const SET: usize = 27;

pub const TO_NPY: usize = 28;

pub const FROM_NPY: usize = 29;

// What is none of them is replied to by this form, and the other replies follow.
pub const BAD_REQUEST: usize = 30;

// A refusal's number alone; the three forms behind it have a value more each, and the last has binary64s.
pub const REFUSED: usize = BAD_REQUEST + 1;

pub const REFUSED_BITS: usize = BAD_REQUEST + 5;

pub const EMPTY: usize = BAD_REQUEST + 6;

pub const BITS: usize = BAD_REQUEST + 7;

pub const BITS32: usize = BAD_REQUEST + 8;

pub const OID: usize = BAD_REQUEST + 9;

pub const SIZE: usize = BAD_REQUEST + 10;

pub const NOTHING: usize = BAD_REQUEST + 11;

pub const VALUE: usize = BAD_REQUEST + 12;

pub const OUTSIDE: usize = BAD_REQUEST + 13;

pub const RESERVED: usize = BAD_REQUEST + 14;

pub const NUMBER: usize = BAD_REQUEST + 15;

pub const NO: usize = BAD_REQUEST + 16;

pub const YES: usize = BAD_REQUEST + 17;

pub const DONE: usize = BAD_REQUEST + 18;

pub const COUNTS: usize = BAD_REQUEST + 19;

pub const DEVIATION: usize = BAD_REQUEST + 20;

pub const SLOT: usize = BAD_REQUEST + 21;

pub const TOUCHED: usize = BAD_REQUEST + 22;

pub const LENGTH: usize = BAD_REQUEST + 23;

pub const SET_COUNTS: usize = BAD_REQUEST + 24;

pub const PACK: usize = BAD_REQUEST + 25;

pub const TAGS: usize = BAD_REQUEST + 26;

pub const TAG: usize = BAD_REQUEST + 27;

pub const NO_TAGS: usize = BAD_REQUEST + 28;

// The byte of a form at a place, and a dot past its end.
pub fn letter(form: usize, i: usize) -> u8
    ensures { result ≡ letter_of form i }
{
    letter_in(&FORMS, WIDTH, b'.', form, i)
}

pub fn is_field(letter: u8) -> bool
    ensures { result ≡ is_field letter }
{
    match letter {
        b'A'..=b'Z' => true,
        _ => false,
    }
}
