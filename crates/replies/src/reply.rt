//! What a reply is made of. Of one type there may be two, so replies are made by functions and not by `From`.
ghost use Rattle.std.specs.Prelude.{◌≡◌};
ghost use Rattle.replies.specs.Reply.{words_reply, one_reply};

// The values that A, B, C and D stand for in decimal. X, Y and Z are the last three in hex, and W is in eight digits.
#[derive(Clone, Copy, Debug, PartialEq, Eq)]
pub struct Reply {
    pub form: usize,
    pub a: u64,
    pub b: u64,
    pub c: u64,
    pub d: u64,
}

// A reply with one value, whichever letter it has.
pub fn one(form: usize, value: u64) -> Reply
    ensures { result ≡ one_reply form value }
{
    Reply {
        form,
        a: value,
        b: value,
        c: 0,
        d: 0,
    }
}

// A reply of words alone.
pub fn words(form: usize) -> Reply
    ensures { result ≡ words_reply form }
{
    one(form, 0)
}
