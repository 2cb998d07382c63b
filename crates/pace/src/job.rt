//! The arguments: what is done, on which matrix, and how often.
use std::env::FillError;
use std::rt::Env;
use text::numeral::decimal;

// Each does the first six in turn. Idle does nothing, so that what the repetitions themselves cost can be taken off.
#[derive(Clone, Copy, Debug, PartialEq, Eq)]
pub(crate) enum Op {
    Read,
    Write,
    Peek,
    Cell,
    Value,
    Special,
    ToNpy,
    FromNpy,
    Each,
    Idle,
}

// The pack: with a value in every slot, in one of four, or with a special code in every slot.
#[derive(Clone, Copy, Debug, PartialEq, Eq)]
pub(crate) enum Kind {
    Full,
    Sparse,
    Specials,
}

#[derive(Clone, Copy, Debug, PartialEq, Eq)]
pub(crate) struct Job {
    pub(crate) op: Op,
    pub(crate) rows: usize,
    pub(crate) clen: usize,
    pub(crate) kind: Kind,
    pub(crate) reps: usize,
}

// An argument that is a number; 0 where it is none.
fn number<E: Env>(env: &E, i: usize) -> usize {
    let mut text = [0u8; 20];
    let Ok(count) = env.arg(i, &mut text) else {
        return 0;
    };
    decimal(&text[..count], 0).map_or(0, |number| number.value as usize)
}

// The first letters of an argument that is a word.
fn letters<E: Env>(env: &E, i: usize) -> [u8; 10] {
    let mut text = [0u8; 10];
    let _ = env.arg(i, &mut text);
    text
}

// Whether there are so many arguments.
fn has<E: Env>(env: &E, i: usize) -> bool {
    let mut text = [0u8; 20];
    !matches!(env.arg(i, &mut text), Err(FillError::NotPresent))
}

// By the first letter; any other word idles.
fn op_of(word: [u8; 10]) -> Op {
    match word[0] {
        b'r' => Op::Read,
        b'w' => Op::Write,
        b'p' => Op::Peek,
        b'c' => Op::Cell,
        b'v' => Op::Value,
        b's' => Op::Special,
        b't' => Op::ToNpy,
        b'f' => Op::FromNpy,
        b'e' => Op::Each,
        _ => Op::Idle,
    }
}

// By the third letter, since two begin alike; any other word is full.
fn kind_of(word: [u8; 10]) -> Kind {
    match word[2] {
        b'a' => Kind::Sparse,
        b'e' => Kind::Specials,
        _ => Kind::Full,
    }
}

// What the arguments ask for, and without them each operation three times on a small pack.
pub(crate) fn asked<E: Env>(env: &E) -> Job {
    if !has(env, 5) {
        return Job {
            op: Op::Each,
            rows: 4,
            clen: 2,
            kind: Kind::Full,
            reps: 3,
        };
    }
    Job {
        op: op_of(letters(env, 1)),
        rows: number(env, 2),
        clen: number(env, 3),
        kind: kind_of(letters(env, 4)),
        reps: number(env, 5),
    }
}
