// An accepted key (01, 'An accepted key'): check, and the index of a key's arrays.
#![tactic(auto)]

mod judge;
mod run;
mod seen;
mod table;

ghost use Rattle.std.specs.Prelude.{◌≡◌, min, ◌/◌, ◌≤◌, length};
ghost use Rattle.key.specs.Check.{checked_outcome, checked_key};
ghost use Rattle.key.specs.Index.{Indexing};

use refusal::{Reason, Refusal};

// The counts of an accepted key over its records, and the head's row bits and column bits.
#[derive(Clone, Copy)]
pub struct Counts {
    pub arrays: usize,
    pub cells: usize,
    pub calls: usize,
    pub rows: u8,
    pub columns: u8,
}

// How many arrays an accepted key has at most.
pub const MOST_ARRAYS: usize = 1024;

// A key below so many bytes is short.
pub const SHORT: usize = 192;

// How many arrays, each of three bytes or more, a short key has at most.
pub const SHORT_ARRAYS: usize = 64;

// Whether bytes are an accepted key: its counts, or the first fault with its place.
pub fn check(key: &[u8]) -> Result<Counts, Refusal>
    ensures answer { checked_outcome result ≡ checked_key key.now }
{
    if key.len() < SHORT {
        let mut short = [0u16; SHORT_ARRAYS];
        return index(key, &mut short);
    }
    let mut starts = [0u16; MOST_ARRAYS];
    index(key, &mut starts)
}

// What check answers; where the key is accepted, the first places of the table then hold the offset of each array's opening. Nothing is
// said of its other places, nor of any where the key is refused. Inner: the table has a place for each array that a key of this length
// may have, at most 1,024 of three bytes or more.
//
// The functions of `run` go over the records that keep their rules. Where they stop, only an end can keep its own: that record is taken
// and judged here.
pub fn index(key: &[u8], starts: &mut [u16]) -> Result<Counts, Refusal>
    requires { min 1024 (length key.now / 3) ≤ length starts.old }
    ensures answer { checked_outcome result ≡ checked_key key.now }
    ensures starts { Indexing key.now starts.new }
{
    if 65536 < key.len() {
        return Err(Refusal::new(Reason::KeyTooLong, 65536));
    }
    let begun = run::head(key);
    let reached = run::arrays(key, starts, begun.seen, begun.at);
    let at = reached.at;
    let taken = records::take(key, at);
    let Ok((item, next)) = taken else {
        return Err(taken.unwrap_err());
    };
    judge::record(reached.seen, key, starts, at, next, item)?;
    Ok(seen::counts(reached.seen))
}
