// Runs over records that keep their rules: the head, the cells or the calls of an array, of either edition, and one array behind the
// other. A run of entries stops where none of its kind that keeps its rules follows; behind the last array only an end can keep its
// rules.
ghost use Rattle.std.specs.Prelude.{◌≡◌, true, false, List, ℕ, min, ◌+◌, ◌/◌, ◌≤◌, ◌<◌, length, set};
ghost use Rattle.records.specs.declared.Record.{Record};
ghost use Rattle.rules.specs.Rules.{cell_rules};
ghost use Rattle.rules.specs.Inner.{Noted, Narrow, call_rules_in, scaled_call_rules_in};
ghost use Rattle.key.specs.Inner.{Here, Only, Run, Fails, Tried, opens_or_ends, opening};
ghost use Rattle.key.specs.Reading.{is_end};

use crate::seen::Seen;
use crate::{seen, table};
use records::{Shape, read};
use rules::Opening;

// Where the walk stands: what was seen before the offset of the next record.
#[derive(Clone, Copy)]
pub(crate) struct Reached {
    pub seen: Seen,
    pub at: usize,
}

// Where the walk stands behind a head that keeps its rules; at the start where there is none. No array is open yet, so that the table
// of offsets may hold anything. Inner: the key is not too long.
pub(crate) fn head(key: &[u8]) -> Reached
    requires { length key.now ≤ 65536 }
    ensures here { (starts : List ℕ) → min 1024 (length key.now / 3) ≤ length starts → Here key.now starts result.seen result.at }
    ensures only { (starts : List ℕ) → Only opens_or_ends key.now starts result.seen result.at }
{
    let nothing = Reached {
        seen: seen::nothing(),
        at: 0,
    };
    if key.len() < 3 {
        return nothing;
    }
    let scaled = key[0] == 7;
    if key[0] != 1 && !scaled {
        return nothing;
    }
    let shape = read::shape(key, 1);
    if rules::head(true, shape, 0).is_err() {
        return nothing;
    }
    Reached {
        seen: seen::headed(scaled, shape),
        at: 3,
    }
}

// Where the walk stands behind the arrays that keep their rules, from `from` on: their offsets are noted. Inner: it stands at `from`,
// where only an opening or an end can keep its rules.
pub(crate) fn arrays(key: &[u8], starts: &mut [u16], seen: Seen, from: usize) -> Reached
    requires key_len_bound { length key.now ≤ 65536 }
    requires here_2 { Here key.now starts.old seen from }
    requires only_2 { Only opens_or_ends key.now starts.old seen from }
    ensures here { Here key.now starts.new result.seen result.at }
    ensures only { Only is_end key.now starts.new result.seen result.at }
{
    let len = key.len();
    let mut s = seen;
    let mut at = from;
    while at + 3 <= len {
        let kind = key[at];
        // 02 or 03
        if kind / 2 != 1 {
            return Reached { seen: s, at: at };
        }
        let shape = read::shape(key, at + 1);
        if rules::array_opening(s.first, s.head, s.arrays, shape, at).is_err() {
            return Reached { seen: s, at: at };
        }
        let behind = array(key, starts, s, at, kind, shape);
        s = behind.seen;
        at = behind.at;
    }
    Reached { seen: s, at: at }
}

// Where the walk stands behind an array that opens at an offset, with the entries that keep their rules. Inner: the opening keeps
// its rules, so that the walk stands behind it once its offset is noted.
fn array(key: &[u8], starts: &mut [u16], seen: Seen, at: usize, kind: u8, shape: Shape) -> Reached
    requires key_len_bound { length key.now ≤ 65536 }
    requires arrays_bound { seen.arrays < 1024 }
    requires here_2 { Here key.now (set starts.old seen.arrays at) (opening seen kind shape) (at + 3) }
    ensures here { Here key.now starts.new result.seen result.at }
    ensures only { Only opens_or_ends key.now starts.new result.seen result.at }
    ensures onward { at < result.at }
{
    table::put(starts, seen.arrays, at as u16);
    let opened = seen::opened(seen, kind, shape);
    entries(key, starts, opened, at + 3)
}

// Where the walk stands behind the entries of the array that is open, from `from` on, that keep their rules. Inner: it stands at
// `from`, and the key is not too long.
fn entries(key: &[u8], starts: &[u16], seen: Seen, from: usize) -> Reached
    requires key_len_bound { length key.now ≤ 65536 }
    requires first_value { seen.first ≡ false }
    requires here_2 { Here key.now starts.now seen from }
    ensures here { Here key.now starts.now result.seen result.at }
    ensures only { Only opens_or_ends key.now starts.now result.seen result.at }
    ensures onward { from ≤ result.at }
{
    let array = seen.array;
    if array.kind == 2 {
        let behind = cells(key, array, from);
        return Reached {
            seen: seen::entered(seen, (behind - from) / 21, 0),
            at: behind,
        };
    }
    if seen.scaled {
        let behind = scaled_calls(key, starts, array, seen.arrays, from);
        return Reached {
            seen: seen::entered(seen, 0, (behind - from) / 15),
            at: behind,
        };
    }
    let behind = calls(key, starts, array, seen.arrays, from);
    Reached {
        seen: seen::entered(seen, 0, (behind - from) / 11),
        at: behind,
    }
}

// The offset behind the cells, from `from` on, that keep the rules of the array that is open. Inner: `from` lies in the key, which is
// not too long.
fn cells(key: &[u8], array: Opening, from: usize) -> usize
    requires from_in_bounds { from ≤ length key.now }
    requires key_len_bound { length key.now ≤ 65536 }
    ensures run { Run key.now Record.Cell (cell_rules array) from result }
    ensures stops { Fails key.now Record.Cell (cell_rules array) result }
{
    let len = key.len();
    let mut at = from;
    while at + 21 <= len {
        let kept = cell_kept(key, array, at);
        if !kept {
            return at;
        }
        at += 21;
    }
    at
}

// The offset behind the calls of edition 1, from `from` on, that keep the rules of the array that is open, the last of so many. Inner:
// `from` lies in the key, which is not too long; the arrays' offsets are noted, and the array that is open has at most 30 bits a side.
fn calls(key: &[u8], starts: &[u16], array: Opening, arrays: usize, from: usize) -> usize
    requires from_in_bounds { from ≤ length key.now }
    requires key_len_bound { length key.now ≤ 65536 }
    requires noted { Noted key.now starts.now arrays }
    requires narrow { Narrow array.shape }
    ensures run { Run key.now Record.Call (call_rules_in key.now starts.now false array arrays) from result }
    ensures stops { Fails key.now Record.Call (call_rules_in key.now starts.now false array arrays) result }
{
    let len = key.len();
    let mut at = from;
    while at + 11 <= len {
        let kept = call_kept(key, starts, array, arrays, at);
        if !kept {
            return at;
        }
        at += 11;
    }
    at
}

// The same of calls of edition 2. Inner: as for `calls`.
fn scaled_calls(key: &[u8], starts: &[u16], array: Opening, arrays: usize, from: usize) -> usize
    requires from_in_bounds { from ≤ length key.now }
    requires key_len_bound { length key.now ≤ 65536 }
    requires noted { Noted key.now starts.now arrays }
    requires narrow { Narrow array.shape }
    ensures run { Run key.now Record.ScaledCall (scaled_call_rules_in key.now starts.now true array arrays) from result }
    ensures stops { Fails key.now Record.ScaledCall (scaled_call_rules_in key.now starts.now true array arrays) result }
{
    let len = key.len();
    let mut at = from;
    while at + 15 <= len {
        let kept = scaled_call_kept(key, starts, array, arrays, at);
        if !kept {
            return at;
        }
        at += 15;
    }
    at
}

// Whether a cell stands at an offset and keeps its rules. Inner: there are bytes for one.
fn cell_kept(key: &[u8], array: Opening, at: usize) -> bool
    requires { at + 21 ≤ length key.now }
    ensures { Tried result key.now Record.Cell (cell_rules array) at }
{
    if key[at] != 4 {
        return false;
    }
    let c = read::cell(key, at + 1);
    rules::cell(array, c, at).is_ok()
}

// Whether a call of edition 1 stands at an offset and keeps its rules. Inner: there are bytes for one; otherwise as for `calls`.
fn call_kept(key: &[u8], starts: &[u16], array: Opening, arrays: usize, at: usize) -> bool
    requires at_in_bounds { at + 11 ≤ length key.now }
    requires noted { Noted key.now starts.now arrays }
    requires narrow { Narrow array.shape }
    ensures { Tried result key.now Record.Call (call_rules_in key.now starts.now false array arrays) at }
{
    if key[at] != 5 {
        return false;
    }
    let c = read::call(key, at + 1);
    rules::call(key, starts, false, array, arrays, c, at).is_ok()
}

// The same of a call of edition 2.
fn scaled_call_kept(key: &[u8], starts: &[u16], array: Opening, arrays: usize, at: usize) -> bool
    requires at_in_bounds { at + 15 ≤ length key.now }
    requires noted { Noted key.now starts.now arrays }
    requires narrow { Narrow array.shape }
    ensures { Tried result key.now Record.ScaledCall (scaled_call_rules_in key.now starts.now true array arrays) at }
{
    if key[at] != 8 {
        return false;
    }
    let c = read::scaled_call(key, at + 1);
    rules::scaled_call(key, starts, true, array, arrays, c, at).is_ok()
}
