// The judgement of a record by what was seen before it.
ghost use Rattle.std.specs.Prelude.{◌≡◌};
ghost use Rattle.rules.specs.Inner.{Noted, Narrow};
ghost use Rattle.key.specs.Inner.{verdict_on};

use crate::seen::Seen;
use records::Record;
use refusal::Refusal;

// The verdict on a record, by what was seen before it and the offsets of the arrays so far. Its bytes are those from `at` to
// `next`. Inner: the offsets are noted, and the array that is open has at most 30 bits a side.
pub(crate) fn record(
    seen: Seen,
    key: &[u8],
    starts: &[u16],
    at: usize,
    next: usize,
    item: Record,
) -> Result<(), Refusal>
    requires noted { Noted key.now starts.now seen.arrays }
    requires narrow { Narrow seen.array.shape }
    ensures { result ≡ verdict_on seen key.now starts.now at next item }
{
    match item {
        Record::Head(shape) => rules::head(seen.first, shape, at),
        Record::Sparse(shape) => rules::array_opening(
            seen.first,
            seen.head,
            seen.arrays,
            shape,
            at,
        ),
        Record::Recursive(shape) => rules::array_opening(
            seen.first,
            seen.head,
            seen.arrays,
            shape,
            at,
        ),
        Record::Cell(c) => rules::cell(seen.array, c, at),
        Record::Call(c) => rules::call(key, starts, seen.scaled, seen.array, seen.arrays, c, at),
        Record::End => rules::end(seen.head, seen.arrays, seen.array, key.len(), at, next),
        Record::ScaledHead(shape) => rules::head(seen.first, shape, at),
        Record::ScaledCall(c) => rules::scaled_call(
            key,
            starts,
            seen.scaled,
            seen.array,
            seen.arrays,
            c,
            at,
        ),
    }
}
