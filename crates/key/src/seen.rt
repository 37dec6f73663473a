// What the walk over a key's records has seen before a record.
ghost use Rattle.std.specs.Prelude.{◌≡◌, [], ◌+◌, ◌≤◌, ◌<◌};
ghost use Rattle.key.specs.Inner.{seen_in, opening, passed, counts_seen};

use crate::Counts;
use records::Shape;
use rules::Opening;

// What was seen so far.
#[derive(Clone, Copy)]
pub(crate) struct Seen {
    // Whether the next record is the first.
    pub first: bool,
    // Whether the key is of edition 2, whose calls have factors.
    pub scaled: bool,
    // The head's shape.
    pub head: Shape,
    // The array that is open; of kind 0 where none is.
    pub array: Opening,
    // How many arrays were opened, and how many cells and calls there were.
    pub arrays: usize,
    pub cells: usize,
    pub calls: usize,
}

// What is seen before the first record.
pub(crate) fn nothing() -> Seen
    ensures { result ≡ seen_in [] }
{
    let none = Shape {
        rows: 0,
        columns: 0,
    };
    Seen {
        first: true,
        scaled: false,
        head: none,
        array: Opening {
            kind: 0,
            shape: none,
        },
        arrays: 0,
        cells: 0,
        calls: 0,
    }
}

// What is seen behind a head that is the first record, of edition 2 where `scaled`.
pub(crate) fn headed(scaled: bool, shape: Shape) -> Seen
    ensures { result ≡ passed (seen_in []) scaled shape 0 0 }
{
    let mut s = nothing();
    s.first = false;
    s.scaled = scaled;
    s.head = shape;
    s
}

// What is seen behind the opening of an array of a kind. Inner: there are fewer than 1,024 arrays before it.
pub(crate) fn opened(seen: Seen, kind: u8, shape: Shape) -> Seen
    requires { seen.arrays < 1024 }
    ensures { result ≡ opening seen kind shape }
{
    let mut s = seen;
    let array = Opening {
        kind: kind,
        shape: shape,
    };
    s.first = false;
    s.array = array;
    s.arrays += 1;
    s
}

// What is seen behind so many cells and calls more. Inner: the sums are at most 65,536, the most bytes that a key has.
pub(crate) fn entered(seen: Seen, cells: usize, calls: usize) -> Seen
    requires { (seen.cells + cells ≤ 65536) × (seen.calls + calls ≤ 65536) }
    ensures { result ≡ passed seen seen.scaled seen.head (seen.cells + cells) (seen.calls + calls) }
{
    let mut s = seen;
    s.first = false;
    s.cells += cells;
    s.calls += calls;
    s
}

// The counts of what was seen.
pub(crate) fn counts(seen: Seen) -> Counts
    ensures { result ≡ counts_seen seen }
{
    let head = seen.head;
    Counts {
        arrays: seen.arrays,
        cells: seen.cells,
        calls: seen.calls,
        rows: head.rows,
        columns: head.columns,
    }
}
