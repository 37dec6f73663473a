// The records of a key (01, 'Records'): taken from a byte slice, and put into one.
#![tactic(auto)]

pub mod read;
mod write;

ghost use Rattle.std.specs.Prelude.{◌≡◌};
ghost use Rattle.records.specs.Kinds.{kind_of, without_factor};
ghost use Rattle.records.specs.Inner.{size_of};
ghost use Rattle.records.specs.Take.{taken_outcome, taken_at};
ghost use Rattle.records.specs.Put.{written_outcome, put_at};
ghost use Rattle.records.specs.RoundTrip.{ReadBack, WrittenAgain};

use refusal::{Reason, Refusal};

// Row bits and column bits.
#[derive(Clone, Copy)]
pub struct Shape {
    pub rows: u8,
    pub columns: u8,
}

// An address in a sparse array, and the values of A, B and C there.
#[derive(Clone, Copy)]
pub struct Cell {
    pub row: u32,
    pub column: u32,
    pub a: u32,
    pub b: u32,
    pub c: u32,
}

// The id of a called array, with its row position a and its column position a': how many times its own rows and columns
// it is moved down and right.
#[derive(Clone, Copy)]
pub struct Call {
    pub id: u16,
    pub down: u32,
    pub right: u32,
}

// The same with a factor, by which the called matrices are multiplied.
#[derive(Clone, Copy)]
pub struct ScaledCall {
    pub id: u16,
    pub down: u32,
    pub right: u32,
    pub factor: u32,
}

// A record of each of the eight kinds. Its fields may hold any numbers of their types.
#[derive(Clone, Copy)]
pub enum Record {
    // Begins a key of edition 1: the shape of its last array.
    Head(Shape),
    // Opens a sparse array of this shape.
    Sparse(Shape),
    // Opens a recursive array of this shape.
    Recursive(Shape),
    // A cell of the sparse array that is open.
    Cell(Cell),
    // A call of the recursive array that is open, in a key of edition 1.
    Call(Call),
    // Ends a key.
    End,
    // Begins a key of edition 2: the shape of its last array.
    ScaledHead(Shape),
    // A call of the recursive array that is open, in a key of edition 2.
    ScaledCall(ScaledCall),
}

impl ScaledCall {
    // The call without its factor.
    pub fn without_factor(self) -> Call
        ensures { result ≡ without_factor self }
    {
        Call {
            id: self.id,
            down: self.down,
            right: self.right,
        }
    }
}

// The record at an offset, judged by its kind and its length alone, and the offset behind it.
pub fn take(bytes: &[u8], at: usize) -> Result<(Record, usize), Refusal>
    ensures answer { taken_outcome result ≡ taken_at bytes.now at }
    ensures again { WrittenAgain result bytes.now at }
{
    let len = bytes.len();
    if len < at {
        return Err(Refusal::new(Reason::OffsetTooGreat, len));
    }
    if len <= at {
        return Err(Refusal::new(Reason::RecordIncomplete, at));
    }
    let kind = bytes[at];
    let size = size_of(kind);
    if size == 0 {
        return Err(Refusal::new(Reason::KindUnknown, at));
    }
    if len - at < size {
        return Err(Refusal::new(Reason::RecordIncomplete, at));
    }
    let next = at + size;
    let item = read::record(bytes, at + 1, kind);
    Ok((item, next))
}

// The record's bytes written at an offset of the buffer, and nothing else, where they fit; the answer is the offset behind them.
pub fn put(item: Record, buffer: &mut [u8], at: usize) -> Result<usize, Refusal>
    ensures answer { written_outcome result ≡ (put_at item buffer.old at).answer }
    ensures buffer { buffer.new ≡ (put_at item buffer.old at).buffer }
    ensures back { ReadBack item result buffer.new at }
{
    let len = buffer.len();
    if len < at {
        return Err(Refusal::new(Reason::OffsetTooGreat, len));
    }
    let room = len - at;
    let size = size_of(kind_of(item));
    if room < size {
        return Err(Refusal::new(Reason::BufferTooShort, size));
    }
    let next = at + size;
    write::record(&mut buffer[at..], item);
    Ok(next)
}

// The length of a record of a kind, or 0 where there is no such kind.
fn size_of(kind: u8) -> usize
    ensures { result ≡ size_of kind }
{
    match kind {
        1 => 3,
        2 => 3,
        3 => 3,
        4 => 21,
        5 => 11,
        6 => 1,
        7 => 3,
        8 => 15,
        _ => 0,
    }
}

// The kind of a record.
fn kind_of(item: Record) -> u8
    ensures { result ≡ kind_of item }
{
    match item {
        Record::Head(_) => 1,
        Record::Sparse(_) => 2,
        Record::Recursive(_) => 3,
        Record::Cell(_) => 4,
        Record::Call(_) => 5,
        Record::End => 6,
        Record::ScaledHead(_) => 7,
        Record::ScaledCall(_) => 8,
    }
}
