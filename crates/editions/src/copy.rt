// The records of a key, moved into the other edition one by one.
ghost use Rattle.std.specs.Prelude.{◌≡◌, ◌+◌, ◌≤◌, length};
ghost use Rattle.records.specs.Kinds.{encoded, with_factor};
ghost use Rattle.records.specs.Put.{overwritten};
ghost use Rattle.key.specs.Indexed.{IsAccepted};
ghost use Rattle.editions.specs.Move.{moved_record, moved_key};

use records::{Call, Record, ScaledCall};

// Copies the moved records of a key to the start of the buffer. Inner: the key is accepted, so that each record can be taken, and the copy
// fits.
pub(crate) fn records(key: &[u8], buffer: &mut [u8])
    requires accepted { IsAccepted key.now }
    requires key_in_bounds { length (moved_key key.now) ≤ length buffer.old }
    ensures { buffer.new ≡ overwritten (moved_key key.now) buffer.old 0 }
{
    let len = key.len();
    let mut at = 0;
    let mut to = 0;
    // by the offset, since records have no width in common
    while at < len {
        let (item, next) = records::take(key, at).unwrap();
        to = records::put(moved(item), buffer, to).unwrap();
        at = next;
    }
}

// The record in the other edition.
fn moved(item: Record) -> Record
    ensures { result ≡ moved_record item }
{
    match item {
        Record::Head(shape) => Record::ScaledHead(shape),
        Record::Sparse(shape) => Record::Sparse(shape),
        Record::Recursive(shape) => Record::Recursive(shape),
        Record::Cell(cell) => Record::Cell(cell),
        Record::Call(call) => Record::ScaledCall(with_factor(call)),
        Record::End => Record::End,
        Record::ScaledHead(shape) => Record::Head(shape),
        Record::ScaledCall(call) => Record::Call(call.without_factor()),
    }
}

// The call with the factor 1.
fn with_factor(call: Call) -> ScaledCall
    ensures { result ≡ with_factor 1 call }
{
    ScaledCall {
        id: call.id,
        down: call.down,
        right: call.right,
        factor: 1,
    }
}
