// The rules that a record of a key must keep (01, 'An accepted key'; 02, E9). For each kind of record a function tries them in 01's
// order, as the list for that kind in specs/Rules.antt has them. All functions here are inner; what one requires is said at it.
#![tactic(auto)]

ghost use Rattle.std.specs.Prelude.{◌≡◌, ◌+◌, ◌≤◌, ◌<◌, length, get_or, Ok};
ghost use Rattle.rules.specs.Rules.{head_rules, opening_rules, cell_rules, end_rules, after_rules, beyond, outside};
ghost use Rattle.rules.specs.Inner.{unless_broken, held_to, Noted, Narrow, shape_read, called_rules_in, call_rules_in, scaled_call_rules_in};

use field::Fp;
use records::{Call, Cell, ScaledCall, Shape};
use refusal::{Reason, Refusal};

// The opening of an array: its kind, 2 sparse or 3 recursive, and the array's shape.
#[derive(Clone, Copy)]
pub struct Opening {
    pub kind: u8,
    pub shape: Shape,
}

// The rules of a head.
pub fn head(first: bool, shape: Shape, at: usize) -> Result<(), Refusal>
    ensures { result ≡ held_to (Ok tt) at (head_rules first shape) }
{
    refuse_if(!first, Reason::RecordMisplaced, at)?;
    refuse_if(30 < shape.rows, Reason::BitsTooMany, at)?;
    refuse_if(30 < shape.columns, Reason::BitsTooMany, at)
}

// The rules of an array's opening, under a head of the shape `limit` and behind so many arrays.
pub fn array_opening(
    first: bool,
    limit: Shape,
    arrays: usize,
    shape: Shape,
    at: usize,
) -> Result<(), Refusal>
    ensures { result ≡ held_to (Ok tt) at (opening_rules first limit arrays shape) }
{
    refuse_if(first, Reason::RecordMisplaced, at)?;
    refuse_if(1024 <= arrays, Reason::ArraysTooMany, at)?;
    refuse_if(limit.rows < shape.rows, Reason::BitsTooMany, at)?;
    refuse_if(limit.columns < shape.columns, Reason::BitsTooMany, at)
}

// The rules of a cell in the array that is open. All are tried, with no branch for each (docs/PERFORMANCE.md).
pub fn cell(array: Opening, c: Cell, at: usize) -> Result<(), Refusal>
    ensures { result ≡ held_to (Ok tt) at (cell_rules array c) }
{
    let shape = array.shape;
    refuse_if(array.kind != 2, Reason::RecordMisplaced, at)
        .and(refuse_if(
            outside(shape.rows, c.row) | outside(shape.columns, c.column),
            Reason::CellOutside,
            at,
        ))
        .and(refuse_if(Fp::P <= c.a, Reason::ValueTooGreat, at))
        .and(refuse_if(Fp::P <= c.b, Reason::ValueTooGreat, at))
        .and(refuse_if(Fp::P <= c.c, Reason::ValueTooGreat, at))
}

// The rules of a call of edition 1 in the array that is open, the last of `arrays`, of a key that is of edition 2 where `scaled`. Inner:
// the offsets of the arrays are noted, and the array that is open has at most 30 bits a side.
pub fn call(
    key: &[u8],
    starts: &[u16],
    scaled: bool,
    array: Opening,
    arrays: usize,
    c: Call,
    at: usize,
) -> Result<(), Refusal>
    requires noted { Noted key.now starts.now arrays }
    requires narrow { Narrow array.shape }
    ensures { result ≡ held_to (Ok tt) at (call_rules_in key.now starts.now scaled array arrays c) }
{
    refuse_if(array.kind != 3, Reason::RecordMisplaced, at)?;
    refuse_if(scaled, Reason::RecordMisplaced, at)?;
    called(key, starts, array.shape, arrays, c, at)
}

// The rules of a call of edition 2. Inner: as for `call`.
pub fn scaled_call(
    key: &[u8],
    starts: &[u16],
    scaled: bool,
    array: Opening,
    arrays: usize,
    c: ScaledCall,
    at: usize,
) -> Result<(), Refusal>
    requires noted { Noted key.now starts.now arrays }
    requires narrow { Narrow array.shape }
    ensures { result ≡ held_to (Ok tt) at (scaled_call_rules_in key.now starts.now scaled array arrays c) }
{
    refuse_if(array.kind != 3, Reason::RecordMisplaced, at)?;
    refuse_if(!scaled, Reason::RecordMisplaced, at)?;
    refuse_if(Fp::P <= c.factor, Reason::ValueTooGreat, at)?;
    called(key, starts, array.shape, arrays, c.without_factor(), at)
}

// The rules of what a call of either edition calls from an array of this shape, the last of `arrays`. The called array's shape is read
// where the call names an earlier one. Inner: as for `call`.
fn called(
    key: &[u8],
    starts: &[u16],
    shape: Shape,
    arrays: usize,
    c: Call,
    at: usize,
) -> Result<(), Refusal>
    requires noted { Noted key.now starts.now arrays }
    requires narrow { Narrow shape }
    ensures { result ≡ held_to (Ok tt) at (called_rules_in key.now starts.now shape arrays c) }
{
    let id = c.id as usize;
    refuse_if(arrays <= id + 1, Reason::CalledNotEarlier, at)?;
    let of = shape_at(key, starts, id);
    refuse_if(shape.rows < of.rows, Reason::CalledTooLarge, at)?;
    refuse_if(shape.columns < of.columns, Reason::CalledTooLarge, at)?;
    refuse_if(
        beyond(shape.rows, of.rows, c.down),
        Reason::PositionTooGreat,
        at,
    )?;
    refuse_if(
        beyond(shape.columns, of.columns, c.right),
        Reason::PositionTooGreat,
        at,
    )
}

// The rules of an end under a head of the shape `wanted`, behind so many arrays, of which `array` is the last; and of what stands
// behind the end.
pub fn end(
    wanted: Shape,
    arrays: usize,
    array: Opening,
    len: usize,
    at: usize,
    next: usize,
) -> Result<(), Refusal>
    ensures { result ≡ held_to (held_to (Ok tt) at (end_rules wanted arrays array)) next (after_rules next len) }
{
    let shape = array.shape;
    refuse_if(arrays == 0, Reason::RecordMisplaced, at)?;
    refuse_if(shape.rows != wanted.rows, Reason::LastShapeWrong, at)?;
    refuse_if(shape.columns != wanted.columns, Reason::LastShapeWrong, at)?;
    refuse_if(next < len, Reason::BytesAfterEnd, next)
}

// The refusal for a rule's reason where the rule is broken.
fn refuse_if(broken: bool, reason: Reason, place: usize) -> Result<(), Refusal>
    ensures { result ≡ unless_broken (Ok tt) reason broken place }
{
    if broken {
        return Err(Refusal { reason, place });
    }
    Ok(())
}

// Whether a position is too great for an array of `called` bits in one of `bits` bits, at most 30. It says nothing of a called
// array that is larger: the number of bits that are left is taken modulo 32, so that no branch is needed.
fn beyond(bits: u8, called: u8, position: u32) -> bool
    requires { bits ≤ 30 }
    ensures { called ≤ bits → result ≡ beyond bits called position }
{
    let left = (bits as u32 + 256 - called as u32) % 32;
    let power = 1u32 << left;
    power <= position
}

// The shape of array i, from the two bytes behind its opening's kind. Inner: the table has its offset, and the bytes are there.
pub fn shape_at(key: &[u8], starts: &[u16], i: usize) -> Shape
    requires i_in_bounds { i < length starts.now }
    requires i_in_bounds_2 { get_or starts.now i 0 + 2 < length key.now }
    ensures { result ≡ shape_read key.now (get_or starts.now i 0) }
{
    let at = starts[i] as usize;
    Shape {
        rows: key[at + 1],
        columns: key[at + 2],
    }
}

// Whether an address is outside a side of so many bits: 2^bits or more, so that something is left of it behind them. There is no branch
// (docs/PERFORMANCE.md). Inner: it requires nothing.
pub fn outside(bits: u8, address: u32) -> bool
    ensures { result ≡ outside bits address }
{
    let left = address as u64 >> bits.min(32);
    left != 0
}
