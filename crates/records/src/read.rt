// The fields of a record, read from its body.
ghost use Rattle.std.specs.Prelude.{◌≡◌, [], ◌∷◌, ◌+◌, ◌≤◌, ◌<◌, length, get_or, take, drop};
ghost use Rattle.records.specs.Layout.{number_in, fields_in, total};
ghost use Rattle.records.specs.Kinds.{kind_of, fields_of, widths_of, shape_fields, cell_fields, call_fields, scaled_call_fields};
ghost use Rattle.records.specs.Inner.{size_of, call_size};

use crate::{Call, Cell, Record, ScaledCall, Shape};

// The record of a known kind whose body begins at an offset and is whole.
pub(crate) fn record(bytes: &[u8], at: usize, kind: u8) -> Record
    requires known { 0 < size_of kind }
    requires whole { at + total (widths_of kind) ≤ length bytes.now }
    ensures kind { kind_of result ≡ kind }
    ensures fields { fields_of result ≡ fields_in (widths_of kind) (drop at bytes.now) }
{
    match kind {
        1 => Record::Head(shape(bytes, at)),
        2 => Record::Sparse(shape(bytes, at)),
        3 => Record::Recursive(shape(bytes, at)),
        4 => Record::Cell(cell(bytes, at)),
        5 => Record::Call(call(bytes, at)),
        7 => Record::ScaledHead(shape(bytes, at)),
        8 => Record::ScaledCall(scaled_call(bytes, at)),
        _ => Record::End,
    }
}

// The shape in two bytes. Inner: they are there.
pub fn shape(bytes: &[u8], at: usize) -> Shape
    requires { at + 2 ≤ length bytes.now }
    ensures { shape_fields result ≡ fields_in (1 ∷ 1 ∷ []) (drop at bytes.now) }
{
    Shape {
        rows: bytes[at],
        columns: bytes[at + 1],
    }
}

// The cell in twenty bytes. Inner: they are there.
pub fn cell(bytes: &[u8], at: usize) -> Cell
    requires { at + 20 ≤ length bytes.now }
    ensures { cell_fields result ≡ fields_in (4 ∷ 4 ∷ 4 ∷ 4 ∷ 4 ∷ []) (drop at bytes.now) }
{
    Cell {
        row: four_bytes(bytes, at),
        column: four_bytes(bytes, at + 4),
        a: four_bytes(bytes, at + 8),
        b: four_bytes(bytes, at + 12),
        c: four_bytes(bytes, at + 16),
    }
}

// The call in ten bytes. Inner: they are there.
pub fn call(bytes: &[u8], at: usize) -> Call
    requires { at + 10 ≤ length bytes.now }
    ensures { call_fields result ≡ fields_in (2 ∷ 4 ∷ 4 ∷ []) (drop at bytes.now) }
{
    Call {
        id: two_bytes(bytes, at),
        down: four_bytes(bytes, at + 2),
        right: four_bytes(bytes, at + 6),
    }
}

// The call with a factor in fourteen bytes. Inner: they are there.
pub fn scaled_call(bytes: &[u8], at: usize) -> ScaledCall
    requires { at + 14 ≤ length bytes.now }
    ensures { scaled_call_fields result ≡ fields_in (2 ∷ 4 ∷ 4 ∷ 4 ∷ []) (drop at bytes.now) }
{
    ScaledCall {
        id: two_bytes(bytes, at),
        down: four_bytes(bytes, at + 2),
        right: four_bytes(bytes, at + 6),
        factor: four_bytes(bytes, at + 10),
    }
}

// The length of a call, of edition 2 where `scaled`.
pub fn call_size(scaled: bool) -> usize
    ensures { result ≡ call_size scaled }
{
    if scaled { 15 } else { 11 }
}

// The number in four bytes from a place on. Inner: they are there.
pub fn four_bytes(bytes: &[u8], at: usize) -> u32
    requires { at + 4 ≤ length bytes.now }
    ensures { result ≡ number_in (take 4 (drop at bytes.now)) }
{
    let b0 = byte(bytes, at);
    let b1 = byte(bytes, at + 1);
    let b2 = byte(bytes, at + 2);
    let b3 = byte(bytes, at + 3);
    b0 + 256 * b1 + 65536 * b2 + 16777216 * b3
}

// The number in two bytes.
fn two_bytes(bytes: &[u8], at: usize) -> u16
    requires { at + 2 ≤ length bytes.now }
    ensures { result ≡ number_in (take 2 (drop at bytes.now)) }
{
    let b0 = byte(bytes, at);
    let b1 = byte(bytes, at + 1);
    (b0 + 256 * b1) as u16
}

// The number in the byte at a place. Inner: it is there.
pub fn byte(bytes: &[u8], at: usize) -> u32
    requires { at < length bytes.now }
    ensures { (result ≡ get_or bytes.now at 0) × (result < 256) }
{
    bytes[at] as u32
}
