// A record's bytes, written at the front of a part of a buffer.
ghost use Rattle.std.specs.Prelude.{◌≡◌, [], ◌∷◌, ◌+◌, ◌≤◌, length};
ghost use Rattle.std.proofs.lemmas.List.Edits.{sets};
ghost use Rattle.records.specs.Layout.{bytes_of, field_bytes};
ghost use Rattle.records.specs.Kinds.{shape_fields, encoded};
ghost use Rattle.records.specs.Inner.{Fitting};

use crate::{Call, Cell, Record, ScaledCall, Shape};

// The whole record. That its fields fit their widths follows from their types, and is promised here once for every record.
pub(crate) fn record(part: &mut [u8], item: Record)
    requires { length (encoded item) ≤ length part.old }
    ensures part { part.new ≡ sets part.old 0 (encoded item) }
    ensures fits { Fitting item }
{
    match item {
        Record::Head(s) => shape(part, 1, s),
        Record::Sparse(s) => shape(part, 2, s),
        Record::Recursive(s) => shape(part, 3, s),
        Record::Cell(c) => cell(part, c),
        Record::Call(c) => call(part, c),
        Record::End => kind(part, 6),
        Record::ScaledHead(s) => shape(part, 7, s),
        Record::ScaledCall(c) => scaled_call(part, c),
    }
}

// A record of a kind whose body is a shape.
fn shape(part: &mut [u8], kind: u8, s: Shape)
    requires { 3 ≤ length part.old }
    ensures { part.new ≡ sets part.old 0 (kind ∷ field_bytes (1 ∷ 1 ∷ []) (shape_fields s)) }
{
    part[0] = kind;
    part[1] = s.rows;
    part[2] = s.columns;
}

// A cell with its kind.
fn cell(part: &mut [u8], c: Cell)
    requires { 21 ≤ length part.old }
    ensures { part.new ≡ sets part.old 0 (encoded (Record.Cell c)) }
{
    kind(&mut part[..], 4);
    four_bytes(&mut part[..], 1, c.row);
    four_bytes(&mut part[..], 5, c.column);
    four_bytes(&mut part[..], 9, c.a);
    four_bytes(&mut part[..], 13, c.b);
    four_bytes(&mut part[..], 17, c.c);
}

// A call with its kind.
fn call(part: &mut [u8], c: Call)
    requires { 11 ≤ length part.old }
    ensures { part.new ≡ sets part.old 0 (encoded (Record.Call c)) }
{
    kind(&mut part[..], 5);
    two_bytes(&mut part[..], 1, c.id);
    four_bytes(&mut part[..], 3, c.down);
    four_bytes(&mut part[..], 7, c.right);
}

// A call with a factor, with its kind.
fn scaled_call(part: &mut [u8], c: ScaledCall)
    requires { 15 ≤ length part.old }
    ensures { part.new ≡ sets part.old 0 (encoded (Record.ScaledCall c)) }
{
    kind(&mut part[..], 8);
    two_bytes(&mut part[..], 1, c.id);
    four_bytes(&mut part[..], 3, c.down);
    four_bytes(&mut part[..], 7, c.right);
    four_bytes(&mut part[..], 11, c.factor);
}

// A kind alone.
fn kind(part: &mut [u8], kind: u8)
    requires { 1 ≤ length part.old }
    ensures { part.new ≡ sets part.old 0 (kind ∷ []) }
{
    part[0] = kind;
}

// A number in four bytes.
fn four_bytes(part: &mut [u8], at: usize, number: u32)
    requires { at + 4 ≤ length part.old }
    ensures { part.new ≡ sets part.old at (bytes_of 4 number) }
{
    part[at] = (number % 256) as u8;
    part[at + 1] = (number / 256 % 256) as u8;
    part[at + 2] = (number / 65536 % 256) as u8;
    part[at + 3] = (number / 16777216 % 256) as u8;
}

// A number in two bytes.
fn two_bytes(part: &mut [u8], at: usize, number: u16)
    requires { at + 2 ≤ length part.old }
    ensures { part.new ≡ sets part.old at (bytes_of 2 number) }
{
    part[at] = (number % 256) as u8;
    part[at + 1] = (number / 256 % 256) as u8;
}
