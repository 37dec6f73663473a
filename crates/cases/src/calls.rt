// The public calls, made with a case's numbers and data.
ghost use Rattle.std.specs.Prelude.{◌<◌};

use crate::{moves, pairs, print, values};
use records::{Call, Cell, Record, ScaledCall, Shape};
use refusal::Refusal;
use std::io;
use std::io::{Read, Write};
use testing::input;
use testing::input::{Header, Operation};

// Reads a case's data and makes its call. Inner: the lengths are as the header's reader leaves them.
pub(crate) fn call<R: Read, W: Write>(
    reader: &mut R,
    writer: &mut W,
    header: Header,
    space: &mut [u8],
) -> io::Result<()>
    requires { (header.zeros < 131072) × (header.«data» < 131072) }
{
    let from = header.zeros;
    let end = from + header.data;
    if end <= space.len() {
        on(reader, writer, header, &mut space[0..end])?;
    }
    Ok(())
}

// The call of a case on a buffer of its zeros and its data.
fn on<R: Read, W: Write>(
    reader: &mut R,
    writer: &mut W,
    header: Header,
    buffer: &mut [u8],
) -> io::Result<()> {
    input::data(reader, header.zeros, buffer)?;
    let at = header.x as usize;
    let a = (header.x % 4294967296) as u32;
    let b = (header.y % 4294967296) as u32;
    match header.operation {
        Operation::Sum => print::answer(writer, field::sum(a, b)),
        Operation::Difference => print::answer(writer, field::difference(a, b)),
        Operation::Product => print::answer(writer, field::product(a, b)),
        Operation::Take => print::taken(writer, records::take(buffer, at)),
        Operation::Put => put(writer, header, buffer),
        Operation::Check => print::checked(writer, key::check(buffer)),
        Operation::Evaluate => values::at_point(reader, writer, header, buffer),
        Operation::Cell => values::at_place(reader, writer, header, buffer),
        Operation::Compare | Operation::Locate | Operation::Shorter => {
            pairs::at_point(reader, writer, header, buffer)
        }
        Operation::Sweep => pairs::at_points(reader, writer, header, buffer),
        Operation::Move => moves::moved(writer, header, buffer),
        Operation::Price => print::priced(writer, price(header, buffer)),
        Operation::EvaluateQuadratic | Operation::CompareQuadratic | Operation::Nothing => Ok(()),
    }
}

// The price of a key at a case's rates.
fn price(header: Header, key: &[u8]) -> Result<usize, Refusal> {
    let fields = header.fields;
    price::price(key, fields[0], fields[1], fields[2])
}

// Puts the case's record, and prints the answer and the buffer's bytes behind the zeros.
fn put<W: Write>(writer: &mut W, header: Header, buffer: &mut [u8]) -> io::Result<()> {
    let at = header.x as usize;
    print::written(writer, records::put(record(header), buffer, at))?;
    writer.write_all(b" buffer ")?;
    print::bytes(writer, buffer, header.zeros)
}

// The record of a case's kind and fields; an end where there is no such kind.
fn record(header: Header) -> Record {
    let kind = header.kind;
    let fields = header.fields;
    let shape = Shape {
        rows: (fields[0] % 256) as u8,
        columns: (fields[1] % 256) as u8,
    };
    match kind {
        1 => Record::Head(shape),
        2 => Record::Sparse(shape),
        3 => Record::Recursive(shape),
        4 => Record::Cell(Cell {
            row: fields[0],
            column: fields[1],
            a: fields[2],
            b: fields[3],
            c: fields[4],
        }),
        5 => Record::Call(Call {
            id: (fields[0] % 65536) as u16,
            down: fields[1],
            right: fields[2],
        }),
        7 => Record::ScaledHead(shape),
        8 => Record::ScaledCall(ScaledCall {
            id: (fields[0] % 65536) as u16,
            down: fields[1],
            right: fields[2],
            factor: fields[3],
        }),
        _ => Record::End,
    }
}
