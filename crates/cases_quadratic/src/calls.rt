// The two calls, made with a case's keys, its point and its sheet.
ghost use Rattle.std.specs.Prelude.{◌<◌};

use evaluate::Counted;
use quadratic::Fp2;
use refusal::Refusal;
use std::io;
use std::io::{Read, Write};
use testing::input::{Header, Operation};
use testing::{input, output};

// Reads a case's data and makes its call. Inner: the lengths are as the header's reader leaves them.
pub(crate) fn call<R: Read, W: Write>(
    reader: &mut R,
    writer: &mut W,
    header: Header,
    space: &mut [u8],
) -> io::Result<()>
    requires { (header.zeros < 131072) × (header.«data» < 131072) }
{
    let end = header.zeros + header.data;
    if end <= space.len() {
        with_data(reader, writer, header, &mut space[0..end])?;
    }
    Ok(())
}

// The same on a buffer of the case's zeros and its data. Counts are cut so that they fit the arrays; a sheet of 1024 arrays has
// 6144 places.
fn with_data<R: Read, W: Write>(
    reader: &mut R,
    writer: &mut W,
    header: Header,
    buffer: &mut [u8],
) -> io::Result<()> {
    input::data(reader, header.zeros, buffer)?;
    let fields = header.fields;
    let row_count = (fields[0] % 512) as usize;
    let column_count = (fields[1] % 512) as usize;
    let places = (fields[2] % 8192) as usize;
    let mut rows = [0u32; 512];
    let mut columns = [0u32; 512];
    let mut sheet = [0u32; 8192];
    at_point(
        reader,
        writer,
        header,
        buffer,
        &mut rows[0..row_count],
        &mut columns[0..column_count],
        &mut sheet[0..places],
    )
}

// Reads the point and the sheet, and makes the call.
fn at_point<R: Read, W: Write>(
    reader: &mut R,
    writer: &mut W,
    header: Header,
    data: &[u8],
    rows: &mut [u32],
    columns: &mut [u32],
    sheet: &mut [u32],
) -> io::Result<()> {
    input::fill(reader, rows)?;
    input::fill(reader, columns)?;
    input::fill(reader, sheet)?;
    match header.operation {
        Operation::EvaluateQuadratic => evaluate(writer, data, rows, columns, sheet),
        _ => compare(writer, header, data, rows, columns, sheet),
    }
}

// Evaluates the key, and prints the answer and the sheet afterwards.
fn evaluate<W: Write>(
    writer: &mut W,
    key: &[u8],
    rows: &[u32],
    columns: &[u32],
    sheet: &mut [u32],
) -> io::Result<()> {
    evaluated(
        writer,
        evaluate_quadratic::evaluate(key, rows, columns, sheet),
    )?;
    output::sheet(writer, sheet)
}

// Compares the two keys that the data has, and prints the answer and the sheet afterwards.
fn compare<W: Write>(
    writer: &mut W,
    header: Header,
    data: &[u8],
    rows: &[u32],
    columns: &[u32],
    sheet: &mut [u32],
) -> io::Result<()> {
    let fields = header.fields;
    let first = input::part(data, header.x as usize, header.y as usize);
    let second = input::part(data, fields[3] as usize, fields[4] as usize);
    output::compared(
        writer,
        compare_quadratic::compare(first, second, rows, columns, sheet),
    )?;
    output::sheet(writer, sheet)
}

// The two numbers each of A, B and C and the factors, or a refusal.
fn evaluated<W: Write>(writer: &mut W, got: Result<Counted<Fp2>, Refusal>) -> io::Result<()> {
    match got {
        Ok(counted) => {
            let values = counted.values;
            element(writer, values.a)?;
            writer.write_all(b" ")?;
            element(writer, values.b)?;
            writer.write_all(b" ")?;
            element(writer, values.c)?;
            output::factors(writer, counted.factors)
        }
        Err(r) => output::refusal(writer, r),
    }
}

// The two numbers of an element.
fn element<W: Write>(writer: &mut W, x: Fp2) -> io::Result<()> {
    output::number(writer, x.u.value() as u64)?;
    writer.write_all(b" ")?;
    output::number(writer, x.v.value() as u64)
}
