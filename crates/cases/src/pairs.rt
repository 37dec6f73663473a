// Compare, called on a case's two keys at its point, or at every point of a list of values, and locate and shorter at its point. Counts are
// cut so that they fit the arrays.
use crate::{print, tally};
use std::io;
use std::io::{Read, Write};
use testing::input::{Header, Operation};
use testing::{input, output};

// Compares the keys at the case's point, locates a cell in which they differ, or asks for the shorter.
pub(crate) fn at_point<R: Read, W: Write>(
    reader: &mut R,
    writer: &mut W,
    header: Header,
    data: &[u8],
) -> io::Result<()> {
    let fields = header.fields;
    let row_count = (fields[0] % 512) as usize;
    let column_count = (fields[1] % 512) as usize;
    let places = (fields[2] % 4096) as usize;
    let mut rows = [0u32; 512];
    let mut columns = [0u32; 512];
    let mut sheet = [0u32; 4096];
    on(
        reader,
        writer,
        header.operation,
        input::part(data, header.x as usize, header.y as usize),
        input::part(data, fields[3] as usize, fields[4] as usize),
        &mut rows[0..row_count],
        &mut columns[0..column_count],
        &mut sheet[0..places],
    )
}

// Compares the keys at every point whose coordinates are among the case's values.
pub(crate) fn at_points<R: Read, W: Write>(
    reader: &mut R,
    writer: &mut W,
    header: Header,
    data: &[u8],
) -> io::Result<()> {
    let fields = header.fields;
    let row_count = (fields[0] % 3) as usize;
    let column_count = (fields[1] % 3) as usize;
    let count = (fields[2] % 2048) as usize;
    let mut values = [0u32; 2048];
    sweep(
        reader,
        writer,
        input::part(data, header.x as usize, header.y as usize),
        input::part(data, fields[3] as usize, fields[4] as usize),
        row_count,
        column_count,
        &mut values[0..count],
    )
}

// Reads the point and the sheet, and makes the call.
fn on<'a, R: Read, W: Write>(
    reader: &mut R,
    writer: &mut W,
    operation: Operation,
    first: &'a [u8],
    second: &'a [u8],
    rows: &mut [u32],
    columns: &mut [u32],
    sheet: &mut [u32],
) -> io::Result<()> {
    input::fill(reader, rows)?;
    input::fill(reader, columns)?;
    input::fill(reader, sheet)?;
    match operation {
        Operation::Locate => locate(writer, first, second, rows, columns, sheet),
        Operation::Shorter => shorter(writer, first, second, rows, columns, sheet),
        _ => compare(writer, first, second, rows, columns, sheet),
    }
}

// Compares, and prints the answer and the sheet afterwards.
fn compare<W: Write>(
    writer: &mut W,
    first: &[u8],
    second: &[u8],
    rows: &[u32],
    columns: &[u32],
    sheet: &mut [u32],
) -> io::Result<()> {
    output::compared(
        writer,
        compare::compare(first, second, rows, columns, sheet),
    )?;
    output::sheet(writer, sheet)
}

// Locates, and prints the answer and the sheet afterwards.
fn locate<W: Write>(
    writer: &mut W,
    first: &[u8],
    second: &[u8],
    rows: &[u32],
    columns: &[u32],
    sheet: &mut [u32],
) -> io::Result<()> {
    print::located(writer, locate::locate(first, second, rows, columns, sheet))?;
    output::sheet(writer, sheet)
}

// Prints which key is handed back, the length of the part that is, and the sheet after both calls.
fn shorter<'a, W: Write>(
    writer: &mut W,
    first: &'a [u8],
    second: &'a [u8],
    rows: &[u32],
    columns: &[u32],
    sheet: &mut [u32],
) -> io::Result<()> {
    let part = shorter::shorter(&*first, &*second, &*rows, &*columns, &mut *sheet);
    let length = part.len();
    print::shorter(
        writer,
        shorter::which(first, second, rows, columns, &mut *sheet),
        length,
    )?;
    output::sheet(writer, sheet)
}

// Reads the values, compares at their points, and prints each answer's letter and the counts.
fn sweep<R: Read, W: Write>(
    reader: &mut R,
    writer: &mut W,
    first: &[u8],
    second: &[u8],
    rows: usize,
    columns: usize,
    values: &mut [u32],
) -> io::Result<()> {
    input::fill(reader, values)?;
    let mut sheet = [0u32; 4096];
    let tally = tally::over_points(writer, first, second, rows, columns, values, &mut sheet)?;
    tally::show(writer, tally)
}
