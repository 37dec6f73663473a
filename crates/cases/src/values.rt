// Evaluate and cell, called on a key with a case's point or place and its sheet. Counts are cut so that they fit the arrays.
use crate::print;
use std::io;
use std::io::{Read, Write};
use testing::input::Header;
use testing::{input, output};

// Evaluates the key at the case's point.
pub(crate) fn at_point<R: Read, W: Write>(
    reader: &mut R,
    writer: &mut W,
    header: Header,
    key: &[u8],
) -> io::Result<()> {
    let fields = header.fields;
    let row_count = (fields[0] % 512) as usize;
    let column_count = (fields[1] % 512) as usize;
    let places = (fields[2] % 4096) as usize;
    let mut rows = [0u32; 512];
    let mut columns = [0u32; 512];
    let mut sheet = [0u32; 4096];
    evaluate(
        reader,
        writer,
        key,
        &mut rows[0..row_count],
        &mut columns[0..column_count],
        &mut sheet[0..places],
    )
}

// Gives the key's cell at the case's row and column.
pub(crate) fn at_place<R: Read, W: Write>(
    reader: &mut R,
    writer: &mut W,
    header: Header,
    key: &[u8],
) -> io::Result<()> {
    let fields = header.fields;
    let places = (fields[2] % 4096) as usize;
    let mut sheet = [0u32; 4096];
    cell(
        reader,
        writer,
        key,
        fields[0],
        fields[1],
        &mut sheet[0..places],
    )
}

// Reads the point and the sheet, evaluates, and prints the answer and the sheet afterwards.
fn evaluate<R: Read, W: Write>(
    reader: &mut R,
    writer: &mut W,
    key: &[u8],
    rows: &mut [u32],
    columns: &mut [u32],
    sheet: &mut [u32],
) -> io::Result<()> {
    input::fill(reader, rows)?;
    input::fill(reader, columns)?;
    input::fill(reader, sheet)?;
    print::evaluated(writer, evaluate::evaluate(key, rows, columns, sheet))?;
    output::sheet(writer, sheet)
}

// Reads the sheet, gives the cell, and prints the answer and the sheet afterwards.
fn cell<R: Read, W: Write>(
    reader: &mut R,
    writer: &mut W,
    key: &[u8],
    row: u32,
    column: u32,
    sheet: &mut [u32],
) -> io::Result<()> {
    input::fill(reader, sheet)?;
    print::evaluated(writer, evaluate::cell(key, row, column, sheet))?;
    output::sheet(writer, sheet)
}
