// What compare answers over the points of a list of values: a letter for each, and how many of them are S and D.
ghost use Rattle.std.specs.Prelude.{◌≤◌};

use compare::{Compared, Likeness};
use refusal::PairRefusal;
use std::io;
use std::io::Write;

// At how many points two keys are the same, and at how many they are different.
#[derive(Clone, Copy)]
pub(crate) struct Tally {
    pub same: u32,
    pub different: u32,
}

// Compares two keys at every point of one coordinate or two that are among the values; the last coordinate changes first.
pub(crate) fn over_points<W: Write>(
    writer: &mut W,
    first: &[u8],
    second: &[u8],
    rows: usize,
    columns: usize,
    values: &[u32],
    sheet: &mut [u32],
) -> io::Result<Tally> {
    let lines = line_count(rows, columns, values.len());
    let mut tally = Tally {
        same: 0,
        different: 0,
    };
    for i in 0..lines {
        let from = value(values, i);
        tally = over_line(
            writer, tally, first, second, rows, columns, from, values, sheet,
        )?;
    }
    Ok(tally)
}

// How many lines the points of so many values are in: one for each value where a point has two coordinates.
fn line_count(rows: usize, columns: usize, values: usize) -> usize {
    if std::num::wrapping_add_usize(rows, columns) == 2 {
        values
    } else {
        1
    }
}

// Goes on with the points whose last coordinate is among the values; the first, where there are two, is given.
fn over_line<W: Write>(
    writer: &mut W,
    before: Tally,
    first: &[u8],
    second: &[u8],
    rows: usize,
    columns: usize,
    from: u32,
    values: &[u32],
    sheet: &mut [u32],
) -> io::Result<Tally> {
    let mut tally = before;
    for value in values {
        let point = [from, *value];
        tally = counted(
            writer,
            tally,
            at(first, second, rows, columns, &point, sheet),
        )?;
    }
    Ok(tally)
}

// The value at an index, or 0 where there is none.
fn value(values: &[u32], i: usize) -> u32 {
    if i < values.len() { values[i] } else { 0 }
}

// Compares at the point that is the last so many of the coordinates, rows first.
fn at(
    first: &[u8],
    second: &[u8],
    rows: usize,
    columns: usize,
    coordinates: &[u32],
    sheet: &mut [u32],
) -> Result<Compared, PairRefusal> {
    let middle = coordinates.len().saturating_sub(columns);
    let start = middle.saturating_sub(rows);
    compare::compare(
        first,
        second,
        &coordinates[start..middle],
        &coordinates[middle..],
        sheet,
    )
}

// The tally with one answer more, whose letter is printed.
fn counted<W: Write>(
    writer: &mut W,
    tally: Tally,
    got: Result<Compared, PairRefusal>,
) -> io::Result<Tally> {
    let mut same = tally.same;
    let mut different = tally.different;
    match got {
        Ok(compared) => match compared.likeness {
            Likeness::Same => {
                writer.write_all(b"S")?;
                same = std::num::wrapping_add_u32(same, 1);
            }
            Likeness::Different => {
                writer.write_all(b"D")?;
                different = std::num::wrapping_add_u32(different, 1);
            }
        },
        Err(_) => writer.write_all(b"R")?,
    }
    Ok(Tally {
        same: same,
        different: different,
    })
}

// Prints a tally behind its letters.
pub(crate) fn show<W: Write>(writer: &mut W, tally: Tally) -> io::Result<()> {
    let same = tally.same;
    let different = tally.different;
    write!(writer, " same {same} different {different}")
}
