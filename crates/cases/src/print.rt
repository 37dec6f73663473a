// What was got, as text.
use evaluate::{Counted, Values};
use field::Fp;
use key::Counts;
use locate::Cell;
use records::{Record, Shape};
use refusal::{PairRefusal, Refusal, Which};
use std::io;
use std::io::Write;
use testing::output;

// A number, or a refusal.
pub(crate) fn answer<W: Write>(writer: &mut W, got: Result<Fp, Refusal>) -> io::Result<()> {
    match got {
        Ok(x) => output::number(writer, x.value() as u64),
        Err(r) => output::refusal(writer, r),
    }
}

// A record with its kind's name, its fields and the next offset, or a refusal.
pub(crate) fn taken<W: Write>(
    writer: &mut W,
    got: Result<(Record, usize), Refusal>,
) -> io::Result<()> {
    match got {
        Ok((item, next)) => {
            record(writer, item)?;
            write!(writer, "next {next}")
        }
        Err(r) => output::refusal(writer, r),
    }
}

// The next offset, or a refusal.
pub(crate) fn written<W: Write>(writer: &mut W, got: Result<usize, Refusal>) -> io::Result<()> {
    match got {
        Ok(next) => write!(writer, "next {next}"),
        Err(r) => output::refusal(writer, r),
    }
}

// The length of a moved key, or a refusal.
pub(crate) fn moved<W: Write>(writer: &mut W, got: Result<usize, Refusal>) -> io::Result<()> {
    match got {
        Ok(length) => write!(writer, "length {length}"),
        Err(r) => output::refusal(writer, r),
    }
}

// A price in pence, or a refusal.
pub(crate) fn priced<W: Write>(writer: &mut W, got: Result<usize, Refusal>) -> io::Result<()> {
    match got {
        Ok(pence) => write!(writer, "price {pence}"),
        Err(r) => output::refusal(writer, r),
    }
}

// The counts of an accepted key, or a refusal.
pub(crate) fn checked<W: Write>(writer: &mut W, got: Result<Counts, Refusal>) -> io::Result<()> {
    match got {
        Ok(c) => counts(writer, c),
        Err(r) => output::refusal(writer, r),
    }
}

// The values of A, B and C and the factors, or a refusal.
pub(crate) fn evaluated<W: Write>(
    writer: &mut W,
    got: Result<Counted<Fp>, Refusal>,
) -> io::Result<()> {
    match got {
        Ok(counted) => {
            values(writer, counted.values)?;
            output::factors(writer, counted.factors)
        }
        Err(r) => output::refusal(writer, r),
    }
}

// "same", or a cell in which two keys differ with the values of both there, or the refusal with the key that it is about.
pub(crate) fn located<W: Write>(
    writer: &mut W,
    got: Result<Option<Cell>, PairRefusal>,
) -> io::Result<()> {
    match got {
        Ok(None) => writer.write_all(b"same"),
        Ok(Some(cell)) => {
            writer.write_all(b"different at row ")?;
            field(writer, cell.row)?;
            writer.write_all(b"column ")?;
            field(writer, cell.column)?;
            writer.write_all(b"first ")?;
            values(writer, cell.first)?;
            writer.write_all(b" second ")?;
            values(writer, cell.second)
        }
        Err(refused) => {
            output::which(writer, refused.key)?;
            output::refusal(writer, refused.refusal)
        }
    }
}

// The key that is handed back whole, 0 for none, and how many bytes are handed back.
pub(crate) fn shorter<W: Write>(writer: &mut W, key: Which, length: usize) -> io::Result<()> {
    let number = match key {
        Which::First => 1u8,
        Which::Second => 2,
        Which::Neither => 0,
    };
    write!(writer, "key {number} length {length}")
}

// The values of A, B and C.
fn values<W: Write>(writer: &mut W, v: Values<Fp>) -> io::Result<()> {
    field(writer, v.a.value())?;
    field(writer, v.b.value())?;
    output::number(writer, v.c.value() as u64)
}

// The bytes of a buffer from an offset on, in hexadecimal.
pub(crate) fn bytes<W: Write>(writer: &mut W, buffer: &[u8], from: usize) -> io::Result<()> {
    for byte in buffer.iter().skip(from) {
        write!(writer, "{byte:02x}")?;
    }
    Ok(())
}

fn record<W: Write>(writer: &mut W, item: Record) -> io::Result<()> {
    match item {
        Record::Head(s) => {
            writer.write_all(b"head ")?;
            shape(writer, s)
        }
        Record::Sparse(s) => {
            writer.write_all(b"sparse ")?;
            shape(writer, s)
        }
        Record::Recursive(s) => {
            writer.write_all(b"recursive ")?;
            shape(writer, s)
        }
        Record::Cell(c) => {
            writer.write_all(b"cell ")?;
            field(writer, c.row)?;
            field(writer, c.column)?;
            field(writer, c.a)?;
            field(writer, c.b)?;
            field(writer, c.c)
        }
        Record::Call(c) => {
            writer.write_all(b"call ")?;
            field(writer, c.id as u32)?;
            field(writer, c.down)?;
            field(writer, c.right)
        }
        Record::End => writer.write_all(b"end "),
        Record::ScaledHead(s) => {
            writer.write_all(b"scaled_head ")?;
            shape(writer, s)
        }
        Record::ScaledCall(c) => {
            writer.write_all(b"scaled_call ")?;
            field(writer, c.id as u32)?;
            field(writer, c.down)?;
            field(writer, c.right)?;
            field(writer, c.factor)
        }
    }
}

fn counts<W: Write>(writer: &mut W, c: Counts) -> io::Result<()> {
    let Counts {
        arrays,
        cells,
        calls,
        rows,
        columns,
    } = c;
    write!(
        writer,
        "arrays {arrays} cells {cells} calls {calls} rows {rows} columns {columns}"
    )
}

fn shape<W: Write>(writer: &mut W, s: Shape) -> io::Result<()> {
    field(writer, s.rows as u32)?;
    field(writer, s.columns as u32)
}

fn field<W: Write>(writer: &mut W, x: u32) -> io::Result<()> {
    write!(writer, "{x} ")
}
