// What was got, as text.
use crate::input;
use compare::{Compared, Likeness};
use refusal::{PairRefusal, Refusal, Which};
use std::io;
use std::io::{Read, Write};

// As many bytes of the reader as asked for, where the space has room.
pub fn echo<R: Read, W: Write>(
    reader: &mut R,
    writer: &mut W,
    length: usize,
    space: &mut [u8],
) -> io::Result<()> {
    if length <= space.len() {
        pass(reader, writer, &mut space[0..length])?;
    }
    Ok(())
}

// The reader copied to the writer until the space is full or the reader ends.
fn pass<R: Read, W: Write>(reader: &mut R, writer: &mut W, space: &mut [u8]) -> io::Result<()> {
    let got = input::read_full(reader, space)?;
    writer.write_all(&space[..got])
}

// Whether two keys are the same, with the factors of both, or the refusal with the key that it is about.
pub fn compared<W: Write>(writer: &mut W, got: Result<Compared, PairRefusal>) -> io::Result<()> {
    match got {
        Ok(compared) => {
            match compared.likeness {
                Likeness::Same => writer.write_all(b"same")?,
                Likeness::Different => writer.write_all(b"different")?,
            }
            factors(writer, compared.factors)
        }
        Err(refused) => {
            which(writer, refused.key)?;
            refusal(writer, refused.refusal)
        }
    }
}

// How many factors were taken.
pub fn factors<W: Write>(writer: &mut W, taken: usize) -> io::Result<()> {
    write!(writer, " factors {taken}")
}

// Which key a refusal is about.
pub fn which<W: Write>(writer: &mut W, key: Which) -> io::Result<()> {
    match key {
        Which::First => writer.write_all(b"first "),
        Which::Second => writer.write_all(b"second "),
        Which::Neither => writer.write_all(b"neither "),
    }
}

// The places of a sheet.
pub fn sheet<W: Write>(writer: &mut W, places: &[u32]) -> io::Result<()> {
    writer.write_all(b" sheet")?;
    for place in places {
        write!(writer, " {place}")?;
    }
    Ok(())
}

// A refusal: its number and its place.
pub fn refusal<W: Write>(writer: &mut W, r: Refusal) -> io::Result<()> {
    let reason = r.reason.number();
    let place = r.place;
    write!(writer, "refused {reason} at {place}")
}

// A number.
pub fn number<W: Write>(writer: &mut W, x: u64) -> io::Result<()> {
    write!(writer, "{x}")
}
