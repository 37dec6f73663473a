// What was got, as text.
use field::Fp;
use std::io;
use std::io::Write;

// An element of the field, behind a space.
pub(crate) fn element<W: Write>(writer: &mut W, x: Fp) -> io::Result<()> {
    let number = x.value();
    write!(writer, " {number}")
}

// A count of factors, behind a space.
pub(crate) fn count<W: Write>(writer: &mut W, factors: usize) -> io::Result<()> {
    write!(writer, " {factors}")
}
