// The move, called on a case's key with a buffer of so many bytes aa.
use crate::print;
use std::io;
use std::io::Write;
use testing::input::Header;

// Moves the key into a buffer of the case's length, which is cut so that it fits, and prints the answer and the buffer's bytes
// from the case's offset on.
pub(crate) fn moved<W: Write>(writer: &mut W, header: Header, key: &[u8]) -> io::Result<()> {
    let fields = header.fields;
    let length = (fields[0] % 131072) as usize;
    let mut buffer = [170u8; 131072];
    into(writer, key, &mut buffer[0..length], fields[1] as usize)
}

fn into<W: Write>(writer: &mut W, key: &[u8], buffer: &mut [u8], shown: usize) -> io::Result<()> {
    print::moved(writer, editions::moved(key, buffer))?;
    writer.write_all(b" buffer ")?;
    print::bytes(writer, buffer, shown)
}
