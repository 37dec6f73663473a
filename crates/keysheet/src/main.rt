// Keysheet (01, 'The keysheet program and the host'): reads a point and a key from standard input, and prints each array's values
// there, or the refusal.
#![tactic(auto)]

ghost use Rattle.std.specs.Prelude.{◌≤◌, length};

use std::io;
use std::io::{Read, Write};

// One byte more than an input may have is read, so that a longer one is known.
fn main(rt: HostRuntime) -> io::Result<()> {
    let mut input = [0u8; 65537];
    let count = read_full(&mut rt.stdin(), &mut input);
    let mut text = [0u8; 86184];
    let length = report::write(&input[..count], &mut text);
    rt.stdout().write_all(&text[..length])
}

// Reads until a buffer is full or the reader ends or fails, and answers how many bytes were put at the buffer's start. Crate testing's
// own hands a failure on, which here is the end of the input.
fn read_full<R: Read>(reader: &mut R, buffer: &mut [u8]) -> usize
    ensures { result ≤ length buffer.new }
{
    let mut done = 0;
    while done < buffer.len() {
        match reader.read(&mut buffer[done..]) {
            Ok(0) | Err(_) => break,
            Ok(count) => done += count,
        }
    }
    done
}
