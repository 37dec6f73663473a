// Runs the cases of standard input through the public calls and prints a line for each: the case, what is wanted and what
// was got. tests/cases writes the cases and the wanted lines from 01.
//
// Standard input is the number of cases in four bytes, and then each case: a header of numbers, the text to print in
// front of what was got, bytes of data, and, where the call has them, the coordinates and what the sheet holds, or the values
// that coordinates are taken from, four bytes for each number. All numbers are little-endian.
#![tactic(auto)]

mod calls;
mod moves;
mod pairs;
mod print;
mod tally;
mod values;

use std::io;
use std::io::{Read, Write};
use testing::{input, output};

fn main(rt: HostRuntime) -> io::Result<()> {
    let mut reader = rt.stdin();
    let mut writer = rt.stdout();
    let cases = input::next(&mut reader)?;
    for _ in 0..cases {
        run(&mut reader, &mut writer)?;
    }
    Ok(())
}

// One case.
fn run<R: Read, W: Write>(reader: &mut R, writer: &mut W) -> io::Result<()> {
    let header = input::read(reader)?;
    let mut text = [0u8; 65536];
    output::echo(reader, writer, header.text, &mut text)?;
    let mut space = [0u8; 262144];
    calls::call(reader, writer, header, &mut space)?;
    writer.write_all(b"\n")
}
