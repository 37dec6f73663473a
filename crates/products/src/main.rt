// Runs the cases of standard input through the inner calls of weights and prints a line for each: the case,
// what is wanted and what was got. tests/cases writes the cases and the wanted lines from 004.
//
// Standard input is the number of cases and then each case: its header (input::Header), the text to print in front of what was
// got, and the numbers of its lists. All numbers are of four bytes, little-endian.
#![tactic(auto)]

mod eqs;
mod input;
mod print;
mod sides;

use std::io;
use std::io::{Read, Write};
use testing::output;

fn main(rt: HostRuntime) -> io::Result<()> {
    let mut reader = rt.stdin();
    let mut writer = rt.stdout();
    let cases = testing::input::next(&mut reader)?;
    for _ in 0..cases {
        run(&mut reader, &mut writer)?;
    }
    Ok(())
}

// One case.
fn run<R: Read, W: Write>(reader: &mut R, writer: &mut W) -> io::Result<()> {
    let header = input::read(reader)?;
    let mut text = [0u8; 4096];
    output::echo(reader, writer, header.text, &mut text)?;
    let call = header.call;
    match call {
        1 => eqs::eq(reader, writer, header.count)?,
        4 => eqs::eq_quadratic(reader, writer, header.count)?,
        _ => sides::weights(reader, writer, header)?,
    }
    writer.write_all(b"\n")
}
