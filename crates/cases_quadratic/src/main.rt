// Runs the cases of standard input through evaluate and compare over the field of p² elements and prints a line for each: the
// case, what is wanted and what was got. tests/cases writes the cases and the wanted lines from 02, E2. Standard input is laid
// out as that of crates/cases.
#![tactic(auto)]

mod calls;

use std::io;
use std::io::{Read, Write};
use testing::{input, output};

fn main(rt: HostRuntime) -> io::Result<()> {
    let mut reader = rt.stdin();
    let mut writer = rt.stdout();
    let cases = input::next(&mut reader)?;
    for _ in 0..cases {
        run(&mut reader, &mut writer)?;
    }
    Ok(())
}

// One case.
fn run<R: Read, W: Write>(reader: &mut R, writer: &mut W) -> io::Result<()> {
    let header = input::read(reader)?;
    let mut text = [0u8; 65536];
    output::echo(reader, writer, header.text, &mut text)?;
    let mut space = [0u8; 262144];
    calls::call(reader, writer, header, &mut space)?;
    writer.write_all(b"\n")
}
