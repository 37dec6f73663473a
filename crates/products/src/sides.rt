// Weights by a prepared side, from a bit of it up to each further one.
ghost use Rattle.std.specs.Prelude.{◌^◌, ◌≤◌, ◌<◌, length};
ghost use Rattle.scalar.specs.Elements.{singles};
ghost use Rattle.weights.specs.Side.{Ready, ForSide};

use crate::input::Header;
use crate::{input, print};
use field::Fp;
use scalar::Scalar;
use scalar::unreduced::Product;
use std::io;
use std::io::{Read, Write};
use weights::side::Weight;
use weights::{side, table};

// Prints the weights of a case by a table of single factors, or by one with the weights of limbs. Inner: there are at most 30
// coordinates.
pub(crate) fn weights<R: Read, W: Write>(
    reader: &mut R,
    writer: &mut W,
    header: Header,
) -> io::Result<()>
    requires { header.count ≤ 30 }
{
    let count = header.count;
    let mut coordinates = [0u32; 30];
    if header.places == 64 {
        let mut table = [Fp::zero(); table::PLACES];
        return by_table(
            reader,
            writer,
            header,
            &mut coordinates[0..count],
            &mut table,
        );
    }
    let mut table = [Fp::zero(); table::LIMB_PLACES];
    by_table(
        reader,
        writer,
        header,
        &mut coordinates[0..count],
        &mut table,
    )
}

// Reads the coordinates, prepares the side and prints the weights. Inner: likewise, and the table has places for them.
fn by_table<R: Read, W: Write>(
    reader: &mut R,
    writer: &mut W,
    header: Header,
    coordinates: &mut [u32],
    table: &mut [Fp],
) -> io::Result<()>
    requires { (length coordinates.old ≤ 30) × Ready table.old }
{
    input::fill(reader, coordinates)?;
    table::prepare(coordinates, table);
    let count = coordinates.len();
    if header.call == 2 {
        windows(writer, header.number, table, header.from, count as u8)
    } else {
        from_first(writer, header.number, table, count as u8)
    }
}

// Prints the weights of a number over the bits from one up to each that is not before it, each of the number's lowest bits, so many. Inner:
// the table is one for so many coordinates.
fn windows<W: Write>(writer: &mut W, a: u32, table: &[Fp], from: usize, count: u8) -> io::Result<()>
    requires { ForSide singles count table.now }
{
    for bits in 0..count + 1 {
        if from <= bits as usize {
            let over = side::reach(bits, count, table);
            weight(
                writer,
                side::factor(lowest(a, bits as usize - from), table, from, over),
            )?;
        }
    }
    Ok(())
}

// Prints the weights of a number over the first bits, up to each, likewise. Inner: likewise.
fn from_first<W: Write>(writer: &mut W, a: u32, table: &[Fp], count: u8) -> io::Result<()>
    requires { ForSide singles count table.now }
{
    for bits in 0..count + 1 {
        let over = side::reach(bits, count, table);
        weight(writer, side::weigh(lowest(a, bits as usize), table, over))?;
    }
    Ok(())
}

// A number's lowest bits, so many. Inner: at most 30.
fn lowest(a: u32, bits: usize) -> u32
    requires { bits ≤ 30 }
    ensures { result < 2 ^ bits }
{
    a % (1u32 << bits)
}

// Prints a weight and its count of factors.
fn weight<W: Write>(writer: &mut W, of: Weight<Product>) -> io::Result<()> {
    print::element(writer, <Fp as Scalar>::reduced(of.product))?;
    print::count(writer, of.factors)
}
