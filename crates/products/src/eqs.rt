// eq over either field, called on a case's two lists.
ghost use Rattle.std.specs.Prelude.{◌≡◌, ◌≤◌, length};

use crate::{input, print};
use field::Fp;
use quadratic::Fp2;
use scalar::Scalar;
use std::io;
use std::io::{Read, Write};
use weights::Product;

// Prints eq of the next two lists of so many numbers, and its count of factors. Inner: they are at most 30.
pub(crate) fn eq<R: Read, W: Write>(reader: &mut R, writer: &mut W, count: usize) -> io::Result<()>
    requires { count ≤ 30 }
{
    let mut x = [0u32; 30];
    let mut y = [0u32; 30];
    let product = of_lists::<Fp, R>(reader, &mut x[0..count], &mut y[0..count])?;
    print::element(writer, product.value)?;
    print::count(writer, product.factors)
}

// Prints eq over p² of the next two lists of so many elements, of two numbers each, and its count of factors. Inner: they are at most 30.
pub(crate) fn eq_quadratic<R: Read, W: Write>(
    reader: &mut R,
    writer: &mut W,
    count: usize,
) -> io::Result<()>
    requires { count ≤ 30 }
{
    let mut x = [0u32; 60];
    let mut y = [0u32; 60];
    let product = of_lists::<Fp2, R>(reader, &mut x[0..2 * count], &mut y[0..2 * count])?;
    let (u, v) = (product.value.u, product.value.v);
    print::element(writer, u)?;
    print::element(writer, v)?;
    print::count(writer, product.factors)
}

// Reads the lists, and answers their eq. Inner: they have the same length.
fn of_lists<S: Scalar, R: Read>(
    reader: &mut R,
    x: &mut [u32],
    y: &mut [u32],
) -> io::Result<Product<S>>
    requires { length x.old ≡ length y.old }
{
    input::fill(reader, x)?;
    input::fill(reader, y)?;
    Ok(weights::eq(x, y))
}
