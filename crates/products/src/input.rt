// The numbers of a case.
ghost use Rattle.std.specs.Prelude.{◌≤◌, IfOk, OnOk};
ghost use Rattle.algebra.specs.Points.{Below};
ghost use Rattle.field.specs.Fp.{p};

use field::Fp;
use std::io;
use std::io::Read;
use testing::input::next;

// The numbers that a case begins with.
#[derive(Clone, Copy)]
pub(crate) struct Header {
    // Which call: 1 for eq, 2 for factor, 3 for weigh, 4 for eq over p².
    pub call: u32,
    // The length of the text.
    pub text: usize,
    // How many numbers a list has, or how many elements of p².
    pub count: usize,
    // The number whose weights are taken.
    pub number: u32,
    // The bit from which factor takes them.
    pub from: usize,
    // The places of the table that they are taken by: 64 or 448.
    pub places: u32,
}

// The next header. A list has at most 30 numbers.
pub(crate) fn read<R: Read>(reader: &mut R) -> io::Result<Header>
    ensures { IfOk result (λ header. header.count ≤ 30) }
{
    Ok(Header {
        call: next(reader)?,
        text: next(reader)? as usize,
        count: (next(reader)? % 31) as usize,
        number: next(reader)?,
        from: next(reader)? as usize,
        places: next(reader)?,
    })
}

// The next numbers, modulo p.
pub(crate) fn fill<R: Read>(reader: &mut R, numbers: &mut [u32]) -> io::Result<()>
    ensures { OnOk result (Below p numbers.new) }
{
    for number in numbers.iter_mut() {
        *number = Fp::remainder(next(reader)? as u64).value();
    }
    Ok(())
}
