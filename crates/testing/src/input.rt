// A case, read from a reader.
ghost use Rattle.std.specs.Prelude.{◌≡◌, ◌+◌, ◌*◌, ◌≤◌, ◌<◌, IfOk, take, drop};
ghost use Rattle.std.specs.Io.{ReadsAtMost};
ghost use Rattle.records.specs.Layout.{number_in};

use records::read;
use std::io;
use std::io::Read;

// A call that a case makes, in the order of its number, from 1 on.
#[derive(Clone, Copy)]
pub enum Operation {
    Sum,
    Difference,
    Product,
    Take,
    Put,
    Check,
    Evaluate,
    Cell,
    Compare,
    // Compare at every point of a list of values.
    Sweep,
    EvaluateQuadratic,
    CompareQuadratic,
    Move,
    Locate,
    Shorter,
    Price,
    // Any other number, which is no call.
    Nothing,
}

impl From<u8> for Operation {
    fn from(number: u8) -> Operation {
        match number {
            1 => Operation::Sum,
            2 => Operation::Difference,
            3 => Operation::Product,
            4 => Operation::Take,
            5 => Operation::Put,
            6 => Operation::Check,
            7 => Operation::Evaluate,
            8 => Operation::Cell,
            9 => Operation::Compare,
            10 => Operation::Sweep,
            11 => Operation::EvaluateQuadratic,
            12 => Operation::CompareQuadratic,
            13 => Operation::Move,
            14 => Operation::Locate,
            15 => Operation::Shorter,
            16 => Operation::Price,
            _ => Operation::Nothing,
        }
    }
}

// The numbers in front of a case's text and data, each of which serves the calls that need it.
#[derive(Clone, Copy)]
pub struct Header {
    // Which call is made.
    pub operation: Operation,
    // The length of the text.
    pub text: usize,
    // The operands or the offset of the call; of compare and locate, where the first key begins and where it ends.
    pub x: u64,
    pub y: u64,
    // The kind of a record.
    pub kind: u8,
    // The fields of a record; of evaluate, how many numbers of rows and of columns and places of the sheet there are; of cell,
    // the row, the column and how many places of the sheet there are; of compare and locate, as of evaluate, or with the number of
    // values in place of the sheet's, and where the second key begins and where it ends; of the move, how long the buffer is and from where on it
    // is shown; of the price, the rates.
    pub fields: [u32; 5],
    // How many bytes 0 stand in front of the data, and how long the data is.
    pub zeros: usize,
    pub data: usize,
}

// The next header. Lengths are cut so that a case fits its space.
pub fn read<R: Read>(reader: &mut R) -> io::Result<Header>
    ensures { IfOk result (λ header. (header.zeros < 131072) × (header.«data» < 131072)) }
{
    let mut bytes = [0u8; 48];
    read_full(reader, &mut bytes)?;
    Ok(from_bytes(&bytes))
}

// The header in its 48 bytes.
fn from_bytes(bytes: &[u8; 48]) -> Header
    ensures { (result.zeros < 131072) × (result.«data» < 131072) }
{
    Header {
        operation: Operation::from(bytes[0]),
        text: (read::four_bytes(bytes, 1) % 65536) as usize,
        x: eight_bytes(bytes, 3),
        y: eight_bytes(bytes, 11),
        kind: bytes[19],
        fields: [
            read::four_bytes(bytes, 20),
            read::four_bytes(bytes, 24),
            read::four_bytes(bytes, 28),
            read::four_bytes(bytes, 32),
            read::four_bytes(bytes, 36),
        ],
        zeros: (read::four_bytes(bytes, 40) % 131072) as usize,
        data: (read::four_bytes(bytes, 44) % 131072) as usize,
    }
}

// The number in the reader's next four bytes.
pub fn next<R: Read>(reader: &mut R) -> io::Result<u32> {
    let mut bytes = [0u8; 4];
    read_full(reader, &mut bytes)?;
    Ok(read::four_bytes(&bytes, 0))
}

// The reader's next numbers.
pub fn fill<R: Read>(reader: &mut R, numbers: &mut [u32]) -> io::Result<()> {
    for number in numbers {
        *number = next(reader)?;
    }
    Ok(())
}

// The data of a case, read behind its zeros.
pub fn data<R: Read>(reader: &mut R, zeros: usize, buffer: &mut [u8]) -> io::Result<()> {
    if zeros <= buffer.len() {
        read_full(reader, &mut buffer[zeros..])?;
    }
    Ok(())
}

// Reads until a buffer is full or the reader ends, and answers how many bytes were put at the buffer's start.
pub fn read_full<R: Read>(reader: &mut R, buffer: &mut [u8]) -> io::Result<usize>
    ensures { ReadsAtMost result buffer.new }
{
    let mut done = 0;
    while done < buffer.len() {
        let count = reader.read(&mut buffer[done..])?;
        if count == 0 {
            break;
        }
        done += count;
    }
    Ok(done)
}

// The bytes from one offset up to another, or none where the data does not have them.
pub fn part(data: &[u8], from: usize, to: usize) -> &[u8] {
    if to <= data.len() {
        if from <= to {
            return &data[from..to];
        }
    }
    &data[0..0]
}

// The number in the eight bytes of a header from a place on. Inner: they are there.
fn eight_bytes(bytes: &[u8; 48], at: usize) -> u64
    requires { at + 8 ≤ 48 }
    ensures { result ≡
        number_in (take 4 (drop at bytes.now)) + 4294967296 * number_in (take 4 (drop (at + 4) bytes.now)) }
{
    let low = read::four_bytes(bytes, at);
    let high = read::four_bytes(bytes, at + 4);
    (low as u64) + 4294967296 * (high as u64)
}
