// What keysheet prints.
#![tactic(auto)]

mod input;
mod lines;
mod text;

ghost use Rattle.std.specs.Prelude.{◌≡◌, ◌++◌, length, drop};
ghost use Rattle.refusal.specs.Number.{number_of};
ghost use Rattle.report.specs.Inner.{HasRoom, Appended};
ghost use Rattle.report.specs.Printed.{evaluated_lines, refusal_line, text_of, printed};
ghost use Rattle.io.specs.Counts.{IsPrefixLen as Within};

use refusal::{Reason, Refusal};
use text::Text;

// Writes what is printed for an input to the start of the text, and answers its length; the rest of the text stays. 168 bytes are
// enough for the line of the key and any refusal, and 84 for the line of each of 1,024 arrays. The clause `within` follows from
// the others, and is there for lending the part that was written.
pub fn write(input: &[u8], text: &mut [u8; 86184]) -> usize
    ensures length { result ≡ length (printed input.now) }
    ensures text { text.new ≡
        printed input.now ++ drop (length (printed input.now)) text.old }
    ensures within { Within result text.new }
{
    let mut written = Text { bytes: text, at: 0 };
    print(input, &mut written);
    written.at
}

// Writes what is printed for an input. Inner: the text has places for the lines of 1,024 arrays.
fn print(input: &[u8], text: &mut Text)
    requires { HasRoom text.old 86184 }
    ensures { Appended text.old (printed input.now) text.new }
{
    let length = input.len();
    if 65536 < length {
        return refused(text, Reason::InputTooLong, 65536);
    }
    if length < 2 {
        return refused(text, Reason::InputTooShort, length);
    }
    let row_count = records::read::byte(input, 0) as usize;
    let column_count = records::read::byte(input, 1) as usize;
    let first_column = 2 + 4 * row_count;
    let key_at = first_column + 4 * column_count;
    if length < key_at {
        return refused(text, Reason::InputTooShort, length);
    }
    let mut rows = [0u32; 255];
    let mut columns = [0u32; 255];
    input::numbers(input, 2, row_count, &mut rows);
    input::numbers(input, first_column, column_count, &mut columns);
    evaluated(
        text,
        &input[key_at..],
        &rows[..row_count],
        &columns[..column_count],
    )
}

// Writes the line of the refusal for a reason at a place. Inner: there are 168 places.
fn refused(text: &mut Text, reason: Reason, place: usize)
    requires { HasRoom text.old 168 }
    ensures { Appended text.old (refusal_line (number_of reason) place) text.new }
{
    lines::refusal(text, Refusal::new(reason, place))
}

// Writes the lines for a key at a point, or evaluate's refusal. Inner: there are places for the lines of 1,024 arrays.
fn evaluated(text: &mut Text, key: &[u8], rows: &[u32], columns: &[u32])
    requires { HasRoom text.old 86184 }
    ensures { Appended text.old (text_of (evaluated_lines key.now rows.now columns.now)) text.new }
{
    let counts = match key::check(key) {
        Ok(counts) => counts,
        Err(refusal) => return lines::refusal(text, refusal),
    };
    let mut sheet = [0u32; 3072];
    if let Err(refusal) = evaluate::evaluate(key, rows, columns, &mut sheet) {
        return lines::refusal(text, refusal);
    }
    lines::key(text, key.len(), counts);
    lines::arrays(text, &sheet, counts.arrays)
}
