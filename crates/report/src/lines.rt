// The lines that are printed.
ghost use Rattle.std.specs.Prelude.{◌+◌, ◌*◌, ◌≤◌, length};
ghost use Rattle.refusal.specs.Number.{number_of};
ghost use Rattle.field.specs.Scalars.{prime};
ghost use Rattle.evaluation.specs.Inner.{sheet_values};
ghost use Rattle.report.specs.Inner.{HasRoom, Appended};
ghost use Rattle.report.specs.Printed.{key_line, array_line, array_lines, refusal_line};

use crate::text::Text;
use key::Counts;
use refusal::Refusal;

// Writes the line of a refusal. Inner: there are 168 places.
pub(crate) fn refusal(text: &mut Text, refusal: Refusal)
    requires { HasRoom text.old 168 }
    ensures { Appended text.old (refusal_line (number_of refusal.reason) refusal.place) text.new }
{
    let reason = refusal.reason;
    text.labelled(b"refused ", reason.number() as u64);
    text.labelled(b" at ", refusal.place as u64);
    text.word(b"\n");
}

// Writes the line of a key of so many bytes and these counts. Inner: there are 168 places.
pub(crate) fn key(text: &mut Text, size: usize, counts: Counts)
    requires { HasRoom text.old 168 }
    ensures line { Appended text.old (key_line size counts) text.new }
    ensures few { length (key_line size counts) ≤ 168 }
{
    text.labelled(b"key ", size as u64);
    text.labelled(b" bytes arrays ", counts.arrays as u64);
    text.labelled(b" cells ", counts.cells as u64);
    text.labelled(b" calls ", counts.calls as u64);
    text.labelled(b" rows ", counts.rows as u64);
    text.labelled(b" columns ", counts.columns as u64);
    text.word(b"\n");
}

// Writes the lines of so many arrays. Inner: their values stand on the sheet, and there are 84 places for each.
pub(crate) fn arrays(text: &mut Text, sheet: &[u32], count: usize)
    requires count_in_bounds { 3 * count ≤ length sheet.now }
    requires room { HasRoom text.old (84 * count) }
    ensures { Appended text.old (array_lines (sheet_values prime sheet.now) count) text.new }
{
    for i in 0..count {
        array(text, sheet, i);
    }
}

// Writes the line of array i. Inner: its values stand on the sheet, and there are 84 places.
fn array(text: &mut Text, sheet: &[u32], i: usize)
    requires i_in_bounds { 3 * i + 3 ≤ length sheet.now }
    requires room { HasRoom text.old 84 }
    ensures line { Appended text.old (array_line i (sheet_values prime sheet.now i)) text.new }
    ensures few { length (array_line i (sheet_values prime sheet.now i)) ≤ 84 }
{
    let place = 3 * i;
    text.labelled(b"", i as u64);
    text.labelled(b" ", sheet[place] as u64);
    text.labelled(b" ", sheet[place + 1] as u64);
    text.labelled(b" ", sheet[place + 2] as u64);
    text.word(b"\n");
}
