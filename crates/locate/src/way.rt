// The way from a point at which two keys differ to a cell in which they do.
ghost use Rattle.std.specs.Prelude.{◌++◌, ◌≡◌, ◌+◌, ◌≤◌, length, take, drop};
ghost use Rattle.field.specs.Scalars.{prime};
ghost use Rattle.comparison.specs.Compare.{compared};
ghost use Rattle.location.specs.Inner.{Comparable, WrittenOver};
ghost use Rattle.location.specs.Locate.{bit_for, settled, same_at};

use compare::Likeness;

// Sets each coordinate of a point to a bit, from the first up: to 0 where the keys differ with that, else to 1. The first `row_bits` of
// them are the rows'. Inner: the keys can be compared at the point on the sheet.
pub(crate) fn settle(
    first: &[u8],
    second: &[u8],
    row_bits: usize,
    point: &mut [u32],
    sheet: &mut [u32],
)
    requires { Comparable first.now second.now row_bits point.old (length sheet.old) }
    ensures point { point.new ≡
        settled (same_at first.now second.now row_bits sheet.old) point.old }
    ensures sheet { WrittenOver first.now second.now sheet.old sheet.new }
{
    // by their indices, since the whole point is lent in each turn
    let count = point.len();
    for i in 0..count {
        point[i] = 0;
        let bit = bit_for(&*first, &*second, row_bits, &*point, sheet);
        point[i] = bit;
    }
}

// What a coordinate that is 0 at this point is to be: 1 where the keys are the same there, else 0. The sheet is as after compare. Inner: the
// point has so many rows' coordinates.
fn bit_for(first: &[u8], second: &[u8], row_bits: usize, point: &[u32], sheet: &mut [u32]) -> u32
    requires { row_bits ≤ length point.now }
    ensures bit { result ≡ bit_for (same_at first.now second.now row_bits sheet.old point.now) }
    ensures sheet { sheet.new ≡
        (compared prime first.now second.now (take row_bits point.now)
        (drop row_bits point.now) sheet.old).sheet }
{
    match compare::compare(first, second, &point[..row_bits], &point[row_bits..], sheet) {
        Ok(compared) => match compared.likeness {
            Likeness::Same => 1,
            Likeness::Different => 0,
        },
        Err(_) => 0,
    }
}

// Writes the coordinates of the rows and behind them those of the columns to the start of some places. Inner: there are as many.
pub(crate) fn join(rows: &[u32], columns: &[u32], point: &mut [u32])
    requires { length rows.now + length columns.now ≤ length point.old }
    ensures { take (length rows.now + length columns.now) point.new ≡
        rows.now ++ columns.now }
{
    let behind = rows.len();
    point[..behind].copy_from_slice(rows);
    point[behind..behind + columns.len()].copy_from_slice(columns);
}
