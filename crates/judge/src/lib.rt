// What a call is held to behind check's own rules (01, 'Order'): the point or the place, the sheet, and two keys together (02, E7).
#![tactic(auto)]

ghost use Rattle.std.specs.Prelude.{◌≡◌, ◌≤◌, ◌<◌, length, MatchOption};
ghost use Rattle.refusal.specs.Outcome.{and_then};
ghost use Rattle.key.specs.Check.{checked_outcome};
ghost use Rattle.judge.specs.Inner.{FewArrays, FewRecords, judged};
ghost use Rattle.judge.specs.Judged.{first_over, point_judged, place_judged, sheet_judged, together, pair_judged};

use field::Fp;
use key::Counts;
use refusal::{Reason, Refusal};

// The numbers of rows and columns that a point must have, where a coordinate takes `width` numbers, and that each is below p. What is
// refused already is handed on. Inner: a coordinate takes at most two.
pub fn point(
    checked: Result<Counts, Refusal>,
    width: usize,
    rows: &[u32],
    columns: &[u32],
) -> Result<Counts, Refusal>
    requires { width ≤ 2 }
    ensures { checked_outcome result ≡ and_then (checked_outcome checked) (point_judged width rows.now columns.now) }
{
    let counts = checked?;
    point_of(counts, width, rows, columns)?;
    Ok(counts)
}

// A point for a key of these counts. Inner: likewise.
fn point_of(counts: Counts, width: usize, rows: &[u32], columns: &[u32]) -> Result<(), Refusal>
    requires { width ≤ 2 }
    ensures { judged counts result ≡ point_judged width rows.now columns.now counts }
{
    let row_count = rows.len();
    let column_count = columns.len();
    if row_count != width * counts.rows as usize {
        return Err(Refusal::new(Reason::RowCountWrong, row_count));
    }
    if column_count != width * counts.columns as usize {
        return Err(Refusal::new(Reason::ColumnCountWrong, column_count));
    }
    if let Some(row) = first_over(rows) {
        return Err(Refusal::new(Reason::CoordinateTooGreat, row));
    }
    if let Some(column) = first_over(columns) {
        return Err(Refusal::new(Reason::CoordinateTooGreat, row_count + column));
    }
    Ok(())
}

// The row and the column of a place in the last array. What is refused already is handed on.
pub fn place(checked: Result<Counts, Refusal>, row: u32, column: u32) -> Result<Counts, Refusal>
    ensures { checked_outcome result ≡ and_then (checked_outcome checked) (place_judged row column) }
{
    let counts = checked?;
    place_of(counts, row, column)?;
    Ok(counts)
}

// A place for a key of these counts.
fn place_of(counts: Counts, row: u32, column: u32) -> Result<(), Refusal>
    ensures { judged counts result ≡ place_judged row column counts }
{
    if rules::outside(counts.rows, row) {
        return Err(Refusal::new(Reason::AddressOutside, 0));
    }
    if rules::outside(counts.columns, column) {
        return Err(Refusal::new(Reason::AddressOutside, 1));
    }
    Ok(())
}

// The number of places that a sheet must have, where an array takes `each` of them. What is refused already is handed on. Inner: an array
// takes at most six, and the key has no more arrays than a key may have.
pub fn sheet(
    checked: Result<Counts, Refusal>,
    each: usize,
    places: usize,
) -> Result<Counts, Refusal>
    requires { (each ≤ 6) × FewArrays checked }
    ensures { checked_outcome result ≡ and_then (checked_outcome checked) (sheet_judged each places) }
{
    let counts = checked?;
    sheet_of(counts, each, places)?;
    Ok(counts)
}

// A sheet of so many places for a key of these counts. Inner: likewise.
fn sheet_of(counts: Counts, each: usize, places: usize) -> Result<(), Refusal>
    requires { (each ≤ 6) × (counts.arrays ≤ 1024) }
    ensures { judged counts result ≡ sheet_judged each places counts }
{
    let needed = each * counts.arrays;
    if places < needed {
        return Err(Refusal::new(Reason::SheetTooShort, needed));
    }
    Ok(())
}

// The index of the first number that is p or more, if there is one. Mostly there is none, which is found without a branch for each
// number (docs/PERFORMANCE.md).
fn first_over(numbers: &[u32]) -> Option<usize>
    ensures { MatchOption result (first_over numbers.now ≡ length numbers.now)
        (λ i. (i < length numbers.now) × (i ≡ first_over numbers.now)) }
{
    if numbers.iter().fold(true, |below, x| below & (*x < Fp::P)) {
        return None;
    }
    numbers.iter().position(|x| Fp::P <= *x)
}

// A point for two keys of these counts together, and a sheet of so many places, where an element of the field takes `width` numbers.
// Inner: it takes at most two, and the counts are those of keys.
pub fn pair(
    one: Counts,
    other: Counts,
    width: usize,
    rows: &[u32],
    columns: &[u32],
    places: usize,
) -> Result<Counts, Refusal>
    requires { (width ≤ 2) × FewRecords one × FewRecords other }
    ensures { checked_outcome result ≡ pair_judged width rows.now columns.now places one other }
{
    let both = together(one, other);
    point_of(both, width, rows, columns)?;
    sheet_of(both, 3 * width, places)?;
    Ok(both)
}

// What two keys of these counts are judged by together. Inner: the counts are those of keys.
fn together(one: Counts, other: Counts) -> Counts
    requires { FewRecords one × FewRecords other }
    ensures { result ≡ together one other }
{
    Counts {
        arrays: one.arrays.max(other.arrays),
        cells: one.cells + other.cells,
        calls: one.calls + other.calls,
        rows: one.rows.max(other.rows),
        columns: one.columns.max(other.columns),
    }
}
