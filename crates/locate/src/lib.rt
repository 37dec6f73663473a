// A cell in which two keys differ, from a point at which they do.
#![tactic(auto)]

mod place;
mod way;

ghost use Rattle.std.specs.Prelude.{◌≡◌, ◌≤◌, length};
ghost use Rattle.field.specs.Scalars.{prime};
ghost use Rattle.comparison.specs.Compare.{different, compared};
ghost use Rattle.location.specs.Cell.{Certain};
ghost use Rattle.location.specs.Locate.{cell_found, located};
ghost use Rattle.locate.specs.Answer.{cell_answer, located_answer};

use compare::Likeness;
use evaluate::Values;
use field::Fp;
use refusal::PairRefusal;

// A cell in which two keys differ.
#[derive(Clone, Copy)]
pub struct Cell {
    pub row: u32,
    pub column: u32,
    // The first key's dense A, B and C there, which are zero beyond its own shape.
    pub first: Values<Fp>,
    // The second key's likewise.
    pub second: Values<Fp>,
}

// A cell in which two keys differ, where compare says at the point that they do; none where it says "same", and the refusal where it
// refuses. The way to
// the cell is that of `settled`, which asks compare once for each coordinate; then each key is evaluated at the cell. The sheet is then as
// after compare at the point whose coordinates are the bits of the row and of the column, or as compare leaves it where no cell is answered.
// `certain` says that the keys' dense matrices differ in the answered cell, and so do the answered values.
pub fn locate(
    first: &[u8],
    second: &[u8],
    rows: &[u32],
    columns: &[u32],
    sheet: &mut [u32],
) -> Result<Option<Cell>, PairRefusal>
    ensures answer { located_answer result ≡
        (located first.now second.now rows.now columns.now sheet.old).answer }
    ensures sheet { sheet.new ≡
        (located first.now second.now rows.now columns.now sheet.old).sheet }
    ensures certain { Certain first.now second.now (located_answer result) }
{
    let compared = compare::compare(&*first, &*second, &*rows, &*columns, sheet)?;
    match compared.likeness {
        Likeness::Same => Ok(None),
        Likeness::Different => {
            let mut point = [0u32; 60];
            Ok(Some(differing(first, second, rows, columns, &mut point, sheet)))
        }
    }
}

// The cell to which the way from the point leads, with places for the coordinates. Inner: the keys differ at the point, and there are places
// for as many coordinates as any two keys have.
fn differing(
    first: &[u8],
    second: &[u8],
    rows: &[u32],
    columns: &[u32],
    point: &mut [u32],
    sheet: &mut [u32],
) -> Cell
    requires sheet_value { (compared prime first.now second.now rows.now columns.now sheet.old).answer ≡ different }
    requires in_bounds { 60 ≤ length point.old }
    ensures answer { cell_answer result ≡
        (cell_found first.now second.now rows.now columns.now sheet.old).answer }
    ensures sheet { sheet.new ≡
        (cell_found first.now second.now rows.now columns.now sheet.old).sheet }
{
    let row_bits = rows.len();
    let bits = row_bits + columns.len();
    way::join(rows, columns, point);
    way::settle(&*first, &*second, row_bits, &mut point[..bits], sheet);
    place::cell(first, second, row_bits, &point[..bits], sheet)
}
