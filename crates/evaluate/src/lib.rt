// An accepted key evaluated at a point (01, 'Dense form and evaluation'), over the field of p or that of p² (E2), and single cells of its
// last array.
#![tactic(auto)]

mod array;
mod entry;
pub mod pass;
mod point;
mod sheet;

ghost use Rattle.std.specs.Prelude.{◌≡◌, min, ◌/◌, ◌≤◌, length};
ghost use Rattle.field.specs.Scalars.{prime};
ghost use Rattle.key.specs.Factors.{FactorsLimited};
ghost use Rattle.evaluation.specs.Cell.{celled};
ghost use Rattle.evaluation.specs.Evaluate.{evaluated};
ghost use Rattle.evaluate.specs.Answer.{evaluated_outcome};
ghost use Rattle.evaluate.specs.AnswerOver.{answer_outcome};

use field::Fp;
use indexed::IndexedKey;
use refusal::Refusal;
use scalar::Scalar;

// The values of A, B and C.
#[derive(Clone, Copy, PartialEq, Eq)]
pub struct Values<S> {
    pub a: S,
    pub b: S,
    pub c: S,
}

// The values of an array, and how many factors were taken: for its entries or, where a call answers the last array's, for all arrays
// (02, E4).
#[derive(Clone, Copy)]
pub struct Counted<S> {
    pub values: Values<S>,
    pub factors: usize,
}

// The last array's A, B and C at a point: the multilinear extensions of its dense matrices. The sheet then holds every array's
// three numbers, those of array i from place 3i on; places behind them stay, and a refused call leaves the whole sheet. By `limit` the
// factors that are answered are at most (n + n')·(cells + calls).
pub fn evaluate(
    key: &[u8],
    rows: &[u32],
    columns: &[u32],
    sheet: &mut [u32],
) -> Result<Counted<Fp>, Refusal>
    ensures answer { evaluated_outcome result ≡
        (evaluated prime key.now rows.now columns.now sheet.old).answer }
    ensures sheet { sheet.new ≡
        (evaluated prime key.now rows.now columns.now sheet.old).sheet }
    ensures limit { FactorsLimited key.now }
{
    over(key, rows, columns, sheet)
}

// The same over any field.
pub fn over<S: Scalar>(
    key: &[u8],
    rows: &[u32],
    columns: &[u32],
    sheet: &mut [u32],
) -> Result<Counted<S>, Refusal>
    ensures answer { answer_outcome S.elements result ≡
        (evaluated S.elements.scalars key.now rows.now columns.now sheet.old).answer }
    ensures sheet { sheet.new ≡
        (evaluated S.elements.scalars key.now rows.now columns.now sheet.old).sheet }
    ensures limit { FactorsLimited key.now }
{
    if key.len() < key::SHORT {
        let mut short = [0u16; key::SHORT_ARRAYS];
        return at_point(key, rows, columns, sheet, &mut short);
    }
    let mut starts = [0u16; key::MOST_ARRAYS];
    at_point(key, rows, columns, sheet, &mut starts)
}

// The same, with a table for the offsets of the key's arrays. Inner: it has a place for each array that a key of this length may have.
//
// What is lent is borrowed anew where it is handed on: so this function takes it in registers, which counts on small keys
// (docs/PERFORMANCE.md).
fn at_point<S: Scalar>(
    key: &[u8],
    rows: &[u32],
    columns: &[u32],
    sheet: &mut [u32],
    starts: &mut [u16],
) -> Result<Counted<S>, Refusal>
    requires { min 1024 (length key.now / 3) ≤ length starts.old }
    ensures answer { answer_outcome S.elements result ≡
        (evaluated S.elements.scalars key.now rows.now columns.now sheet.old).answer }
    ensures sheet { sheet.new ≡
        (evaluated S.elements.scalars key.now rows.now columns.now sheet.old).sheet }
{
    let checked = key::index(&*key, starts);
    let pointed = judge::point(checked, S::WIDTH, &*rows, &*columns);
    let counts = judge::sheet(pointed, 3 * S::WIDTH, sheet.len())?;
    let indexed = IndexedKey::new(&*key, starts, counts.arrays);
    let factors = pass::run::<S>(&indexed, &*rows, &*columns, sheet);
    Ok(Counted {
        values: pass::last(sheet, counts.arrays),
        factors,
    })
}

// The last array's dense A, B and C at a row and a column. The sheet is then as after evaluate at the point whose coordinates
// are the bits of the row and of the column, and a refused call leaves it. The factors are those of that evaluation.
pub fn cell(key: &[u8], row: u32, column: u32, sheet: &mut [u32]) -> Result<Counted<Fp>, Refusal>
    ensures answer { evaluated_outcome result ≡ (celled key.now row column sheet.old).answer }
    ensures sheet { sheet.new ≡ (celled key.now row column sheet.old).sheet }
    ensures limit { FactorsLimited key.now }
{
    if key.len() < key::SHORT {
        let mut short = [0u16; key::SHORT_ARRAYS];
        return at_place(key, row, column, sheet, &mut short);
    }
    let mut starts = [0u16; key::MOST_ARRAYS];
    at_place(key, row, column, sheet, &mut starts)
}

// The same, with a table for the offsets of the key's arrays. Inner: as for `at_point`.
fn at_place(
    key: &[u8],
    row: u32,
    column: u32,
    sheet: &mut [u32],
    starts: &mut [u16],
) -> Result<Counted<Fp>, Refusal>
    requires { min 1024 (length key.now / 3) ≤ length starts.old }
    ensures answer { evaluated_outcome result ≡ (celled key.now row column sheet.old).answer }
    ensures sheet { sheet.new ≡ (celled key.now row column sheet.old).sheet }
{
    let checked = key::index(&*key, starts);
    let placed = judge::place(checked, row, column);
    let counts = judge::sheet(placed, 3, sheet.len())?;
    let mut rows = [0u32; 30];
    let mut columns = [0u32; 30];
    point::bits(row, &mut rows);
    point::bits(column, &mut columns);
    let indexed = IndexedKey::new(&*key, starts, counts.arrays);
    let factors = pass::run::<Fp>(&indexed, &rows, &columns, sheet);
    Ok(Counted {
        values: pass::last(sheet, counts.arrays),
        factors,
    })
}
