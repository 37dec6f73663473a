// A cell, by the bits of its row and of its column.
ghost use Rattle.std.specs.Prelude.{◌≡◌, ◌≤◌, length, take, drop};
ghost use Rattle.refusal.specs.Outcome.{given};
ghost use Rattle.algebra.specs.Points.{Below};
ghost use Rattle.field.specs.Scalars.{prime};
ghost use Rattle.key.specs.Check.{checked_key};
ghost use Rattle.comparison.specs.Filled.{own_sheet};
ghost use Rattle.comparison.specs.Inner.{Serves};
ghost use Rattle.evaluate.specs.Answer.{values_in, evaluated_outcome};
ghost use Rattle.location.specs.Inner.{Comparable, Readable, zeros, held_at};
ghost use Rattle.location.specs.Locate.{from_bits, last_dense_values, cell_at};
ghost use Rattle.locate.specs.Answer.{cell_answer};

use crate::Cell;
use evaluate::{Counted, Values};
use field::Fp;
use key::Counts;
use refusal::Refusal;

// The cell at a point of bits, of which the first `row_bits` are those of the row. The sheet is as after compare there. Inner: the keys can
// be compared there on the sheet.
pub(crate) fn cell(
    first: &[u8],
    second: &[u8],
    row_bits: usize,
    point: &[u32],
    sheet: &mut [u32],
) -> Cell
    requires { Comparable first.now second.now row_bits point.now (length sheet.old) × Below 2 point.now }
    ensures answer { cell_answer result ≡
        (cell_at first.now second.now (take row_bits point.now) (drop row_bits point.now)
        sheet.old).answer }
    ensures sheet { sheet.new ≡
        (cell_at first.now second.now (take row_bits point.now) (drop row_bits point.now)
        sheet.old).sheet }
{
    at(first, second, &point[..row_bits], &point[row_bits..], sheet)
}

// The same, for the bits of a row and of a column. Inner: the keys can be compared there on the sheet, and so both are accepted.
fn at(first: &[u8], second: &[u8], rows: &[u32], columns: &[u32], sheet: &mut [u32]) -> Cell
    requires { Readable first.now second.now rows.now columns.now (length sheet.old) }
    ensures answer { cell_answer result ≡
        (cell_at first.now second.now rows.now columns.now sheet.old).answer }
    ensures sheet { sheet.new ≡
        (cell_at first.now second.now rows.now columns.now sheet.old).sheet }
{
    let one = key::check(&*first).unwrap();
    let other = key::check(&*second).unwrap();
    let row = number(rows);
    let column = number(columns);
    let in_first = dense(first, one, &*rows, &*columns, sheet);
    let in_second = dense(second, other, rows, columns, sheet);
    Cell {
        row,
        column,
        first: in_first,
        second: in_second,
    }
}

// The number that has these bits, lowest first. Inner: they are bits, and at most 30.
fn number(bits: &[u32]) -> u32
    requires { Below 2 bits.now × (length bits.now ≤ 30) }
    ensures { result ≡ from_bits bits.now }
{
    let mut number = 0u32;
    for bit in bits.iter().rev() {
        number = *bit + 2 * number;
    }
    number
}

// A key's dense A, B and C at the bits of a row and of a column, which are zero beyond its shape. The sheet is as after evaluate at those
// bits that the key uses. Inner: the key is accepted with these counts, and it can be evaluated there on the sheet.
fn dense(key: &[u8], own: Counts, rows: &[u32], columns: &[u32], sheet: &mut [u32]) -> Values<Fp>
    requires key_value { checked_key key.now ≡ given own }
    requires serves { Serves prime own rows.now columns.now (length sheet.old) }
    requires below { Below 2 rows.now × Below 2 columns.now }
    ensures values { values_in result ≡ last_dense_values key.now (from_bits rows.now) (from_bits columns.now) }
    ensures sheet { sheet.new ≡
        own_sheet prime key.now own rows.now columns.now sheet.old }
{
    let row = number(rows);
    let column = number(columns);
    let row_bits = own.rows as usize;
    let column_bits = own.columns as usize;
    let evaluated = evaluate::evaluate(key, &rows[..row_bits], &columns[..column_bits], sheet);
    held(own, row, column, evaluated)
}

// What a key of these counts holds at a row and a column, by what evaluate answers at their bits: zeros beyond its shape.
fn held(own: Counts, row: u32, column: u32, evaluated: Result<Counted<Fp>, Refusal>) -> Values<Fp>
    ensures { values_in result ≡ held_at own row column (evaluated_outcome evaluated) }
{
    if rules::outside(own.rows, row) {
        return zeros();
    }
    if rules::outside(own.columns, column) {
        return zeros();
    }
    match evaluated {
        Ok(counted) => counted.values,
        Err(_) => zeros(),
    }
}

// Zero for A, B and C.
fn zeros() -> Values<Fp>
    ensures { values_in result ≡ zeros }
{
    Values {
        a: Fp::zero(),
        b: Fp::zero(),
        c: Fp::zero(),
    }
}
