// One pass over the arrays of an accepted key (004, Lemma 2).
ghost use Rattle.std.specs.Prelude.{◌≡◌, ◌*◌, ◌-◌, ◌<◌, ◌≤◌, length};
ghost use Rattle.weights.specs.Side.{Ready};
ghost use Rattle.key.specs.Factors.{key_factors};
ghost use Rattle.key.specs.KeyArrays.{key_arrays};
ghost use Rattle.judge.specs.Inner.{AtPoint};
ghost use Rattle.evaluation.specs.Inner.{Sides, Filled, sheet_values, passed_by, written_by};
ghost use Rattle.evaluation.specs.Sheet.{places_of};
ghost use Rattle.evaluate.specs.AnswerOver.{values_of};

use crate::{Values, array, sheet};
use indexed::{IndexedKey, work};
use records::Shape;
use scalar::Scalar;
use weights::table;

// The two sides of a point as tables, with as many coordinates as `most` has bits.
#[derive(Clone, Copy)]
pub struct Tables<'a, S> {
    pub most: Shape,
    pub rowwise: &'a [S],
    pub columnwise: &'a [S],
}

// Writes every array's values on the sheet, the extensions of their dense matrices, and answers how many factors were taken. The sides of
// the point are prepared with weights of limbs where these are estimated to save more than they cost (`work`). Inner: the point is one for
// the key, and the sheet has places for all.
//
// What is lent is borrowed anew where it is handed on, as in `at_point`.
pub fn run<S: Scalar>(
    key: &IndexedKey<'_>,
    rows: &[u32],
    columns: &[u32],
    sheet: &mut [u32],
) -> usize
    requires at_point { AtPoint S.elements.scalars key.now.bytes.now rows.now columns.now }
    requires room { places_of S.elements.scalars * length (key_arrays key.now.bytes.now) ≤ length sheet.old }
    ensures factors { result ≡ key_factors key.now.bytes.now }
    ensures sheet { sheet.new ≡
        written_by S.elements.scalars key.now.bytes.now rows.now columns.now (length (key_arrays key.now.bytes.now)) sheet.old }
{
    let saved = work::saved(key);
    if work::limbs_pay(saved, rows.len() / S::WIDTH + columns.len() / S::WIDTH) {
        let mut rowwise = [S::zero(); table::LIMB_PLACES];
        let mut columnwise = [S::zero(); table::LIMB_PLACES];
        return by_sides(key, &*rows, &*columns, &mut rowwise, &mut columnwise, sheet);
    }
    let mut rowwise = [S::zero(); table::PLACES];
    let mut columnwise = [S::zero(); table::PLACES];
    by_sides(key, &*rows, &*columns, &mut rowwise, &mut columnwise, sheet)
}

// The same, with tables to be filled for the two sides. Inner: they have places for them.
fn by_sides<S: Scalar>(
    key: &IndexedKey<'_>,
    rows: &[u32],
    columns: &[u32],
    rowwise: &mut [S],
    columnwise: &mut [S],
    sheet: &mut [u32],
) -> usize
    requires at_point { AtPoint S.elements.scalars key.now.bytes.now rows.now columns.now }
    requires room { places_of S.elements.scalars * length (key_arrays key.now.bytes.now) ≤ length sheet.old }
    requires ready { Ready rowwise.old × Ready columnwise.old }
    ensures factors { result ≡ key_factors key.now.bytes.now }
    ensures sheet { sheet.new ≡
        written_by S.elements.scalars key.now.bytes.now rows.now columns.now (length (key_arrays key.now.bytes.now)) sheet.old }
{
    let most = Shape {
        rows: (rows.len() / S::WIDTH) as u8,
        columns: (columns.len() / S::WIDTH) as u8,
    };
    table::prepare(rows, rowwise);
    table::prepare(columns, columnwise);
    let tables = Tables {
        most,
        rowwise: &*rowwise,
        columnwise: &*columnwise,
    };
    over(key, &tables, sheet)
}

// Writes every array's values on the sheet, each from those of the arrays before it, by the prepared sides of a point, and answers how many
// factors were taken. Inner: the tables are ones for the key, and the sheet has places for all.
pub fn over<S: Scalar>(key: &IndexedKey<'_>, tables: &Tables<'_, S>, sheet: &mut [u32]) -> usize
    requires sides { Sides S.elements key.now.bytes.now tables.now.most tables.now.rowwise.now tables.now.columnwise.now }
    requires room { places_of S.elements.scalars * length (key_arrays key.now.bytes.now) ≤ length sheet.old }
    ensures factors { result ≡ key_factors key.now.bytes.now }
    ensures sheet { sheet.new ≡
        passed_by S.elements key.now.bytes.now tables.now.rowwise.now tables.now.columnwise.now
        (length (key_arrays key.now.bytes.now)) sheet.old }
{
    let mut factors = 0;
    for i in 0..key.arrays() {
        let counted = array::values(key, i, tables, sheet);
        sheet::put(sheet, i, counted.values);
        factors = factors + counted.factors;
    }
    factors
}

// The last array's values, where those of so many arrays stand on the sheet. Inner: there is a last array, and all are below p.
pub fn last<S: Scalar>(sheet: &[u32], arrays: usize) -> Values<S>
    requires { (0 < arrays) × Filled S.elements.scalars arrays sheet.now }
    ensures { values_of S.elements result ≡ sheet_values S.elements.scalars sheet.now (arrays - 1) }
{
    sheet::values(sheet, arrays - 1)
}
