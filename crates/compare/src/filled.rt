// One of two keys at a point that may have more coordinates than the key has bits (02, E7).
ghost use Rattle.std.specs.Prelude.{◌≡◌, ◌+◌, ◌-◌, ◌≤◌, length};
ghost use Rattle.weights.specs.Side.{prepared, Tabled, ForSide};
ghost use Rattle.evaluation.specs.Inner.{written_by};
ghost use Rattle.evaluate.specs.AnswerOver.{values_of};
ghost use Rattle.comparison.specs.Filled.{multiplied, filled_values};
ghost use Rattle.comparison.specs.Inner.{Evaluable, factors_at, unused_by};

use evaluate::pass::Tables;
use evaluate::{Counted, Values, pass};
use indexed::IndexedKey;
use key::Counts;
use records::Shape;
use scalar::Scalar;
use weights::{Product, side};

// The last array's values at the coordinates that the key uses, multiplied by eq([0]) of those that it doesn't use, and how many factors
// were taken for them. The sheet ends with every array's values, which are not multiplied. Inner: the key can be evaluated at the point on
// the sheet, and the tables are those of the point's two sides.
pub(crate) fn triple<S: Scalar>(
    key: &IndexedKey<'_>,
    own: Counts,
    rows: &[u32],
    columns: &[u32],
    rowwise: &[S],
    columnwise: &[S],
    sheet: &mut [u32],
) -> Counted<S>
    requires evaluable { Evaluable S.elements.scalars key.now.bytes.now own rows.now columns.now (length sheet.old) }
    requires tabled { Tabled S.elements (S.elements.scalars.elements rows.now) rowwise.now ×
        Tabled S.elements (S.elements.scalars.elements columns.now) columnwise.now }
    ensures values { values_of S.elements result.values ≡ filled_values S.elements.scalars key.now.bytes.now own rows.now columns.now }
    ensures factors { result.factors ≡ factors_at S.elements.scalars key.now.bytes.now own rows.now columns.now }
    ensures sheet { sheet.new ≡
        written_by S.elements.scalars key.now.bytes.now rows.now columns.now own.arrays sheet.old }
{
    let most = Shape {
        rows: (rows.len() / S::WIDTH) as u8,
        columns: (columns.len() / S::WIDTH) as u8,
    };
    let tables = Tables {
        most,
        rowwise,
        columnwise,
    };
    let factors = pass::over(key, &tables, sheet);
    let values = pass::last(sheet, own.arrays);
    let counted = weighed(values, own, &tables);
    Counted {
        values: counted.values,
        factors: factors + counted.factors,
    }
}

// Values multiplied by eq([0]) of the coordinates that a key of these counts doesn't use, and how many they are. Where it uses all, the
// weight is 1, and nothing is multiplied (docs/PERFORMANCE.md). Inner: the tables are those of two sides of as many coordinates as `most`
// has bits, and the key has no more.
fn weighed<S: Scalar>(values: Values<S>, own: Counts, tables: &Tables<'_, S>) -> Counted<S>
    requires rows_le_rows { (own.rows ≤ tables.now.most.rows) × ForSide S.elements tables.now.most.rows tables.now.rowwise.now }
    requires columns_le_columns { (own.columns ≤ tables.now.most.columns) ×
        ForSide S.elements tables.now.most.columns tables.now.columnwise.now }
    ensures values { values_of S.elements result.values ≡
        multiplied S.elements.scalars (values_of S.elements values)
        (unused_by S.elements own tables.now.most tables.now.rowwise.now tables.now.columnwise.now) }
    ensures factors { result.factors ≡ (tables.now.most.rows - own.rows) + (tables.now.most.columns - own.columns) }
{
    let left = (tables.most.rows - own.rows) + (tables.most.columns - own.columns);
    if left == 0 {
        return Counted { values, factors: 0 };
    }
    let row_weight = unused(own.rows, tables.most.rows, tables.rowwise);
    let column_weight = unused(own.columns, tables.most.columns, tables.columnwise);
    let weight = row_weight.value.mul(column_weight.value);
    Counted {
        values: times(values, weight),
        factors: row_weight.factors + column_weight.factors,
    }
}

// eq([0]) of the coordinates of one side that a key of so many bits there doesn't use, and how many they are: as a call at position 0 of
// the larger array weighs them. Inner: the table is the side's, which has as many coordinates as `most`, and the key no more bits.
fn unused<S: Scalar>(own: u8, most: u8, table: &[S]) -> Product<S>
    requires { (own ≤ most) × ForSide S.elements most table.now }
    ensures product { S.elements.element result.value ≡ (prepared S.elements table.now).factor most own 0 }
    ensures factors { result.factors ≡ most - own }
{
    let over = side::reach(most, most, table);
    let weight = side::factor(0, table, own as usize, over);
    Product {
        value: S::reduced(weight.product),
        factors: weight.factors,
    }
}

// A, B and C, each multiplied by an element.
fn times<S: Scalar>(values: Values<S>, weight: S) -> Values<S>
    ensures { values_of S.elements result ≡ multiplied S.elements.scalars (values_of S.elements values) (S.elements.element weight) }
{
    Values {
        a: values.a.mul(weight),
        b: values.b.mul(weight),
        c: values.c.mul(weight),
    }
}
