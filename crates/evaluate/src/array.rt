// One array of an accepted key: its values, from those of the arrays before it, and how many factors they take.
ghost use Rattle.std.specs.Prelude.{◌≡◌, true, false, List, ℕ, ◌<◌, length};
ghost use Rattle.arrays.specs.Arrays.{array_at};
ghost use Rattle.key.specs.KeyArrays.{key_arrays, key_scaled};
ghost use Rattle.key.specs.Indexed.{Sparse, Recursive};
ghost use Rattle.evaluation.specs.Inner.{Sides, ReachedIn, Filled, next_by};
ghost use Rattle.evaluate.specs.AnswerOver.{counted_of};
ghost use Rattle.evaluate.specs.Inner.{reduced_in};

use crate::entry::Sums;
use crate::pass::Tables;
use crate::{Counted, Values, entry};
use indexed::IndexedKey;
use records::read;
use scalar::Scalar;
use weights::side;
use weights::side::Reached;

// The values and the factors of array i: the sums of what its entries add. Inner: there is such an array, the tables are ones for the key,
// and the values of the arrays before stand on the sheet.
pub(crate) fn values<S: Scalar>(
    key: &IndexedKey<'_>,
    i: usize,
    tables: &Tables<'_, S>,
    sheet: &[u32],
) -> Counted<S>
    requires i_in_bounds { i < length (key_arrays key.now.bytes.now) }
    requires sides { Sides S.elements key.now.bytes.now tables.now.most tables.now.rowwise.now tables.now.columnwise.now }
    requires filled { Filled S.elements.scalars i sheet.now }
    ensures { counted_of S.elements result ≡
        next_by S.elements key.now.bytes.now tables.now.rowwise.now tables.now.columnwise.now sheet.now i }
{
    let own = key.shape(i);
    let reached = Reached {
        rows: side::reach(own.rows, tables.most.rows, tables.rowwise),
        columns: side::reach(own.columns, tables.most.columns, tables.columnwise),
    };
    let sums = total(key, i, reached, tables, sheet);
    Counted {
        values: Values {
            a: S::total(sums.a),
            b: S::total(sums.b),
            c: S::total(sums.c),
        },
        factors: sums.factors,
    }
}

// The same, not reduced yet. Inner: as for `values`, and these are the array's bits, over which weights may be taken so far.
fn total<S: Scalar>(
    key: &IndexedKey<'_>,
    i: usize,
    reached: Reached,
    tables: &Tables<'_, S>,
    sheet: &[u32],
) -> Sums<S::Sum>
    requires i_in_bounds { i < length (key_arrays key.now.bytes.now) }
    requires reached_in { ReachedIn S.elements (key_arrays key.now.bytes.now) i reached tables.now.rowwise.now tables.now.columnwise.now }
    requires filled { Filled S.elements.scalars i sheet.now }
    ensures { reduced_in S.elements S.sum result ≡
        next_by S.elements key.now.bytes.now tables.now.rowwise.now tables.now.columnwise.now sheet.now i }
{
    if key.sparse(i) {
        cells(key, i, reached, tables)
    } else if key.scaled() {
        scaled_calls(key, i, reached, tables, sheet)
    } else {
        calls(key, i, reached, tables, sheet)
    }
}

// The same of a sparse array, whatever stands on a sheet: its cells, added up one by one. Inner: as for `total`.
fn cells<S: Scalar>(
    key: &IndexedKey<'_>,
    i: usize,
    reached: Reached,
    tables: &Tables<'_, S>,
) -> Sums<S::Sum>
    requires i_in_bounds { i < length (key_arrays key.now.bytes.now) }
    requires sparse { Sparse (array_at (key_arrays key.now.bytes.now) i).entries }
    requires reached_in { ReachedIn S.elements (key_arrays key.now.bytes.now) i reached tables.now.rowwise.now tables.now.columnwise.now }
    ensures { (sheet : List ℕ) → reduced_in S.elements S.sum result ≡
        next_by S.elements key.now.bytes.now tables.now.rowwise.now tables.now.columnwise.now sheet i }
{
    let mut sums = entry::nothing::<S>();
    for bytes in key.entries(i).chunks_exact(21) {
        let c = read::cell(bytes, 1);
        sums = entry::cell(sums, c, reached, tables);
    }
    sums
}

// The same of a recursive array in a key of edition 1: its calls, added up one by one. Inner: as for `total`.
fn calls<S: Scalar>(
    key: &IndexedKey<'_>,
    i: usize,
    reached: Reached,
    tables: &Tables<'_, S>,
    sheet: &[u32],
) -> Sums<S::Sum>
    requires i_in_bounds { i < length (key_arrays key.now.bytes.now) }
    requires edition { key_scaled key.now.bytes.now ≡ false }
    requires recursive { Recursive (array_at (key_arrays key.now.bytes.now) i).entries }
    requires reached_in { ReachedIn S.elements (key_arrays key.now.bytes.now) i reached tables.now.rowwise.now tables.now.columnwise.now }
    requires filled { Filled S.elements.scalars i sheet.now }
    ensures { reduced_in S.elements S.sum result ≡
        next_by S.elements key.now.bytes.now tables.now.rowwise.now tables.now.columnwise.now sheet.now i }
{
    let mut sums = entry::nothing::<S>();
    for bytes in key.entries(i).chunks_exact(11) {
        let c = read::call(bytes, 1);
        sums = entry::call(sums, c, key, reached, tables, sheet);
    }
    sums
}

// The same in a key of edition 2. Inner: as for `total`.
fn scaled_calls<S: Scalar>(
    key: &IndexedKey<'_>,
    i: usize,
    reached: Reached,
    tables: &Tables<'_, S>,
    sheet: &[u32],
) -> Sums<S::Sum>
    requires i_in_bounds { i < length (key_arrays key.now.bytes.now) }
    requires edition { key_scaled key.now.bytes.now ≡ true }
    requires recursive { Recursive (array_at (key_arrays key.now.bytes.now) i).entries }
    requires reached_in { ReachedIn S.elements (key_arrays key.now.bytes.now) i reached tables.now.rowwise.now tables.now.columnwise.now }
    requires filled { Filled S.elements.scalars i sheet.now }
    ensures { reduced_in S.elements S.sum result ≡
        next_by S.elements key.now.bytes.now tables.now.rowwise.now tables.now.columnwise.now sheet.now i }
{
    let mut sums = entry::nothing::<S>();
    for bytes in key.entries(i).chunks_exact(15) {
        let c = read::scaled_call(bytes, 1);
        sums = entry::scaled_call(sums, c, key, reached, tables, sheet);
    }
    sums
}
