// The passes over two keys at one point, whose sides are prepared once for both.
ghost use Rattle.std.specs.Prelude.{◌≡◌, ◌+◌, ◌≤◌, length};
ghost use Rattle.weights.specs.Side.{Ready};
ghost use Rattle.evaluate.specs.AnswerOver.{values_of};
ghost use Rattle.comparison.specs.Compare.{likeness};
ghost use Rattle.comparison.specs.Inner.{Evaluable, factors_at, likeness_at, both_written};
ghost use Rattle.compare.specs.Answer.{likeness_answer};

use crate::{Compared, Likeness, filled};
use evaluate::Values;
use indexed::{IndexedKey, work};
use key::Counts;
use scalar::Scalar;
use weights::table;

// Whether the two keys' three values are equal at a point, and how many factors were taken for both. The sheet ends with those of the
// second key's arrays over those of the first's. Weights of limbs are prepared where they are estimated to save more, in both keys
// together, than they cost (`work`). Inner: both keys can be evaluated at the point on the sheet.
pub(crate) fn run<S: Scalar>(
    first: &IndexedKey<'_>,
    first_counts: Counts,
    second: &IndexedKey<'_>,
    second_counts: Counts,
    rows: &[u32],
    columns: &[u32],
    sheet: &mut [u32],
) -> Compared
    requires evaluable { Evaluable S.elements.scalars first.now.bytes.now first_counts rows.now columns.now (length sheet.old) }
    requires evaluable_2 { Evaluable S.elements.scalars second.now.bytes.now second_counts rows.now columns.now (length sheet.old) }
    ensures answer { likeness_answer result.likeness ≡
        likeness_at S.elements.scalars first.now.bytes.now first_counts second.now.bytes.now second_counts rows.now columns.now }
    ensures factors { result.factors ≡
        factors_at S.elements.scalars first.now.bytes.now first_counts rows.now columns.now
        + factors_at S.elements.scalars second.now.bytes.now second_counts rows.now columns.now }
    ensures sheet { sheet.new ≡
        both_written S.elements.scalars first.now.bytes.now first_counts second.now.bytes.now second_counts rows.now
        columns.now sheet.old }
{
    let saved = work::saved(first) + work::saved(second);
    if work::limbs_pay(saved, rows.len() / S::WIDTH + columns.len() / S::WIDTH) {
        let mut rowwise = [S::zero(); table::LIMB_PLACES];
        let mut columnwise = [S::zero(); table::LIMB_PLACES];
        return by_sides(
            first,
            first_counts,
            second,
            second_counts,
            rows,
            columns,
            &mut rowwise,
            &mut columnwise,
            sheet,
        );
    }
    let mut rowwise = [S::zero(); table::PLACES];
    let mut columnwise = [S::zero(); table::PLACES];
    by_sides(
        first,
        first_counts,
        second,
        second_counts,
        rows,
        columns,
        &mut rowwise,
        &mut columnwise,
        sheet,
    )
}

// The same, with tables to be filled for the two sides. Inner: they have places for them.
fn by_sides<S: Scalar>(
    first: &IndexedKey<'_>,
    first_counts: Counts,
    second: &IndexedKey<'_>,
    second_counts: Counts,
    rows: &[u32],
    columns: &[u32],
    rowwise: &mut [S],
    columnwise: &mut [S],
    sheet: &mut [u32],
) -> Compared
    requires evaluable { Evaluable S.elements.scalars first.now.bytes.now first_counts rows.now columns.now (length sheet.old) }
    requires evaluable_2 { Evaluable S.elements.scalars second.now.bytes.now second_counts rows.now columns.now (length sheet.old) }
    requires ready { Ready rowwise.old × Ready columnwise.old }
    ensures answer { likeness_answer result.likeness ≡
        likeness_at S.elements.scalars first.now.bytes.now first_counts second.now.bytes.now second_counts rows.now columns.now }
    ensures factors { result.factors ≡
        factors_at S.elements.scalars first.now.bytes.now first_counts rows.now columns.now
        + factors_at S.elements.scalars second.now.bytes.now second_counts rows.now columns.now }
    ensures sheet { sheet.new ≡
        both_written S.elements.scalars first.now.bytes.now first_counts second.now.bytes.now second_counts rows.now
        columns.now sheet.old }
{
    table::prepare(rows, rowwise);
    table::prepare(columns, columnwise);
    let one = filled::triple(
        first,
        first_counts,
        rows,
        columns,
        &*rowwise,
        &*columnwise,
        sheet,
    );
    let other = filled::triple(
        second,
        second_counts,
        rows,
        columns,
        &*rowwise,
        &*columnwise,
        sheet,
    );
    Compared {
        likeness: likeness(one.values, other.values),
        factors: one.factors + other.factors,
    }
}

// Whether A, B and C are equal.
fn likeness<S: Scalar>(one: Values<S>, other: Values<S>) -> Likeness
    ensures { likeness_answer result ≡ likeness S.elements.scalars (values_of S.elements one) (values_of S.elements other) }
{
    if one == other {
        return Likeness::Same;
    }
    Likeness::Different
}
