// Two keys compared at a point (01, 'Comparing two keys'; 02, E7), over the field of p or that of p² (E2).
#![tactic(auto)]

mod both;
mod filled;

ghost use Rattle.std.specs.Prelude.{◌≡◌, min, ◌/◌, ◌≤◌, length};
ghost use Rattle.field.specs.Scalars.{prime};
ghost use Rattle.comparison.specs.AgreementBound.{Agreement};
ghost use Rattle.comparison.specs.Compare.{compared, BothLimited};
ghost use Rattle.compare.specs.Answer.{compared_answer, compared_factors};

use field::Fp;
use indexed::IndexedKey;
use refusal::{PairRefusal, Refusal};
use scalar::Scalar;

// Whether two keys are found the same at a point.
#[derive(Clone, Copy, PartialEq, Eq)]
pub enum Likeness {
    // All three numbers are equal there.
    Same,
    // At least one of the three differs.
    Different,
}

// What compare answers: whether the keys are found the same, and how many factors were taken for both (02, E4).
#[derive(Clone, Copy)]
pub struct Compared {
    pub likeness: Likeness,
    pub factors: usize,
}

// Whether two keys have the same A, B and C at a point. Where their shapes differ, the point has as many coordinates as the larger bits,
// N and N', and each key is read as placed at position 0 of that shape, with zeros elsewhere. The sheet ends as if the first key and then
// the second had been evaluated on it, each at its own leading coordinates, and a refused call leaves it.
//
// Demand 3 is `answer` and `agreement` together: `agreement` says of what `compared` answers at how many points at most keys that differ
// are the same, and that keys which do not differ are the same at every point; `answer` says that the call answers what `compared` does.
// By `limit` the factors that are answered are at most (N + N')·(cells + calls), of both keys, and N + N' more for each.
pub fn compare(
    first: &[u8],
    second: &[u8],
    rows: &[u32],
    columns: &[u32],
    sheet: &mut [u32],
) -> Result<Compared, PairRefusal>
    ensures answer { compared_answer result ≡
        (compared prime first.now second.now rows.now columns.now sheet.old
        ).answer }
    ensures factors { compared_factors result ≡
        (compared prime first.now second.now rows.now columns.now sheet.old
        ).factors }
    ensures sheet { sheet.new ≡
        (compared prime first.now second.now rows.now columns.now sheet.old
        ).sheet }
    ensures agreement { Agreement prime first.now second.now }
    ensures limit { BothLimited first.now second.now (compared_factors result) }
{
    over::<Fp>(first, second, rows, columns, sheet)
}

// The same over any field.
pub fn over<S: Scalar>(
    first: &[u8],
    second: &[u8],
    rows: &[u32],
    columns: &[u32],
    sheet: &mut [u32],
) -> Result<Compared, PairRefusal>
    ensures answer { compared_answer result ≡
        (compared S.elements.scalars first.now second.now rows.now columns.now sheet.old
        ).answer }
    ensures factors { compared_factors result ≡
        (compared S.elements.scalars first.now second.now rows.now columns.now sheet.old
        ).factors }
    ensures sheet { sheet.new ≡
        (compared S.elements.scalars first.now second.now rows.now columns.now sheet.old
        ).sheet }
    ensures agreement { Agreement S.elements.scalars first.now second.now }
    ensures limit { BothLimited first.now second.now (compared_factors result) }
{
    if first.len() < key::SHORT {
        if second.len() < key::SHORT {
            let mut first_short = [0u16; key::SHORT_ARRAYS];
            let mut second_short = [0u16; key::SHORT_ARRAYS];
            return by_tables::<S>(
                first,
                second,
                rows,
                columns,
                sheet,
                &mut first_short,
                &mut second_short,
            );
        }
    }
    let mut first_starts = [0u16; key::MOST_ARRAYS];
    let mut second_starts = [0u16; key::MOST_ARRAYS];
    by_tables::<S>(
        first,
        second,
        rows,
        columns,
        sheet,
        &mut first_starts,
        &mut second_starts,
    )
}

// The same, with tables for the offsets of the keys' arrays. Inner: each has a place for each array that a key of its key's length may
// have.
fn by_tables<S: Scalar>(
    first: &[u8],
    second: &[u8],
    rows: &[u32],
    columns: &[u32],
    sheet: &mut [u32],
    first_starts: &mut [u16],
    second_starts: &mut [u16],
) -> Result<Compared, PairRefusal>
    requires first_in_bounds { min 1024 (length first.now / 3) ≤ length first_starts.old }
    requires second_in_bounds { min 1024 (length second.now / 3) ≤ length second_starts.old }
    ensures answer { compared_answer result ≡
        (compared S.elements.scalars first.now second.now rows.now columns.now sheet.old
        ).answer }
    ensures factors { compared_factors result ≡
        (compared S.elements.scalars first.now second.now rows.now columns.now sheet.old
        ).factors }
    ensures sheet { sheet.new ≡
        (compared S.elements.scalars first.now second.now rows.now columns.now sheet.old
        ).sheet }
{
    let first_counts = key::index(first, first_starts).map_err(Refusal::of_first)?;
    let second_counts = key::index(second, second_starts).map_err(Refusal::of_second)?;
    judge::pair(
        first_counts,
        second_counts,
        S::WIDTH,
        rows,
        columns,
        sheet.len(),
    )
    .map_err(Refusal::of_neither)?;
    let one = IndexedKey::new(first, &*first_starts, first_counts.arrays);
    let other = IndexedKey::new(second, &*second_starts, second_counts.arrays);
    Ok(both::run::<S>(
        &one,
        first_counts,
        &other,
        second_counts,
        rows,
        columns,
        sheet,
    ))
}
