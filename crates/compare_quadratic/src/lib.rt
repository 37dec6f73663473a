// Two keys compared at a point over the field of p² elements (02, E2 and E7): as crate compare does over the field of p.
#![tactic(auto)]

ghost use Rattle.std.specs.Prelude.{◌≡◌};
ghost use Rattle.quadratic.specs.Quadratic.{quadratic};
ghost use Rattle.comparison.specs.AgreementBound.{Agreement};
ghost use Rattle.comparison.specs.Compare.{compared, BothLimited};
ghost use Rattle.compare.specs.Answer.{compared_answer, compared_factors};

use compare::Compared;
use quadratic::Fp2;
use refusal::PairRefusal;

// Whether two keys have the same A, B and C at a point, two numbers a coordinate, u first, filled with zeros as by `compare::compare` where
// their shapes differ. The sheet ends as if the first key and then the second had been evaluated on it, each at its own leading
// coordinates, and a refused call leaves it. `answer` and `agreement` together are the agreement bound of this call where q is p², as they
// are demand 3 for `compare::compare`.
pub fn compare(
    first: &[u8],
    second: &[u8],
    rows: &[u32],
    columns: &[u32],
    sheet: &mut [u32],
) -> Result<Compared, PairRefusal>
    ensures answer { compared_answer result ≡
        (compared quadratic first.now second.now rows.now columns.now
        sheet.old).answer }
    ensures factors { compared_factors result ≡
        (compared quadratic first.now second.now rows.now columns.now
        sheet.old).factors }
    ensures sheet { sheet.new ≡
        (compared quadratic first.now second.now rows.now columns.now
        sheet.old).sheet }
    ensures agreement { Agreement quadratic first.now second.now }
    ensures limit { BothLimited first.now second.now (compared_factors result) }
{
    compare::over::<Fp2>(first, second, rows, columns, sheet)
}
