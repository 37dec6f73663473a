// An accepted key evaluated at a point over the field of p² elements (E2): as crate evaluate does over the field of p.
#![tactic(auto)]

ghost use Rattle.std.specs.Prelude.{◌≡◌};
ghost use Rattle.quadratic.specs.Quadratic.{quadratic};
ghost use Rattle.key.specs.Factors.{FactorsLimited};
ghost use Rattle.evaluation.specs.Evaluate.{evaluated};
ghost use Rattle.evaluate_quadratic.specs.Answer.{evaluated_outcome};

use evaluate::Counted;
use quadratic::Fp2;
use refusal::Refusal;

// The last array's A, B and C at a point, two numbers a coordinate, u first: the multilinear extensions of its dense matrices. The sheet
// then holds every array's six numbers, those of array i from place 6i on, A, B and C in turn, u before v; places behind them stay, and a
// refused call leaves the whole sheet. The factors that are answered are one for each coordinate, as over the field of p.
pub fn evaluate(
    key: &[u8],
    rows: &[u32],
    columns: &[u32],
    sheet: &mut [u32],
) -> Result<Counted<Fp2>, Refusal>
    ensures answer { evaluated_outcome result ≡
        (evaluated quadratic key.now rows.now columns.now sheet.old).answer }
    ensures sheet { sheet.new ≡
        (evaluated quadratic key.now rows.now columns.now sheet.old).sheet }
    ensures limit { FactorsLimited key.now }
{
    evaluate::over(key, rows, columns, sheet)
}
