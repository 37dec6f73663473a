// Sums over either field by a caller who bounds them as a whole, and not each of their numbers.
ghost use Rattle.std.specs.Prelude.{◌≡◌, ◌+◌, ◌<◌};
ghost use Rattle.algebra.specs.Arithmetic.{sum_below, whole};

use super::*;
use quadratic::Fp2;
use std::test::Fail;

// A sum of nothing.
fn none<S: Scalar>() -> S::Sum
    ensures { sum_below whole S.elements.scalars.width (S.size result) ≡ 0 }
{
    S::nothing()
}

// A sum with a value added to it that is multiplied: its numbers together grow by less than 2^35, and are below 2^63 before.
fn added<S: Scalar>(total: S::Sum, by: S::Multiplier, value: S) -> S::Sum
    requires { sum_below whole S.elements.scalars.width (S.size total) < 9223372036854775808 }
    ensures { sum_below whole S.elements.scalars.width (S.size result) <
        sum_below whole S.elements.scalars.width (S.size total) + 34359738368 }
{
    S::plus(total, by, value)
}

// The same of an element of the field of p.
fn embedded<S: Scalar>(total: S::Sum, by: S::Multiplier, value: Fp) -> S::Sum
    requires { sum_below whole S.elements.scalars.width (S.size total) < 9223372036854775808 }
    ensures { sum_below whole S.elements.scalars.width (S.size result) <
        sum_below whole S.elements.scalars.width (S.size total) + 34359738368 }
{
    S::plus_embedded(total, by, value)
}

// weight·one + weight·other + weight·last
fn three<S: Scalar>(weight: S, one: S, other: S, last: Fp) -> S {
    let by = S::multiplied(S::one().begun(), weight.begun());
    let first = added(none::<S>(), by, one);
    let second = added(first, by, other);
    S::total(embedded::<S>(second, by, last))
}

#[test]
fn over_p() -> Result<(), Fail> {
    let sum = three(
        Fp::new(2147483646),
        Fp::new(5),
        Fp::new(2147483646),
        Fp::new(11),
    );
    (sum.value() == 2147483632).then_some(()).ok_or("-15")?;
    Ok(())
}

#[test]
fn over_the_larger_field() -> Result<(), Fail> {
    let sum = three(Fp2::new(0, 1), Fp2::new(0, 1), Fp2::new(2, 0), Fp::new(7));
    let (u, v) = (sum.u, sum.v);
    (u.value() == 2147483646).then_some(()).ok_or("-1")?;
    (v.value() == 9).then_some(()).ok_or("9")?;
    Ok(())
}
