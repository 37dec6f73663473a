// The field of p² elements as one in which keys are evaluated: two numbers each, u first.
ghost use Rattle.std.specs.Prelude.{◌≡◌, ⊤, refl};
ghost use Rattle.std.proofs.Common.{arith};
ghost use Rattle.scalar.specs.Elements.{doubles};
ghost use Rattle.scalar.specs.Lawful.{doubles-lawful, doubles-valid, doubles-same, doubles-alike, doubles-narrow};
ghost use Rattle.quadratic.specs.Unreduced.{remainders, wide_remainders, size_of_part};

use crate::Scalar;
use field::Fp;
use quadratic::unreduced::{Unreduced, Wide};
use quadratic::{Fp2, numbers};

impl Scalar for Fp2 {
    ghost elements = { doubles };

    ghost lawful = { doubles-lawful };

    const WIDTH: usize = 2;

    ghost WIDTH = { 2 };

    type Product = Unreduced;

    ghost product = { remainders };

    ghost at_turn = { λ turn x. ⊤ };

    type Multiplier = Unreduced;

    ghost multiplier = { remainders };

    type Sum = Wide;

    ghost sum = { wide_remainders };

    ghost size = { size_of_part };

    fn zero() -> Fp2 {
        Fp2::zero()
    }

    fn one() -> Fp2 {
        Fp2::one()
    }

    fn add(self, other: Fp2) -> Fp2 {
        Fp2::add(self, other)
    }

    fn sub(self, other: Fp2) -> Fp2 {
        Fp2::sub(self, other)
    }

    fn mul(self, other: Fp2) -> Fp2 {
        Fp2::mul(self, other)
    }

    fn read(from: &[u32], i: usize) -> Fp2 {
        numbers::element(from, i)
    }

    fn store(self, numbers: &mut [u32], i: usize) {
        numbers::store(numbers, i, self);
    }

    fn begun(self) -> Unreduced {
        Unreduced::of(self)
    }

    fn times(begun: Unreduced, factor: Fp2) -> Unreduced {
        begun.times(factor)
    }

    fn times_in_turn(begun: Unreduced, turn: usize, factor: Fp2) -> Unreduced {
        begun.times(factor)
    }

    fn times_four(begun: Unreduced, one: Fp2, two: Fp2, three: Fp2, four: Fp2) -> Unreduced {
        begun.times(one).times(two).times(three).times(four)
    }

    fn reduced(whole: Unreduced) -> Fp2 {
        whole.element()
    }

    fn multiplied(one: Unreduced, other: Unreduced) -> Unreduced {
        one.multiplied(other)
    }

    fn scaled(factor: Fp, one: Unreduced, other: Unreduced) -> Unreduced {
        one.scaled(factor).narrowed().multiplied(other)
    }

    fn nothing() -> Wide {
        Wide::zero()
    }

    fn plus(total: Wide, by: Unreduced, value: Fp2) -> Wide {
        total.plus(Unreduced::of(value).weighed(by))
    }

    fn plus_embedded(total: Wide, by: Unreduced, value: Fp) -> Wide {
        total.plus(by.scaled(value))
    }

    fn total(whole: Wide) -> Fp2 {
        whole.element()
    }

    ghost same = { doubles-same };

    ghost alike = { doubles-alike };

    ghost few_bytes = { omega arith };

    ghost width = { refl };

    ghost narrow = { doubles-narrow };

    ghost valid = { doubles-valid };
}
