// The field of p elements as one in which keys are evaluated: one number each.
ghost use Rattle.std.specs.Prelude.{◌≡◌, ◌+◌, ◌*◌, ◌%◌, ◌≤◌, refl};
ghost use Rattle.field.specs.Fp.{p, fp};
ghost use Rattle.std.proofs.Common.{arith};
ghost use Rattle.scalar.specs.Elements.{singles};
ghost use Rattle.scalar.specs.Lawful.{singles-lawful, singles-valid, singles-same, singles-alike, singles-narrow};

use crate::Scalar;
use crate::unreduced::{Multiplier, Product, Sum};
use field::Fp;

impl Scalar for Fp {
    ghost elements = { singles };

    ghost lawful = { singles-lawful };

    const WIDTH: usize = 1;

    ghost WIDTH = { 1 };

    type Product = Product;

    ghost product = { λ x. x.number % p };

    ghost at_turn = { λ turn x. x.number ≤ 2147483647 * (turn % 3 + 1) + 3 };

    type Multiplier = Multiplier;

    ghost multiplier = { λ x. x.number % p };

    type Sum = Sum;

    ghost sum = { λ x. x.number % p };

    ghost size = { λ x i. x.number };

    fn zero() -> Fp {
        Fp::zero()
    }

    fn one() -> Fp {
        Fp::one()
    }

    fn add(self, other: Fp) -> Fp {
        Fp::add(self, other)
    }

    fn sub(self, other: Fp) -> Fp {
        Fp::sub(self, other)
    }

    fn mul(self, other: Fp) -> Fp {
        Fp::mul(self, other)
    }

    fn read(numbers: &[u32], i: usize) -> Fp {
        Fp::new(numbers[i])
    }

    fn store(self, numbers: &mut [u32], i: usize) {
        numbers[i] = self.value();
    }

    fn begun(self) -> Product {
        Product {
            number: self.value() as u64,
        }
    }

    fn times(begun: Product, factor: Fp) -> Product {
        Product {
            number: Fp::times(Fp::folded(begun.number), factor),
        }
    }

    // Folded once in five turns, a product stays below 2^33, which is what a factor is multiplied to.
    fn times_in_turn(begun: Product, turn: usize, factor: Fp) -> Product {
        let number = Fp::times(begun.number, factor);
        if turn == 2 {
            Product {
                number: Fp::folded(number),
            }
        } else {
            Product { number: number }
        }
    }

    fn times_four(begun: Product, one: Fp, two: Fp, three: Fp, four: Fp) -> Product {
        Product {
            number: Fp::product(Fp::folded(begun.number), of_four(one, two, three, four)),
        }
    }

    fn reduced(whole: Product) -> Fp {
        Fp::remainder(whole.number)
    }

    fn multiplied(one: Product, other: Product) -> Multiplier {
        Multiplier {
            number: Fp::product(Fp::folded(one.number), Fp::folded(other.number)),
        }
    }

    fn scaled(factor: Fp, one: Product, other: Product) -> Multiplier {
        let first = Fp::product(factor.value() as u64, Fp::folded(one.number));
        Multiplier {
            number: Fp::product(first, Fp::folded(other.number)),
        }
    }

    fn nothing() -> Sum {
        Sum { number: 0 }
    }

    fn plus(total: Sum, by: Multiplier, value: Fp) -> Sum {
        Sum {
            number: Fp::plus_times(total.number, by.number, value),
        }
    }

    fn plus_embedded(total: Sum, by: Multiplier, value: Fp) -> Sum {
        Sum {
            number: Fp::plus_times(total.number, by.number, value),
        }
    }

    fn total(whole: Sum) -> Fp {
        Fp::remainder(whole.number)
    }

    ghost same = { singles-same };

    ghost alike = { singles-alike };

    ghost few_bytes = { omega arith };

    ghost width = { refl };

    ghost narrow = { singles-narrow };

    ghost valid = { λ x. singles-valid x.number };
}

// A number that is, modulo p, the product of four elements: at most 2^33 - 14.
fn of_four(one: Fp, two: Fp, three: Fp, four: Fp) -> u64
    ensures { (result % p ≡ fp.mul (fp.mul (fp.mul one.number two.number) three.number) four.number) × (result ≤ 8589934578) }
{
    let first = one.value() as u64;
    let second = Fp::times(first, two);
    let third = Fp::times(second, three);
    Fp::times(third, four)
}
