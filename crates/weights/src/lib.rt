// Weights in either field: eq as 004 prints it, and the sides of a point, prepared for many weights.
#![tactic(auto)]

mod bits;
mod limbs;
pub mod side;
pub mod table;

ghost use Rattle.std.specs.Prelude.{◌≡◌, length};
ghost use Rattle.algebra.specs.Points.{Below};
ghost use Rattle.field.specs.Fp.{p};
ghost use Rattle.multilinear.specs.Eq.{eq, eq_factor};

use scalar::Scalar;

// The product of some factors, and how many they are.
#[derive(Clone, Copy)]
pub struct Product<S> {
    pub value: S,
    pub factors: usize,
}

// eq(x; y), the product of x_i·y_i + (1 - x_i)(1 - y_i) for i from 0 up (004, 1.1.2), over the elements that numbers make; numbers that
// are left over make none. Its count of factors is one for each coordinate (02, E4), and not one for each number. Inner: there are as
// many numbers in x as in y, each below p.
pub fn eq<S: Scalar>(x: &[u32], y: &[u32]) -> Product<S>
    requires { (length x.now ≡ length y.now) × Below p x.now × Below p y.now }
    ensures product { S.elements.element result.value ≡
        eq S.elements.scalars.arithmetic (S.elements.scalars.elements x.now) (S.elements.scalars.elements y.now) }
    ensures factors { result.factors ≡ length (S.elements.scalars.elements x.now) }
{
    let count = x.len() / S::WIDTH;
    let mut product = S::one();
    for i in 0..count {
        product = product.mul(eq_factor(S::read(x, i), S::read(y, i)));
    }
    Product {
        value: product,
        factors: count,
    }
}

// x·y + (1 - x)(1 - y), the factor of eq.
pub fn eq_factor<S: Scalar>(x: S, y: S) -> S
    ensures { S.elements.element result ≡ eq_factor S.elements.scalars.arithmetic (S.elements.element x) (S.elements.element y) }
{
    let one = S::one();
    let one_less_x = one.sub(x);
    let one_less_y = one.sub(y);
    x.mul(y).add(one_less_x.mul(one_less_y))
}
