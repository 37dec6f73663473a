// Weights from the factors of single bits.
ghost use Rattle.std.specs.Prelude.{◌≡◌, ◌+◌, ◌-◌, ◌*◌, ◌/◌, ◌%◌, ◌<◌, ◌≤◌, length};
ghost use Rattle.multilinear.specs.Eq.{bitwise};
ghost use Rattle.weights.specs.Side.{pairs, Prepared, Weighs};

use scalar::Scalar;

// The weight of a number over the bits of a side from one up to another: the first factor is read, the others are multiplied four at a
// time, and what is left one by one. Where an element has more numbers than one, all are multiplied one by one: four at a time gain nothing
// (docs/PERFORMANCE.md). Inner: the table is one for so many bits.
pub(crate) fn bit_by_bit<S: Scalar>(a: u32, table: &[S], from: usize, to: usize) -> S::Product
    requires { (from ≤ to) × Prepared S.elements to table.now }
    ensures { Weighs S.elements table.now a from to (S.product result) }
{
    if from == to {
        return S::one().begun();
    }
    let begun = single(table, from, a % 2).begun();
    if 1 < S::WIDTH {
        return singly(begun, a / 2, table, from + 1, to);
    }
    if from + 1 == to {
        return begun;
    }
    let at = to - (to - from - 1) % 4;
    let product = in_fours(begun, a / 2, &table[2 * from + 2..2 * at]);
    singly(product, a >> (at - from), table, at, to)
}

// A product times the weight of a number by two factors for each bit, four bits at a time. Inner: fours of bits leave none of the factors.
//
// What is left is a part that is taken anew in each turn, so that one register leads to a turn's factors (docs/PERFORMANCE.md).
fn in_fours<S: Scalar>(begun: S::Product, a: u32, factors: &[S]) -> S::Product
    requires { length factors.now % 8 ≡ 0 }
    ensures { S.product result ≡ S.elements.scalars.arithmetic.mul (S.product begun)
        (bitwise S.elements.scalars.arithmetic (pairs S.elements factors.now) (length factors.now / 2) 0 a) }
{
    let mut product = begun;
    let mut rest = a;
    let mut left = factors;
    while 0 < left.len() {
        product = four(product, left, rest);
        rest = rest / 16;
        left = &left[8..];
    }
    product
}

// A product times the weight of a number's lowest four bits by the first eight factors. Inner: there are so many.
fn four<S: Scalar>(begun: S::Product, factors: &[S], a: u32) -> S::Product
    requires { 8 ≤ length factors.now }
    ensures { S.product result ≡ S.elements.scalars.arithmetic.mul (S.product begun)
        (bitwise S.elements.scalars.arithmetic (pairs S.elements factors.now) 4 0 a) }
{
    S::times_four(
        begun,
        single(factors, 0, a % 2),
        single(factors, 1, a / 2 % 2),
        single(factors, 2, a / 4 % 2),
        single(factors, 3, a / 8 % 2),
    )
}

// A product times the weight of a number over the bits of a side from one up to another, factor by factor. Inner: as for `bit_by_bit`.
pub(crate) fn singly<S: Scalar>(
    begun: S::Product,
    a: u32,
    table: &[S],
    from: usize,
    to: usize,
) -> S::Product
    requires { (from ≤ to) × Prepared S.elements to table.now }
    ensures { S.product result ≡ S.elements.scalars.arithmetic.mul (S.product begun)
        (bitwise S.elements.scalars.arithmetic (pairs S.elements table.now) (to - from) from a) }
{
    let mut product = begun;
    let mut rest = a;
    for i in from..to {
        product = S::times(product, single(table, i, rest % 2));
        rest = rest / 2;
    }
    product
}

// The factor of bit i where it is `bit`, of two for each bit. Inner: both are there.
fn single<S: Scalar>(factors: &[S], i: usize, bit: u32) -> S
    requires { (bit < 2) × (2 * i + 1 < length factors.now) }
    ensures { S.elements.element result ≡ pairs S.elements factors.now i bit }
{
    factors[2 * i + bit as usize]
}
