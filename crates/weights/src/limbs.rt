// Weights from the weights of limbs of five bits.
ghost use Rattle.std.specs.Prelude.{◌≡◌, ◌+◌, ◌-◌, ◌*◌, ◌<◌, ◌≤◌, length};
ghost use Rattle.multilinear.specs.Eq.{bitwise};
ghost use Rattle.weights.specs.Side.{pairs, Prepared, Weighs};

use crate::bits;
use crate::table::PLACES;
use scalar::Scalar;

// The weight of a number over the bits of a side from one up to another: from limbs as far as the bits reach the end of one, and factor by
// factor behind it. Inner: the table is one for so many bits, and has blocks.
pub(crate) fn limb_by_limb<S: Scalar>(a: u32, table: &[S], from: usize, to: usize) -> S::Product
    requires { (from ≤ to) × (64 < length table.now) × Prepared S.elements to table.now }
    ensures { Weighs S.elements table.now a from to (S.product result) }
{
    let part = in_limbs(a, table, from, to);
    let at = part.at;
    bits::singly(part.weight, a >> (at - from), table, at, to)
}

// A weight over the bits up to one.
#[derive(Clone, Copy)]
struct Part<P> {
    weight: P,
    at: usize,
}

// The weight over the bits up to the last end of a limb: the first limb is read, of as many bits as are left of it, and whole limbs are
// multiplied to it. Over no bits, where none of them is a limb's last. Inner: as for `limb_by_limb`.
fn in_limbs<S: Scalar>(a: u32, table: &[S], from: usize, to: usize) -> Part<S::Product>
    requires { (from ≤ to) × (64 < length table.now) × Prepared S.elements to table.now }
    ensures { (from ≤ result.at) × (result.at ≤ to) × Weighs S.elements table.now a from result.at (S.product result.weight) }
{
    let limb = from / 5;
    let ends = to / 5;
    if ends <= limb {
        return Part {
            weight: S::one().begun(),
            at: from,
        };
    }
    let bits = 5 * limb + 5 - from;
    let begun = limb_weight(a, table, limb, bits);
    Part {
        weight: further_limbs(begun, a >> bits, table, limb + 1, ends),
        at: 5 * ends,
    }
}

// The weight over the bits of a side of thirty, from one of the first limb's on: in a loop over entries where an element is one number, and
// else apart. Inner: the table is one for so many bits, and has blocks.
pub(crate) fn of_thirty<S: Scalar>(a: u32, table: &[S], from: usize) -> S::Product
    requires { (from < 5) × (64 < length table.now) × Prepared S.elements 30 table.now }
    ensures { Weighs S.elements table.now a from 30 (S.product result) }
{
    if 1 < S::WIDTH {
        thirty_apart(a, table, from)
    } else {
        thirty(a, table, from)
    }
}

#[inline(never)]
fn thirty_apart<S: Scalar>(a: u32, table: &[S], from: usize) -> S::Product
    requires { (from < 5) × (64 < length table.now) × Prepared S.elements 30 table.now }
    ensures { Weighs S.elements table.now a from 30 (S.product result) }
{
    thirty(a, table, from)
}

// The same: the rest of the first limb is read, and the other five are multiplied to it, each at a place that the compiler knows. Inner:
// likewise.
#[inline(always)]
fn thirty<S: Scalar>(a: u32, table: &[S], from: usize) -> S::Product
    requires { (from < 5) × (64 < length table.now) × Prepared S.elements 30 table.now }
    ensures { Weighs S.elements table.now a from 30 (S.product result) }
{
    let bits = 5 - from;
    let begun = limb_weight(a, table, 0, bits);
    whole_limbs(begun, a >> bits, table, 1, 6)
}

// The weight over the last bits of a limb. Inner: the table has the limb's block.
fn limb_weight<S: Scalar>(a: u32, table: &[S], limb: usize, bits: usize) -> S
    requires { (bits ≤ 5) × (64 < length table.now) × Prepared S.elements (5 * limb + 5) table.now }
    ensures { S.elements.element result ≡
        bitwise S.elements.scalars.arithmetic (pairs S.elements table.now) bits (5 * limb + (5 - bits)) a }
{
    let size = 1u32 << bits;
    table[PLACES * limb + PLACES + (size + a % size) as usize]
}

// An element times the weight over whole limbs, as `whole_limbs` has it: in a loop over entries where an element is one number, and else
// apart, where the products of an element are too many for it (docs/PERFORMANCE.md). Inner: likewise.
fn further_limbs<S: Scalar>(begun: S, a: u32, table: &[S], from: usize, to: usize) -> S::Product
    requires { (1 ≤ from) × (from ≤ to) × (64 < length table.now) × Prepared S.elements (5 * to) table.now }
    ensures { S.product result ≡ S.elements.scalars.arithmetic.mul (S.elements.element begun)
        (bitwise S.elements.scalars.arithmetic (pairs S.elements table.now) (5 * to - 5 * from) (5 * from) a) }
{
    if 1 < S::WIDTH {
        apart(begun, a, table, from, to)
    } else {
        whole_limbs(begun, a, table, from, to)
    }
}

#[inline(never)]
fn apart<S: Scalar>(begun: S, a: u32, table: &[S], from: usize, to: usize) -> S::Product
    requires { (1 ≤ from) × (from ≤ to) × (64 < length table.now) × Prepared S.elements (5 * to) table.now }
    ensures { S.product result ≡ S.elements.scalars.arithmetic.mul (S.elements.element begun)
        (bitwise S.elements.scalars.arithmetic (pairs S.elements table.now) (5 * to - 5 * from) (5 * from) a) }
{
    whole_limbs(begun, a, table, from, to)
}

// An element times the weight over whole limbs, from one up to another: at most five. Inner: the table has the limbs' blocks.
#[inline(always)]
fn whole_limbs<S: Scalar>(begun: S, a: u32, table: &[S], from: usize, to: usize) -> S::Product
    requires { (1 ≤ from) × (from ≤ to) × (64 < length table.now) × Prepared S.elements (5 * to) table.now }
    ensures { S.product result ≡ S.elements.scalars.arithmetic.mul (S.elements.element begun)
        (bitwise S.elements.scalars.arithmetic (pairs S.elements table.now) (5 * to - 5 * from) (5 * from) a) }
{
    let mut product = begun.begun();
    let mut rest = a;
    for turn in 0..5 {
        if to <= from + turn {
            return product;
        }
        product = S::times_in_turn(product, turn, limb_weight(rest, table, from + turn, 5));
        rest = rest / 32;
    }
    product
}
