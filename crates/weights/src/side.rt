// A side of a point, prepared for many weights as a table (004, 1.2: the third way): the weights that it gives.
ghost use Rattle.std.specs.Prelude.{◌≡◌, ◌-◌, ◌^◌, ◌≤◌, ◌<◌};
ghost use Rattle.weights.specs.Side.{Prepared, Weighs, Weighed, ForSide, Reaches};

use crate::table::PLACES;
use crate::{bits, limbs};
use scalar::Scalar;

// A weight: the product of its factors, not reduced yet, and how many factors there are, one for each coordinate (02, E4).
#[derive(Clone, Copy)]
pub struct Weight<P> {
    pub product: P,
    pub factors: usize,
}

// So many bits of a side, and up to which bit weights over them are taken.
#[derive(Clone, Copy)]
pub struct Bits {
    pub own: u8,
    pub to: u8,
}

// The bits of an array on the two sides.
#[derive(Clone, Copy)]
pub struct Reached {
    pub rows: Bits,
    pub columns: Bits,
}

// The weight of a number over the first bits of a side, so many. Inner: the number has no more bits, and weights over them may be taken so
// far.
pub fn weigh<S: Scalar>(a: u32, table: &[S], over: Bits) -> Weight<S::Product>
    requires { (a < 2 ^ over.own) × Reaches S.elements table.now over.own over.to }
    ensures { Weighed S.elements table.now a 0 over.own (S.product result.product) result.factors }
{
    Weight {
        product: first(a, table, over.to as usize),
        factors: over.own as usize,
    }
}

// The weight of a call's position: that over the bits from one on, where the called array ends. Inner: likewise, and the first bit is not
// behind the last.
pub fn factor<S: Scalar>(a: u32, table: &[S], from: usize, over: Bits) -> Weight<S::Product>
    requires { (from ≤ over.own) × (a < 2 ^ (over.own - from)) × Reaches S.elements table.now over.own over.to }
    ensures { Weighed S.elements table.now a from over.own (S.product result.product) result.factors }
{
    Weight {
        product: between(a, table, from, over.to as usize),
        factors: over.own as usize - from,
    }
}

// So many bits of a side, and how far weights over them may be taken: to the end of the last limb, which is filled up, where these are all
// the bits of the side and its table has blocks. Inner: the table is one for the side.
pub fn reach<S: Scalar>(bits: u8, most: u8, table: &[S]) -> Bits
    requires { (bits ≤ most) × ForSide S.elements most table.now }
    ensures own { result.own ≡ bits }
    ensures reached { Reaches S.elements table.now bits result.to }
{
    if table.len() <= PLACES {
        return Bits {
            own: bits,
            to: bits,
        };
    }
    if bits == most {
        return Bits {
            own: bits,
            to: (bits + 4) / 5 * 5,
        };
    }
    Bits {
        own: bits,
        to: bits,
    }
}

// The product of a number's factors over the first bits of a side, up to `to`. Inner: the table is one for so many bits.
fn first<S: Scalar>(a: u32, table: &[S], to: usize) -> S::Product
    requires { Prepared S.elements to table.now }
    ensures { Weighs S.elements table.now a 0 to (S.product result) }
{
    if table.len() <= PLACES {
        return bits::bit_by_bit(a, table, 0, to);
    }
    if 1 < S::WIDTH {
        if to == 30 {
            return limbs::of_thirty(a, table, 0);
        }
    }
    limbs::limb_by_limb(a, table, 0, to)
}

// The same over the bits from one up to another. Inner: likewise, and the first bit is not behind the last. (As a call of it with 0,
// `first` would be slower: docs/PERFORMANCE.md.)
fn between<S: Scalar>(a: u32, table: &[S], from: usize, to: usize) -> S::Product
    requires { (from ≤ to) × Prepared S.elements to table.now }
    ensures { Weighs S.elements table.now a from to (S.product result) }
{
    if table.len() <= PLACES {
        return bits::bit_by_bit(a, table, from, to);
    }
    if to == 30 {
        if from < 5 {
            return limbs::of_thirty(a, table, from);
        }
    }
    limbs::limb_by_limb(a, table, from, to)
}
