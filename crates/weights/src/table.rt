// The table of a side: the factors of its coordinates for the bits 0 and 1, and the weights of its limbs.
ghost use Rattle.std.specs.Prelude.{◌≡◌, [], ◌∷◌, ◌+◌, ◌*◌, ◌<◌, ◌≤◌, length, get_or, set};
ghost use Rattle.std.proofs.lemmas.List.Edits.{sets};
ghost use Rattle.algebra.specs.Points.{Below};
ghost use Rattle.field.specs.Fp.{p};
ghost use Rattle.weights.specs.Side.{element_in, Tabled, Ready, Paired, FilledUp, Complements, BlocksMade, BlockGrown, Widened};

use scalar::Scalar;

// The places of single factors in a table, and those of a block of limb weights. A table of so many has no blocks, and weighs bit by bit.
pub const PLACES: usize = 64;

// The places of a table with blocks for the limbs of 30 coordinates.
pub const LIMB_PLACES: usize = 448;

// Prepares a side: the factors of its coordinates, and where the table has places for blocks also the weights of its limbs. Inner:
// there are at most 30 coordinates, of numbers below p; the table has places for all.
pub fn prepare<S: Scalar>(coordinates: &[u32], table: &mut [S])
    requires coordinates_len_bound { (length (S.elements.scalars.elements coordinates.now) ≤ 30) × Below p coordinates.now }
    requires ready { Ready table.old }
    ensures { Tabled S.elements (S.elements.scalars.elements coordinates.now) table.new }
{
    pair_up(coordinates, table);
    if PLACES < table.len() {
        let count = coordinates.len() / S::WIDTH;
        let limbs = (count + 4) / 5;
        fill_up(table, count, 5 * limbs);
        return add_blocks(table, limbs);
    }
}

// Writes the factors of each coordinate r for the bits 0 and 1: 1 - r and r, as `eq_factor` has them. Inner: as for `prepare`.
fn pair_up<S: Scalar>(coordinates: &[u32], table: &mut [S])
    requires coordinates_len_bound { (length (S.elements.scalars.elements coordinates.now) ≤ 30) × Below p coordinates.now }
    requires ready { Ready table.old }
    ensures { Paired S.elements (S.elements.scalars.elements coordinates.now) table.old
        (length (S.elements.scalars.elements coordinates.now)) table.new }
{
    let count = coordinates.len() / S::WIDTH;
    for i in 0..count {
        let odd = S::read(coordinates, i);
        put_both(table, 2 * i, S::one().sub(odd), odd);
    }
}

// Writes the factors 1 and 0 of the bits from one up to another. Inner: they are at most 30.
fn fill_up<S: Scalar>(table: &mut [S], from: usize, to: usize)
    requires { (from ≤ to) × (to ≤ 30) × (64 ≤ length table.old) }
    ensures { FilledUp S.elements table.old from to table.new }
{
    for i in from..to {
        put_both(table, 2 * i, S::one(), S::zero());
    }
}

// Writes the first blocks, so many. Inner: they are at most six, and the table has places for them and the factors of their bits.
fn add_blocks<S: Scalar>(table: &mut [S], blocks: usize)
    requires { (blocks ≤ 6) × (448 ≤ length table.old) × Complements S.elements (5 * blocks) table.old }
    ensures { BlocksMade S.elements table.old blocks table.new }
{
    for block in 0..blocks {
        add_block(table, block);
    }
}

// Writes a block: the weight over no bits is 1. Inner: likewise, for this block.
fn add_block<S: Scalar>(table: &mut [S], block: usize)
    requires { (block < 6) × (448 ≤ length table.old) × Complements S.elements (5 * block + 5) table.old }
    ensures { BlockGrown S.elements table.old block 5 table.new }
{
    put(table, PLACES * block + PLACES + 1, S::one());
    grow(table, block);
}

// Writes the weights of a block over one bit more and one bit more, from the limb's last bit back. Inner: likewise, and the weight over no
// bits is written.
fn grow<S: Scalar>(table: &mut [S], block: usize)
    requires block_bound { (block < 6) × (448 ≤ length table.old) × Complements S.elements (5 * block + 5) table.old }
    requires block_value { element_in S.elements table.old (64 * block + 64 + 1) ≡ S.elements.scalars.arithmetic.unit }
    ensures { BlockGrown S.elements table.old block 5 table.new }
{
    for level in 0..5 {
        let bit = 5 * block + 4 - level;
        let odd = table[2 * bit + 1];
        widen(table, PLACES * block + PLACES, 1 << level, odd);
    }
}

// Writes the weights over one bit more from those over the bits behind it, which stand from `half` on in the block at an offset: of each
// the part for the bit 1, and what that leaves of it for the bit 0. Inner: the places are there.
fn widen<S: Scalar>(table: &mut [S], base: usize, half: usize, odd: S)
    requires { base + 4 * half ≤ length table.old }
    ensures { Widened S.elements table.old base half (S.elements.element odd) (2 * half) table.new }
{
    for j in half..2 * half {
        let weight = table[base + j];
        let part = weight.mul(odd);
        put_both(table, base + 2 * j, weight.sub(part), part);
    }
}

// Writes an element at a place, and two at a place and the next. Inner: the places are there.
fn put<S: Scalar>(table: &mut [S], at: usize, element: S)
    requires { at < length table.old }
    ensures { table.new ≡ set table.old at element }
{
    table[at] = element;
}

fn put_both<S: Scalar>(table: &mut [S], at: usize, even: S, odd: S)
    requires { at + 1 < length table.old }
    ensures { table.new ≡ sets table.old at (even ∷ odd ∷ []) }
{
    table[at] = even;
    table[at + 1] = odd;
}
