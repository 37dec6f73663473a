// The elements of a field in which keys are evaluated, as code has them: what is written once for both fields is written over this.
#![tactic(auto)]

mod of_prime;
mod of_quadratic;
#[cfg(test)]
mod tests;
pub mod unreduced;

ghost use Rattle.std.specs.Mem.{type_size};
ghost use Rattle.std.specs.Prelude.{◌≡◌, true, ℕ, suc, ◌+◌, ◌*◌, ◌≤◌, ◌<◌, length};
ghost use Rattle.std.proofs.lemmas.List.Edits.{sets};
ghost use Rattle.algebra.specs.Points.{Below};
ghost use Rattle.field.specs.Fp.{p};
ghost use Rattle.field.specs.Scalars.{element_at};
ghost use Rattle.scalar.specs.Elements.{Elements, LawfulElements};

use field::Fp;

// A type whose values are elements: what keys are evaluated with. Products of many elements and sums of products are not reduced before
// their end; they have types of their own.
pub trait Scalar: Copy + Eq {
    // the field, and the element that each value is
    ghost elements: { Elements Self };

    // the laws of such a field
    ghost lawful: { LawfulElements Self elements };

    // How many numbers make an element.
    const WIDTH: usize;

    ghost WIDTH: { ℕ };

    // A product of elements, not reduced yet.
    type Product: Copy;

    // the element that it is
    ghost product: { Self.Product → elements.scalars.arithmetic.Carrier };

    // what holds of it where so many turns of `times_in_turn` are done
    ghost at_turn: { ℕ → Self.Product → Type 0 };

    // A product of two such products, by which values are multiplied.
    type Multiplier: Copy;

    // the element that it is
    ghost multiplier: { Self.Multiplier → elements.scalars.arithmetic.Carrier };

    // A sum of values so multiplied, not reduced yet.
    type Sum: Copy;

    // the element that it is
    ghost sum: { Self.Sum → elements.scalars.arithmetic.Carrier };

    // and how large each of its numbers is, by the index of the part that it stands for
    ghost size: { Self.Sum → ℕ → ℕ };

    // The element 0.
    fn zero() -> Self
        ensures { elements.element result ≡ elements.scalars.arithmetic.nought };

    // The element 1.
    fn one() -> Self
        ensures { elements.element result ≡ elements.scalars.arithmetic.unit };

    // The sum.
    fn add(self, other: Self) -> Self
        ensures { elements.element result ≡ elements.scalars.arithmetic.add (elements.element self) (elements.element other) };

    // The difference, this less the other.
    fn sub(self, other: Self) -> Self
        ensures { elements.element result ≡ elements.scalars.arithmetic.sub (elements.element self) (elements.element other) };

    // The product.
    fn mul(self, other: Self) -> Self
        ensures { elements.element result ≡ elements.scalars.arithmetic.mul (elements.element self) (elements.element other) };

    // Element i of those that numbers make. Inner: there are numbers for it, each below p.
    fn read(numbers: &[u32], i: usize) -> Self
        requires { (elements.scalars.width * suc i ≤ length numbers.now) ×
            Below p (elements.scalars.numbers (element_at elements.scalars numbers.now i)) }
        ensures { elements.element result ≡ element_at elements.scalars numbers.now i };

    // Stores the element as element i. Inner: there are places for it.
    fn store(self, numbers: &mut [u32], i: usize)
        requires { elements.scalars.width * suc i ≤ length numbers.old }
        ensures { numbers.new ≡ sets numbers.old (elements.scalars.width * i) (elements.scalars.numbers (elements.element self)) };

    // The product of this element alone.
    fn begun(self) -> Self::Product
        ensures is { product result ≡ elements.element self }
        ensures first { at_turn 0 result };

    // A product with one more factor.
    fn times(begun: Self::Product, factor: Self) -> Self::Product
        ensures { product result ≡ elements.scalars.arithmetic.mul (product begun) (elements.element factor) };

    // The same in a turn of at most five, the first of which begins with an element alone: over p it is folded after the third only.
    // Inner: the turns before are done.
    fn times_in_turn(begun: Self::Product, turn: usize, factor: Self) -> Self::Product
        requires { (turn < 5) × at_turn turn begun }
        ensures is { product result ≡ elements.scalars.arithmetic.mul (product begun) (elements.element factor) }
        ensures next { at_turn (turn + 1) result };

    // A product with four more factors.
    fn times_four(
        begun: Self::Product,
        one: Self,
        two: Self,
        three: Self,
        four: Self,
    ) -> Self::Product
        ensures { product result ≡ elements.scalars.arithmetic.mul (product begun)
            (elements.scalars.arithmetic.mul
            (elements.scalars.arithmetic.mul (elements.scalars.arithmetic.mul (elements.element one) (elements.element two))
            (elements.element three)) (elements.element four)) };

    // The element that a product is.
    fn reduced(whole: Self::Product) -> Self
        ensures { elements.element result ≡ product whole };

    // The product of two.
    fn multiplied(one: Self::Product, other: Self::Product) -> Self::Multiplier
        ensures { multiplier result ≡ elements.scalars.arithmetic.mul (product one) (product other) };

    // The product of two and an element of the field of p.
    fn scaled(factor: Fp, one: Self::Product, other: Self::Product) -> Self::Multiplier
        ensures { multiplier result ≡ elements.scalars.arithmetic.mul
            (elements.scalars.arithmetic.mul (elements.scalars.embed factor.number) (product one)) (product other) };

    // The sum of nothing.
    fn nothing() -> Self::Sum
        ensures empty { sum result ≡ elements.scalars.arithmetic.nought }
        ensures small { (i : ℕ) → size result i ≡ 0 };

    // A sum with a value added to it that is multiplied: each of its numbers grows by less than 2^34. Inner: each of the
    // `width` numbers is below 2^63.
    fn plus(total: Self::Sum, by: Self::Multiplier, value: Self) -> Self::Sum
        requires { (i : ℕ) → i < elements.scalars.width → size total i < 9223372036854775808 }
        ensures added { sum result ≡ elements.scalars.arithmetic.add (sum total)
            (elements.scalars.arithmetic.mul (elements.element value) (multiplier by)) }
        ensures little { (i : ℕ) → size result i < size total i + 17179869184 };

    // The same of a value that is an element of the field of p.
    fn plus_embedded(total: Self::Sum, by: Self::Multiplier, value: Fp) -> Self::Sum
        requires { (i : ℕ) → i < elements.scalars.width → size total i < 9223372036854775808 }
        ensures added { sum result ≡ elements.scalars.arithmetic.add (sum total)
            (elements.scalars.arithmetic.mul (elements.scalars.embed value.number) (multiplier by)) }
        ensures little { (i : ℕ) → size result i < size total i + 17179869184 };

    // The element that a sum is.
    fn total(whole: Self::Sum) -> Self
        ensures { elements.element result ≡ sum whole };

    // equal values are one element
    ghost same: { (x y : Self) → Self.eq x y ≡ true → elements.element x ≡ elements.element y };

    // and values that are one element are equal
    ghost alike: { (x y : Self) → elements.element x ≡ elements.element y → Self.eq x y ≡ true };

    // an element takes at most 16 bytes
    ghost few_bytes: { type_size Self.row ≤ 16 };

    // it has so many numbers
    ghost width: { WIDTH ≡ elements.scalars.width };

    // which are at most two
    ghost narrow: { elements.scalars.width ≤ 2 };

    // a product is an element of the field
    ghost valid: { (x : Self.Product) → lawful.lawful.field.ring.Valid (product x) };
}
