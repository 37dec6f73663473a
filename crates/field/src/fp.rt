// An element of the field of p elements, with its operations.
ghost use Rattle.std.specs.Prelude.{◌≡◌, ◌+◌, ◌*◌, ◌/◌, ◌%◌, ◌<◌, ◌≤◌};
ghost use Rattle.field.specs.Fp.{p, fp};

use std::marker::Model;

// An element of the field: a number below p.
#[derive(Clone, Copy, PartialEq, Eq)]
pub struct Fp(u32);

impl Model for Fp {
    ghost use Rattle.std.specs.Prelude.{◌<◌};
    ghost use Rattle.field.specs.Fp.{p};
    ghost use Rattle.field.specs.Element.{Element, element_of, element_code, below-itself};

    ghost Value = { Element };

    ghost coded = { element_code };

    ghost view = { λ x. element_of x.0 };

    ghost invariant = { λ x. x.0 < p };

    ghost inverse = { λ e. record { 0 = e.number } };

    ghost inverse_ok = { λ x l t. record { 0 = below-itself l t } };
}

impl Fp {
    // The prime p.
    pub const P: u32 = 2147483647;

    // 2^31, which is 1 modulo p.
    const FOLD: u64 = 2147483648;

    // The element that a number is. Inner: the number is below p.
    pub fn new(number: u32) -> Fp
        requires { number < p }
        ensures { result.number ≡ number }
    {
        Fp(number)
    }

    // The element 0.
    pub fn zero() -> Fp
        ensures { result.number ≡ fp.nought }
    {
        Fp(0)
    }

    // The element 1.
    pub fn one() -> Fp
        ensures { result.number ≡ fp.unit }
    {
        Fp(1)
    }

    // The number that the element is.
    pub fn value(self) -> u32
        ensures { result ≡ self.number }
    {
        self.0
    }

    // The sum.
    pub fn add(self, other: Fp) -> Fp
        ensures { result.number ≡ fp.add self.number other.number }
    {
        let total = self.0 + other.0;
        if total < Fp::P {
            Fp(total)
        } else {
            Fp(total - Fp::P)
        }
    }

    // The difference, this less the other.
    pub fn sub(self, other: Fp) -> Fp
        ensures { result.number ≡ fp.sub self.number other.number }
    {
        if other.0 <= self.0 {
            Fp(self.0 - other.0)
        } else {
            Fp(self.0 + (Fp::P - other.0))
        }
    }

    // The product.
    pub fn mul(self, other: Fp) -> Fp
        ensures { result.number ≡ fp.mul self.number other.number }
    {
        Fp::reduced(Fp::folded((self.0 as u64) * (other.0 as u64)))
    }

    // A number that is the same modulo p, and smaller: 2^31 is 1 modulo p, so that the bits from bit 31 on are added to those below.
    pub fn folded(number: u64) -> u64
        ensures { (result % p ≡ number % p) × (result ≤ number / 2147483648 + 2147483647) }
    {
        number / Fp::FOLD + number % Fp::FOLD
    }

    // A number that is the product modulo p, of a number that need not be below p and an element: greater than the number by less than
    // 2^31, and by one less for each 2^30 in the number. Inner: the number is below 2^33.
    pub fn times(number: u64, other: Fp) -> u64
        requires { number < 8589934592 }
        ensures { (result % p ≡ fp.mul (number % p) other.number) × (result + number / 1073741824 ≤ number + 2147483647) }
    {
        Fp::folded(number * (other.0 as u64))
    }

    // A number that is the sum modulo p of a number and such a product, which is folded before it is added: the number grows by less than
    // 2^34. Inner: the number is below 2^63, the other as for `times`.
    pub fn plus_times(sum: u64, number: u64, other: Fp) -> u64
        requires { (sum < 9223372036854775808) × (number < 8589934592) }
        ensures { (result % p ≡ fp.add (sum % p) (fp.mul (number % p) other.number)) × (result < sum + 17179869184) }
    {
        let product = number * (other.0 as u64);
        sum + Fp::folded(product)
    }

    // A number that is the product of two numbers modulo p: their product, folded. Inner: that is below 2^64.
    pub fn product(one: u64, other: u64) -> u64
        requires { one * other < 18446744073709551616 }
        ensures { (result % p ≡ fp.mul (one % p) (other % p)) × (result ≤ one * other / 2147483648 + 2147483647) }
    {
        Fp::folded(one * other)
    }

    // The element that a number is modulo p.
    pub fn remainder(number: u64) -> Fp
        ensures { result.number ≡ number % p }
    {
        Fp::reduced(Fp::folded(Fp::folded(number)))
    }

    // The same of a number below 2·p: one more than it, folded, is one more than the element. Inner: it is below 2·p.
    fn reduced(number: u64) -> Fp
        requires { number < 2 * p }
        ensures { result.number ≡ number % p }
    {
        let next = number + 1;
        Fp((next / Fp::FOLD + next % Fp::FOLD - 1) as u32)
    }
}
