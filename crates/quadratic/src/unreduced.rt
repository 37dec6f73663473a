// Elements whose parts need not be below p, so that a product of many factors is reduced once, at its end, and so is a sum.
ghost use Rattle.std.specs.Prelude.{◌≡◌, ◌+◌, ◌*◌, ◌≤◌, ◌<◌};

use crate::Fp2;
use field::Fp;

// The element u + v·i: each part stands for its remainder by p, and is at most 2^31 + 4.
#[derive(Clone, Copy)]
pub struct Unreduced {
    u: u64,
    v: u64,
    pub ghost small: { (u ≤ 2147483652) × (v ≤ 2147483652) },
}

// The same of any parts.
#[derive(Clone, Copy)]
pub struct Wide {
    u: u64,
    v: u64,
}

impl Unreduced {
    ghost use Rattle.field.specs.Fp.{p};
    ghost use Rattle.quadratic.specs.Fp2.{fp2};
    ghost use Rattle.quadratic.specs.Parts.{parts};
    ghost use Rattle.quadratic.specs.Quadratic.{quadratic};
    ghost use Rattle.quadratic.specs.Unreduced.{remainders, wide_remainders, Under};

    // 2·p, which is 0 modulo p.
    const TWICE_P: u64 = 4294967294;

    // The element itself.
    pub fn of(x: Fp2) -> Unreduced
        ensures { remainders result ≡ parts x }
    {
        Unreduced {
            u: x.u.value() as u64,
            v: x.v.value() as u64,
        }
    }

    // The product with an element.
    pub fn times(self, other: Fp2) -> Unreduced
        ensures { remainders result ≡ fp2.mul (remainders self) (parts other) }
    {
        self.multiplied(Unreduced::of(other))
    }

    // The product of two.
    pub fn multiplied(self, other: Unreduced) -> Unreduced
        ensures { remainders result ≡ fp2.mul (remainders self) (remainders other) }
    {
        self.weighed(other).narrowed()
    }

    // The product of two, with parts below 2^33 + 2^31: it is folded once.
    pub fn weighed(self, other: Unreduced) -> Wide
        ensures { (wide_remainders result ≡ fp2.mul (remainders self) (remainders other)) × Under 10737418240 result }
    {
        self.product(other).folded()
    }

    // The product with a number of the field of p, with parts below 2^33 + 2^31.
    pub fn scaled(self, x: Fp) -> Wide
        ensures { (wide_remainders result ≡ fp2.mul (quadratic.embed x.number) (remainders self)) × Under 10737418240 result }
    {
        Wide {
            u: Fp::times(self.u, x),
            v: Fp::times(self.v, x),
        }
    }

    // The same element, with its parts below p.
    pub fn element(self) -> Fp2
        ensures { parts result ≡ remainders self }
    {
        Fp2 {
            u: Fp::remainder(self.u),
            v: Fp::remainder(self.v),
        }
    }

    // The product of two, each part a sum of two products: 2·p - v stands for -v.
    pub(crate) fn product(self, other: Unreduced) -> Wide
        ensures { (wide_remainders result ≡ fp2.mul (remainders self) (remainders other)) × Under 13835058089641902080 result }
    {
        let less_v = Unreduced::TWICE_P - other.v;
        Wide {
            u: two_products(self.u, other.u, self.v, less_v),
            v: two_products(self.u, other.v, self.v, other.u),
        }
    }
}

impl Wide {
    ghost use Rattle.quadratic.specs.Parts.{parts};
    ghost use Rattle.quadratic.specs.Unreduced.{remainders, wide_remainders, Under, FoldedFrom};

    // The element 0.
    pub fn zero() -> Wide
        ensures { result ≡ record { u = 0; v = 0 } }
    {
        Wide { u: 0, v: 0 }
    }

    // The sum, part by part. Inner: no part overflows.
    pub fn plus(self, other: Wide) -> Wide
        requires { (self.u + other.u < 18446744073709551616) × (self.v + other.v < 18446744073709551616) }
        ensures { result ≡ record { u = self.u + other.u; v = self.v + other.v } }
    {
        Wide {
            u: self.u + other.u,
            v: self.v + other.v,
        }
    }

    // The same element, with its parts below p.
    pub fn element(self) -> Fp2
        ensures { parts result ≡ wide_remainders self }
    {
        Fp2 {
            u: Fp::remainder(self.u),
            v: Fp::remainder(self.v),
        }
    }

    // The same element, each part folded once.
    pub fn folded(self) -> Wide
        ensures { (wide_remainders result ≡ wide_remainders self) × FoldedFrom self result }
    {
        Wide {
            u: Fp::folded(self.u),
            v: Fp::folded(self.v),
        }
    }

    // The same element, each part folded once, which leaves small parts. Inner: they are below 2^33 + 2^31.
    pub fn narrowed(self) -> Unreduced
        requires { Under 10737418240 self }
        ensures { remainders result ≡ wide_remainders self }
    {
        Unreduced {
            u: Fp::folded(self.u),
            v: Fp::folded(self.v),
        }
    }
}

// a·b + c·d. Inner: a, b and c are at most 2^31 + 4 and d at most 2·p, so that 64 bits have room for the sum.
fn two_products(a: u64, b: u64, c: u64, d: u64) -> u64
    requires { (a ≤ 2147483652) × (b ≤ 2147483652) × (c ≤ 2147483652) × (d ≤ 4294967294) }
    ensures { (result ≡ a * b + c * d) × (result < 13835058089641902080) }
{
    let first = a * b;
    let second = c * d;
    first + second
}
