// The field of p² elements u + v·i with i² = -1 (E2): the element's type with its operations.
#![tactic(auto)]

pub mod numbers;
pub mod unreduced;

ghost use Rattle.std.specs.Prelude.{◌≡◌, ◌<◌};
ghost use Rattle.field.specs.Fp.{p};
ghost use Rattle.quadratic.specs.Fp2.{fp2};
ghost use Rattle.quadratic.specs.Parts.{parts};

use field::Fp;
use unreduced::Unreduced;

// An element of the field: u and v of u + v·i.
#[derive(Clone, Copy, PartialEq, Eq)]
pub struct Fp2 {
    pub u: Fp,
    pub v: Fp,
}

impl Fp2 {
    // The element u + v·i. Inner: both numbers are below p.
    pub fn new(u: u32, v: u32) -> Fp2
        requires { (u < p) × (v < p) }
        ensures { parts result ≡ record { u = u; v = v } }
    {
        Fp2 {
            u: Fp::new(u),
            v: Fp::new(v),
        }
    }

    // The element 0.
    pub fn zero() -> Fp2
        ensures { parts result ≡ fp2.nought }
    {
        Fp2 {
            u: Fp::zero(),
            v: Fp::zero(),
        }
    }

    // The element 1.
    pub fn one() -> Fp2
        ensures { parts result ≡ fp2.unit }
    {
        Fp2 {
            u: Fp::one(),
            v: Fp::zero(),
        }
    }

    // The sum.
    pub fn add(self, other: Fp2) -> Fp2
        ensures { parts result ≡ fp2.add (parts self) (parts other) }
    {
        Fp2 {
            u: self.u.add(other.u),
            v: self.v.add(other.v),
        }
    }

    // The difference, this less the other.
    pub fn sub(self, other: Fp2) -> Fp2
        ensures { parts result ≡ fp2.sub (parts self) (parts other) }
    {
        Fp2 {
            u: self.u.sub(other.u),
            v: self.v.sub(other.v),
        }
    }

    // The product: two products for each part, which are reduced together.
    pub fn mul(self, other: Fp2) -> Fp2
        ensures { parts result ≡ fp2.mul (parts self) (parts other) }
    {
        Unreduced::of(self).product(Unreduced::of(other)).element()
    }
}
