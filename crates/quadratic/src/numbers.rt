// Elements among numbers: element i is made of the numbers 2i and 2i + 1, u first.
ghost use Rattle.std.specs.Prelude.{◌≡◌, suc, ◌*◌, ◌≤◌, length};
ghost use Rattle.std.proofs.lemmas.List.Edits.{sets};
ghost use Rattle.field.specs.Scalars.{element_at};
ghost use Rattle.quadratic.specs.Fp2.{Reduced};
ghost use Rattle.quadratic.specs.Parts.{parts};
ghost use Rattle.quadratic.specs.Quadratic.{quadratic};

use crate::Fp2;

// Element i. Inner: there are numbers for it, both below p.
pub fn element(numbers: &[u32], i: usize) -> Fp2
    requires { (2 * suc i ≤ length numbers.now) × Reduced (element_at quadratic numbers.now i) }
    ensures { parts result ≡ element_at quadratic numbers.now i }
{
    let at = 2 * i;
    Fp2::new(numbers[at], numbers[at + 1])
}

// Stores an element as element i. Inner: there are places for it.
pub fn store(numbers: &mut [u32], i: usize, x: Fp2)
    requires { 2 * suc i ≤ length numbers.old }
    ensures { numbers.new ≡ sets numbers.old (2 * i) (quadratic.numbers (parts x)) }
{
    let at = 2 * i;
    numbers[at] = x.u.value();
    numbers[at + 1] = x.v.value();
}
