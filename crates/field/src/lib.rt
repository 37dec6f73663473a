// The field of p = 2147483647 elements (01, 'The field'): the element's type with its operations, and the public calls on
// two numbers.
#![tactic(auto)]

mod fp;

ghost use Rattle.std.specs.Prelude.{◌≡◌, ℕ};
ghost use Rattle.refusal.specs.Outcome.{outcome_of};
ghost use Rattle.field.specs.Fp.{fp};
ghost use Rattle.field.specs.Answer.{answer_outcome, operated};

pub use fp::Fp;
use refusal::{Reason, Refusal};

// The sum of two numbers of the field.
pub fn sum(a: u32, b: u32) -> Result<Fp, Refusal>
    ensures { answer_outcome result ≡ operated fp.add a b }
{
    let (x, y) = operands(a, b)?;
    Ok(x.add(y))
}

// The difference of two numbers of the field, the first less the second.
pub fn difference(a: u32, b: u32) -> Result<Fp, Refusal>
    ensures { answer_outcome result ≡ operated fp.sub a b }
{
    let (x, y) = operands(a, b)?;
    Ok(x.sub(y))
}

// The product of two numbers of the field.
pub fn product(a: u32, b: u32) -> Result<Fp, Refusal>
    ensures { answer_outcome result ≡ operated fp.mul a b }
{
    let (x, y) = operands(a, b)?;
    Ok(x.mul(y))
}

// The elements that two numbers are: one that is p or more is refused with its place, the first before the second.
#[tactic(auto, unfolding(crate::specs::Answer::operated))]
fn operands(a: u32, b: u32) -> Result<(Fp, Fp), Refusal>
    ensures { (op : ℕ → ℕ → ℕ) → outcome_of (λ found. op found.0.number found.1.number) result ≡ operated op a b }
{
    if Fp::P <= a {
        return Err(Refusal::new(Reason::OperandTooGreat, 0));
    }
    if Fp::P <= b {
        return Err(Refusal::new(Reason::OperandTooGreat, 1));
    }
    Ok((Fp::new(a), Fp::new(b)))
}
