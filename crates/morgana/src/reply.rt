// Replies to answers.
ghost use Rattle.std.specs.Prelude.{◌≡◌};
ghost use Rattle.refusal.specs.Number.{number_of};
ghost use Rattle.evaluate.specs.Answer.{evaluated_outcome};
ghost use Rattle.compare.specs.Answer.{compared_answer, compared_factors};
ghost use Rattle.evaluate_quadratic.specs.Answer.{evaluated_outcome as evaluated_quadratic};
ghost use Rattle.locate.specs.Answer.{located_answer};
ghost use Rattle.price.specs.Price.{priced_outcome};
ghost use Rattle.editions.specs.Move.{copied_outcome};
ghost use Rattle.morgana.specs.Reply.{evaluate_reply, quadratic_reply, compare_reply, shorter_reply, no_cell, locate_reply, key_number, price_reply, move_reply};

use crate::{
    CompareReply, EvaluateReply, LocateReply, MoveReply, PriceReply, QuadraticReply, ShorterReply,
};
use compare::{Compared, Likeness};
use evaluate::Counted;
use field::Fp;
use locate::Cell;
use quadratic::Fp2;
use refusal::{PairRefusal, Refusal, Which};

// The reply for an answer of evaluate or cell.
pub(crate) fn of_evaluated(answer: Result<Counted<Fp>, Refusal>) -> EvaluateReply
    ensures { result ≡ evaluate_reply (evaluated_outcome answer) }
{
    match answer {
        Ok(counted) => EvaluateReply {
            number: 0,
            place: 0,
            a: counted.values.a.value(),
            b: counted.values.b.value(),
            c: counted.values.c.value(),
            factors: counted.factors as u64,
        },
        Err(refusal) => EvaluateReply {
            number: number(refusal),
            place: refusal.place as u64,
            a: 0,
            b: 0,
            c: 0,
            factors: 0,
        },
    }
}

// The reply for an answer of evaluate over the field of p² elements.
pub(crate) fn of_quadratic(answer: Result<Counted<Fp2>, Refusal>) -> QuadraticReply
    ensures { result ≡ quadratic_reply (evaluated_quadratic answer) }
{
    match answer {
        Ok(counted) => QuadraticReply {
            number: 0,
            place: 0,
            a_u: counted.values.a.u.value(),
            a_v: counted.values.a.v.value(),
            b_u: counted.values.b.u.value(),
            b_v: counted.values.b.v.value(),
            c_u: counted.values.c.u.value(),
            c_v: counted.values.c.v.value(),
            factors: counted.factors as u64,
        },
        Err(refusal) => QuadraticReply {
            number: number(refusal),
            place: refusal.place as u64,
            a_u: 0,
            a_v: 0,
            b_u: 0,
            b_v: 0,
            c_u: 0,
            c_v: 0,
            factors: 0,
        },
    }
}

// The reply for an answer of compare, over either field.
pub(crate) fn of_compared(answer: Result<Compared, PairRefusal>) -> CompareReply
    ensures { result ≡ compare_reply (compared_answer answer) (compared_factors answer) }
{
    match answer {
        Ok(compared) => {
            let same = match compared.likeness {
                Likeness::Same => 1,
                Likeness::Different => 0,
            };
            CompareReply {
                number: 0,
                place: 0,
                key: 0,
                same,
                factors: compared.factors as u64,
            }
        }
        Err(refused) => CompareReply {
            number: number(refused.refusal),
            place: refused.refusal.place as u64,
            key: key_number(refused.key),
            same: 0,
            factors: 0,
        },
    }
}

// The reply where this one of two keys is handed back whole, or neither.
pub(crate) fn of_shorter(which: Which, first: &[u8], second: &[u8]) -> ShorterReply
    ensures { result ≡ shorter_reply which first.now second.now }
{
    match which {
        Which::First => ShorterReply {
            key: 1,
            length: first.len() as u64,
        },
        Which::Second => ShorterReply {
            key: 2,
            length: second.len() as u64,
        },
        Which::Neither => ShorterReply { key: 0, length: 0 },
    }
}

// The reply for an answer of locate.
pub(crate) fn of_located(answer: Result<Option<Cell>, PairRefusal>) -> LocateReply
    ensures { result ≡ locate_reply (located_answer answer) }
{
    match answer {
        Ok(None) => no_cell(0, 0, 0, 1),
        Ok(Some(cell)) => LocateReply {
            number: 0,
            place: 0,
            key: 0,
            same: 0,
            row: cell.row,
            column: cell.column,
            first_a: cell.first.a.value(),
            first_b: cell.first.b.value(),
            first_c: cell.first.c.value(),
            second_a: cell.second.a.value(),
            second_b: cell.second.b.value(),
            second_c: cell.second.c.value(),
        },
        Err(refused) => {
            let key = key_number(refused.key);
            no_cell(
                number(refused.refusal),
                refused.refusal.place as u64,
                key,
                0,
            )
        }
    }
}

// The reply of locate where no cell is answered.
fn no_cell(number: u32, place: u64, key: u32, same: u32) -> LocateReply
    ensures { result ≡ no_cell number place key same }
{
    LocateReply {
        number: number,
        place: place,
        key: key,
        same: same,
        row: 0,
        column: 0,
        first_a: 0,
        first_b: 0,
        first_c: 0,
        second_a: 0,
        second_b: 0,
        second_c: 0,
    }
}

// The reply for an answer of price.
pub(crate) fn of_priced(answer: Result<usize, Refusal>) -> PriceReply
    ensures { result ≡ price_reply (priced_outcome answer) }
{
    match answer {
        Ok(pence) => PriceReply {
            number: 0,
            place: 0,
            pence: pence as u64,
        },
        Err(refusal) => PriceReply {
            number: number(refusal),
            place: refusal.place as u64,
            pence: 0,
        },
    }
}

// The reply for an answer of the move.
pub(crate) fn of_copied(answer: Result<usize, Refusal>) -> MoveReply
    ensures { result ≡ move_reply (copied_outcome answer) }
{
    match answer {
        Ok(length) => MoveReply {
            number: 0,
            place: 0,
            length: length as u64,
        },
        Err(refusal) => MoveReply {
            number: number(refusal),
            place: refusal.place as u64,
            length: 0,
        },
    }
}

// The number of a refusal.
pub(crate) fn number(refusal: Refusal) -> u32
    ensures { result ≡ number_of refusal.reason }
{
    let reason = refusal.reason;
    reason.number()
}

// The number of the key that a refusal is about.
fn key_number(which: Which) -> u32
    ensures { result ≡ key_number which }
{
    match which {
        Which::First => 1,
        Which::Second => 2,
        Which::Neither => 0,
    }
}
