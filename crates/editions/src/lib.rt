// A key moved into the other edition (02, E9).
#![tactic(auto)]

mod copy;
mod factors;

ghost use Rattle.std.specs.Prelude.{◌≡◌, length};
ghost use Rattle.refusal.specs.Outcome.{given};
ghost use Rattle.field.specs.Scalars.{prime};
ghost use Rattle.key.specs.Check.{checked_key};
ghost use Rattle.editions.specs.Move.{copied_outcome, moved_key, moving};
ghost use Rattle.editions.specs.OtherEdition.{Moves};

use key::Counts;
use refusal::{Reason, Refusal};

// The key copied to the start of the buffer, into the edition that its head isn't. The answer is the copy's length, and the bytes behind
// it stay; a refused call leaves the whole buffer.
pub fn moved(key: &[u8], buffer: &mut [u8]) -> Result<usize, Refusal>
    ensures answer { copied_outcome result ≡ (moving key.now buffer.old).answer }
    ensures buffer { buffer.new ≡ (moving key.now buffer.old).buffer }
    ensures copy { Moves prime key.now buffer.old }
{
    let counts = key::check(key)?;
    accepted(key, counts, buffer)
}

// The same of a key that is accepted. Inner: these are its counts.
fn accepted(key: &[u8], counts: Counts, buffer: &mut [u8]) -> Result<usize, Refusal>
    requires { checked_key key.now ≡ given counts }
    ensures answer { copied_outcome result ≡ (moving key.now buffer.old).answer }
    ensures buffer { buffer.new ≡ (moving key.now buffer.old).buffer }
{
    let other = factors::first_other(key);
    if other < key.len() {
        return Err(Refusal::new(Reason::FactorNotOne, other));
    }
    let len = copy_length(key, counts);
    if 65536 < len {
        return Err(Refusal::new(Reason::MovedTooLong, len));
    }
    if buffer.len() < len {
        return Err(Refusal::new(Reason::BufferTooShort, len));
    }
    copy::records(key, buffer);
    Ok(len)
}

// The copy's length: a factor of four bytes more or less for each call. Inner: the key is accepted with these counts.
fn copy_length(key: &[u8], counts: Counts) -> usize
    requires { checked_key key.now ≡ given counts }
    ensures { result ≡ length (moved_key key.now) }
{
    let factors = 4 * counts.calls;
    if indexed::scaled(key) {
        return key.len() - factors;
    }
    key.len() + factors
}
