// The factors of a key that edition 1 has no place for.
ghost use Rattle.std.specs.Prelude.{◌≡◌, length, get_or};
ghost use Rattle.key.specs.Indexed.{IsAccepted};
ghost use Rattle.editions.specs.Move.{has_other_factor, other_factors};

use records::Record;

// The offset of the first call whose factor isn't 1; the key's length where there is none. Inner: the key is accepted, so that each record
// can be taken.
pub(crate) fn first_other(key: &[u8]) -> usize
    requires { IsAccepted key.now }
    ensures { result ≡ get_or (other_factors key.now) 0 (length key.now) }
{
    let len = key.len();
    if !indexed::scaled(key) {
        return len;
    }
    let mut at = 0;
    // by the offset, since records have no width in common
    while at < len {
        let (item, next) = records::take(key, at).unwrap();
        if has_other(item) {
            return at;
        }
        at = next;
    }
    len
}

// Whether a record is a call with a factor other than 1.
fn has_other(item: Record) -> bool
    ensures { result ≡ has_other_factor item }
{
    match item {
        Record::ScaledCall(call) => call.factor != 1,
        _ => false,
    }
}
