// How much there is to weigh in a key, and whether weights of limbs are worth what they cost. No answer rests on it.
ghost use Rattle.std.specs.Prelude.{◌≡◌, ◌*◌, ◌<◌, ◌≤◌, ltb, length};
ghost use Rattle.key.specs.KeyArrays.{key_arrays};

use crate::IndexedKey;
use records::read;

// Whether weights of limbs, for so many coordinates, are worth what they cost, where they save so many products: they cost as much as
// about twelve for each coordinate (docs/PERFORMANCE.md). Inner: there are at most 60 coordinates.
pub fn limbs_pay(saved: usize, coordinates: usize) -> bool
    requires { coordinates ≤ 60 }
    ensures { result ≡ ltb (12 * coordinates) saved }
{
    12 * coordinates < saved
}

// About how many products weights of limbs save in a key; 0 for a key below 88 bytes, which has at most seven entries: too few. At most
// eight arrays are looked at, each of which stands for as many, and all where those have less than half of the key's bytes.
pub fn saved(key: &IndexedKey) -> usize
    ensures { result ≤ 1000000000000000 }
{
    if key.bytes.len() < 88 {
        return 0;
    }
    let some = summed(key, key.arrays() / 8 + 1);
    if 2 * some.bytes < key.bytes.len() {
        let all = summed(key, 1);
        return all.saved;
    }
    some.saved
}

// The bytes of some arrays, and about how many products weights of limbs save in them.
#[derive(Clone, Copy)]
struct Sample {
    bytes: usize,
    saved: usize,
}

// The sample of every so many arrays, from the last back, times so many. Inner: so many are 1 to 1,024.
fn summed(key: &IndexedKey, step: usize) -> Sample
    requires { (1 ≤ step) × (step ≤ 1024) }
    ensures { (result.bytes ≤ 1000000000000) × (result.saved ≤ 1000000000000000) }
{
    let mut bytes = 0;
    let mut saved = 0;
    let arrays = key.arrays();
    for back in (0..arrays).step_by(step) {
        let one = of_array(key, arrays - 1 - back);
        bytes += one.bytes;
        saved += one.saved;
    }
    Sample {
        bytes: bytes * step,
        saved: saved * step,
    }
}

// The sample of array i: for each entry as many products as the bits that its first and last entry weigh on average, but for four.
// Inner: there is such an array.
fn of_array(key: &IndexedKey, i: usize) -> Sample
    requires { i < length (key_arrays key.now.bytes.now) }
    ensures { (result.bytes ≤ 65536) × (result.saved ≤ 33423360) }
{
    let entries = key.entries(i);
    let size = entries.len() + 3;
    let own = key.bits(i).saturating_sub(4);
    let call = read::call_size(key.scaled());
    let saved = if key.sparse(i) {
        size / 21 * own
    } else {
        let last = entries.len().saturating_sub(call);
        size / call * ((left_by(key, i, own, entries) + left_by(key, i, own, &entries[last..])) / 2)
    };
    Sample { bytes: size, saved }
}

// How many of so many bits the array leaves that the first call of some bytes calls: none where no such call can be in array i. Inner:
// there are at most 510 bits.
fn left_by(key: &IndexedKey, i: usize, own: usize, bytes: &[u8]) -> usize
    requires i_in_bounds { i < length (key_arrays key.now.bytes.now) }
    requires few { own ≤ 510 }
    ensures { result ≤ 510 }
{
    if bytes.len() < 11 {
        return 0;
    }
    let called = read::call(bytes, 1).id as usize;
    if called < i {
        return own.saturating_sub(key.bits(called));
    }
    0
}
