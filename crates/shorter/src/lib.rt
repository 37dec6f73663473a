// The shorter of two keys that are the same at a point (02, E6).
#![tactic(auto)]

ghost use Rattle.std.specs.Prelude.{◌≡◌, ◌≤◌, ltb, length};
ghost use Rattle.field.specs.Scalars.{prime};
ghost use Rattle.comparison.specs.AgreementBound.{Agreement, is_same};
ghost use Rattle.comparison.specs.Compare.{compared};
ghost use Rattle.shorter.specs.Shorter.{shorter_key, handed_key, EmptyBeginning, HandedBack};

use compare::Likeness;
use refusal::Which;

// The shorter of the two lent keys itself where compare says "same" at the point, the first on a tie; the empty beginning of the first
// where it says "different" or refuses. Nothing is copied: by `part` the result is the lent key, at its place, or begins where the first key
// does and has no bytes. By `told` it is empty exactly where compare does not say "same", and by `least` it is no longer than either key. The
// sheet is as compare leaves it.
//
// Keys that differ are taken for the same at no more points than `agreement` allows, as for `compare::compare`.
pub fn shorter<'a>(
    first: &'a [u8],
    second: &'a [u8],
    rows: &[u32],
    columns: &[u32],
    sheet: &mut [u32],
) -> &'a [u8]
    ensures part { HandedBack
        (handed_key first.now second.now rows.now columns.now sheet.old)
        first.entry second.entry result }
    ensures sheet { sheet.new ≡
        (compared prime first.now second.now rows.now columns.now sheet.old
        ).sheet }
    ensures told { ltb 0 (length result.now) ≡
        is_same
        (compared prime first.now second.now rows.now columns.now sheet.old
        ).answer }
    ensures least { (length result.now ≤ length first.now) × (length result.now ≤ length second.now) }
    ensures agreement { Agreement prime first.now second.now }
{
    match which(&*first, &*second, rows, columns, sheet) {
        Which::First => first,
        Which::Second => second,
        Which::Neither => empty_beginning(first),
    }
}

// Which key `shorter` hands back whole: `Neither` stands for the empty beginning of the first. The sheet is as compare leaves it.
pub fn which(first: &[u8], second: &[u8], rows: &[u32], columns: &[u32], sheet: &mut [u32]) -> Which
    ensures key { result ≡ handed_key first.now second.now rows.now columns.now sheet.old }
    ensures sheet { sheet.new ≡
        (compared prime first.now second.now rows.now columns.now sheet.old
        ).sheet }
    ensures agreement { Agreement prime first.now second.now }
{
    match compare::compare(&*first, &*second, rows, columns, sheet) {
        Ok(compared) => match compared.likeness {
            Likeness::Same => shorter_of(first, second),
            Likeness::Different => Which::Neither,
        },
        Err(_) => Which::Neither,
    }
}

// The shorter of two keys, the first on a tie.
fn shorter_of(first: &[u8], second: &[u8]) -> Which
    ensures { result ≡ shorter_key first.now second.now }
{
    if second.len() < first.len() {
        Which::Second
    } else {
        Which::First
    }
}

// The empty part that begins where the key does.
fn empty_beginning<'a>(key: &'a [u8]) -> &'a [u8]
    ensures { EmptyBeginning key.entry result }
{
    &key[..0]
}
