// The table of the arrays' offsets.
ghost use Rattle.std.specs.Prelude.{◌≡◌, ◌<◌, length, set};

// Stores the offset of array i. Inner: the table has a place for it.
pub(crate) fn put(starts: &mut [u16], i: usize, at: u16)
    requires { i < length starts.old }
    ensures { starts.new ≡ set starts.old i at }
{
    starts[i] = at;
}
