// An accepted key whose arrays are indexed: its edition, the shape of an array and where its entries end, and how much there is to weigh.
#![tactic(auto)]

pub mod work;

ghost use Rattle.std.specs.Prelude.{◌≡◌, ◌+◌, ◌<◌, ◌≤◌, length, get_or, take, true, false};
ghost use Rattle.arrays.specs.Arrays.{array_at};
ghost use Rattle.key.specs.Indexed.{IsAccepted, Indexed, Sparse, Recursive, shape_at, bits_at};
ghost use Rattle.key.specs.KeyArrays.{key_arrays, key_scaled};
ghost use Rattle.key.proofs.IndexedOnce.{Indexed-prop};
ghost use Rattle.indexed.specs.Entries.{behind, between};

use records::Shape;

// An accepted key, with the offset of each of its arrays.
#[derive(Clone, Copy)]
pub struct IndexedKey<'a> {
    pub bytes: &'a [u8],
    pub starts: &'a [u16],
    pub ghost indexed: { Indexed bytes.now starts.now } by { Indexed-prop bytes.now starts.now },
    pub ghost counted: { length starts.now ≡ length (key_arrays bytes.now) },
}

impl<'a> IndexedKey<'a> {
    // The key with the offsets that a table begins with. Inner: the key is accepted, these are those of its arrays, and it has so many.
    pub fn new(bytes: &'a [u8], starts: &'a [u16], arrays: usize) -> IndexedKey<'a>
        requires indexed { Indexed bytes.now starts.now }
        requires counted { arrays ≡ length (key_arrays bytes.now) }
        ensures bytes { result.bytes.now ≡ bytes.now }
        ensures starts { result.starts.now ≡ take arrays starts.now }
    {
        IndexedKey {
            bytes,
            starts: &starts[..arrays],
        }
    }

    // How many arrays it has.
    pub fn arrays(&self) -> usize
        ensures count { result ≡ length (key_arrays self.now.bytes.now) }
        ensures few { result ≤ 1024 }
    {
        self.starts.len()
    }

    // Whether the key is of edition 2.
    pub fn scaled(&self) -> bool
        ensures { result ≡ key_scaled self.now.bytes.now }
    {
        scaled(self.bytes)
    }

    // The offset of array i's opening, which lies in the key. Inner: there is such an array.
    pub fn opening(&self, i: usize) -> usize
        requires { i < length (key_arrays self.now.bytes.now) }
        ensures offset { result ≡ get_or self.now.starts.now i 0 }
        ensures inside { result + 3 ≤ length self.now.bytes.now }
        ensures short { length self.now.bytes.now ≤ 65536 }
    {
        self.starts[i] as usize
    }

    // The offset behind array i's entries: that of the next opening or of the end. Inner: there is such an array.
    pub fn behind(&self, i: usize) -> usize
        requires { i < length (key_arrays self.now.bytes.now) }
        ensures { result ≡ behind self.now.bytes.now i }
    {
        match self.starts.get(i + 1) {
            Some(next) => *next as usize,
            None => self.bytes.len() - 1,
        }
    }

    // The bytes of array i's entries, which stand between its opening and what is behind them. Inner: there is such an array.
    pub fn entries(&self, i: usize) -> &'a [u8]
        requires { i < length (key_arrays self.now.bytes.now) }
        ensures bytes { result.now ≡ between self.now.bytes.now (get_or self.now.starts.now i 0 + 3) (behind self.now.bytes.now i) }
        ensures short { length result.now + 3 ≤ 65536 }
    {
        let from = self.opening(i) + 3;
        let to = self.behind(i);
        &self.bytes[from..to]
    }

    // Whether array i is sparse, by its opening's kind. Inner: there is such an array.
    pub fn sparse(&self, i: usize) -> bool
        requires { i < length (key_arrays self.now.bytes.now) }
        ensures sparse { result ≡ true → Sparse (array_at (key_arrays self.now.bytes.now) i).entries }
        ensures recursive { result ≡ false → Recursive (array_at (key_arrays self.now.bytes.now) i).entries }
    {
        self.bytes[self.opening(i)] == 2
    }

    // The shape of array i: the two bytes behind its opening's kind. Inner: there is such an array.
    pub fn shape(&self, i: usize) -> Shape
        requires { i < length (key_arrays self.now.bytes.now) }
        ensures { result ≡ shape_at (key_arrays self.now.bytes.now) i }
    {
        rules::shape_at(self.bytes, self.starts, i)
    }

    // How many row bits and column bits array i has together. Inner: there is such an array.
    pub fn bits(&self, i: usize) -> usize
        requires { i < length (key_arrays self.now.bytes.now) }
        ensures sum { result ≡ bits_at (key_arrays self.now.bytes.now) i }
        ensures few { result ≤ 60 }
    {
        let own = self.shape(i);
        own.rows as usize + own.columns as usize
    }
}

// Whether the key is of edition 2, by its first byte. Inner: the key is accepted.
pub fn scaled(key: &[u8]) -> bool
    requires { IsAccepted key.now }
    ensures { result ≡ key_scaled key.now }
{
    key[0] == 7
}
