// Rows of words: as many as there are, in the value itself.
ghost use Rattle.std.specs.Prelude.{◌≡◌, ◌≤◌, length};

use std::ops::DerefSlice;

// The first `len` of at most N words. A row is copied by value.
#[derive(Clone, Copy, Debug, PartialEq, Eq)]
pub struct WordRow<const N: usize> {
    pub words: [u32; N],
    pub len: usize,
    ghost long: { length words ≡ N },
    ghost within: { len ≤ N },
}

// No call has more figures than this.
pub const MOST: usize = 8;

// A call's figures, in the order of its shape.
pub type Figures = WordRow<MOST>;

// A call's words.
pub type Written = WordRow<9>;

impl<const N: usize> WordRow<N> {
    ghost use Rattle.std.specs.Prelude.{◌≡◌, ◌+◌, ◌<◌, [], ◌∷◌, ◌++◌, length};
    ghost use Rattle.words.specs.WordRows.{listed};

    // A row of no words.
    pub fn new() -> WordRow<N>
        ensures words { listed result ≡ [] }
        ensures len { result.len ≡ 0 }
    {
        WordRow {
            words: [0; N],
            len: 0,
        }
    }

    // How many there are.
    pub fn len(&self) -> usize
        ensures { result ≡ length (listed self.now) }
    {
        self.as_slice().len()
    }

    // The words, in order.
    pub fn as_slice(&self) -> &[u32]
        ensures { result.now ≡ listed self.now }
    {
        &self.words[..self.len]
    }

    // One word more, behind the others.
    pub(crate) fn push(&mut self, word: u32)
        requires { self.old.len < N }
        ensures words { listed self.new ≡ listed self.old ++ word ∷ [] }
        ensures len { self.new.len ≡ self.old.len + 1 }
    {
        self.words[self.len] = word;
        self.len += 1;
    }
}

impl<const N: usize> DerefSlice for WordRow<N> {
    ghost use Rattle.std.specs.Prelude.{◌≡◌};
    ghost use Rattle.words.specs.WordRows.{listed};

    type Elem = u32;

    ghost deref_gives = { λ r ws. ws ≡ listed r };

    fn deref(&self) -> &[u32] {
        self.as_slice()
    }
}
