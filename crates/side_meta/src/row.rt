//! Rows of words.

ghost use Rattle.std.specs.Prelude.{◌≡◌, ℕ, ◌<◌, ◌^◌, List, length, slice_index, slice_set};

use shared_row::WordRow;

/// A row of 64-bit words.
pub trait Words {
    // The words in order.
    ghost words: { Self → List ℕ };

    /// The number of words of the row.
    fn len(&self) -> usize
        ensures { result ≡ length (words self.now) };

    /// The word at an index.
    fn get(&self, index: u32) -> u64
        requires { index < length (words self.now) }
        ensures { result ≡ slice_index (words self.now) index };

    /// Sets the word at an index.
    fn set(&mut self, index: u32, value: u64)
        requires { index < length (words self.old) }
        ensures words { words self.new ≡ slice_set (words self.old) index value }
        ensures fit { (k : ℕ) → slice_index (words self.new) k < 2 ^ 64 };
}

impl Words for Vec<u64> {
    ghost words = { λ v. v.items };

    fn len(&self) -> usize {
        self.as_slice().len()
    }

    fn get(&self, index: u32) -> u64 {
        self[index as usize]
    }

    fn set(&mut self, index: u32, value: u64) {
        self[index as usize] = value;
    }
}

impl Words for WordRow {
    ghost words = { λ row. row };

    fn len(&self) -> usize {
        WordRow::len(self)
    }

    fn get(&self, index: u32) -> u64 {
        WordRow::get(self, index as usize)
    }

    fn set(&mut self, index: u32, value: u64) {
        WordRow::set(self, index as usize, value);
    }
}
