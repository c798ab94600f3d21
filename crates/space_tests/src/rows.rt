//! Words of rows that are written by hand.

ghost use Rattle.std.specs.Prelude.{◌≡◌, length};

/// Sets a word of the row, if there is such a word.
pub(crate) fn put(words: &mut Vec<u64>, index: usize, value: u64)
    ensures { length words.new.items ≡ length words.old.items }
{
    if let Some(word) = words.get_mut(index) {
        *word = value;
    }
}

/// The index of the first word of the row that is not as in the list.
pub(crate) fn first_wrong(words: &[u64], wanted: &[(usize, u64)]) -> Option<usize> {
    for (index, value) in wanted {
        if words.get(*index) != Some(value) {
            return Some(*index);
        }
    }
    None
}
