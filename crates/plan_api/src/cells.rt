//! The class of a block that is taken for cells, and the search for a free cell in a view.

ghost use Rattle.std.specs.Prelude.{◌≡◌, ◌+◌, ◌*◌, ◌<◌, ◌≤◌, length, MatchOption};
ghost use Rattle.plan_api.specs.Prelude.{Kind, class_for_size, bit_in, IsFirstCell, HasNoClearCell};

use cell_space::class_of;
use heap_layout::{BLOCK_BIT_WORDS, BLOCK_WORDS, Kind, Region};
use object_model::MAX_MEDIUM_WORDS;
use side_meta::BITS_PER_WORD;

/// The class of a Free block taken for an object of `size` words, where mutators fill blocks of the
/// kind `fill`. It is 0 for a kind without cells.
pub fn class_for(fill: Kind, size: u32) -> u32
    ensures { result ≡ class_for_size fill size }
{
    // No branch: a caller's compiler finds the class once, however often it is asked for.
    class_of(size).unwrap_or(0) * u32::from(fill == Kind::Cells)
}

/// Whether the bit is set.
fn is_set(words: &[u64], bit: u32) -> bool
    requires { bit < BITS_PER_WORD * length words.now }
    ensures { result ≡ bit_in words.now bit }
{
    words[(bit / BITS_PER_WORD) as usize] >> (bit % BITS_PER_WORD) & 1 == 1
}

/// The first free cell that begins at or after the offset `from`, in a block with these start bits
/// and cells of `cell_size` words.
pub(crate) fn free_cell(starts: &[u64], cell_size: u32, from: u32) -> Option<Region>
    requires bits { length starts.now ≡ BLOCK_BIT_WORDS }
    requires least { 4 ≤ cell_size }
    requires most { cell_size ≤ MAX_MEDIUM_WORDS }
    ensures { MatchOption result (HasNoClearCell starts.now cell_size from)
        (λ r. IsFirstCell starts.now cell_size from r.next × (r.end ≡ r.next + cell_size)) }
{
    for index in from.div_ceil(cell_size)..BLOCK_WORDS / cell_size {
        let at = index * cell_size;
        if !is_set(starts, at) {
            return Some(Region {
                next: at,
                end: at + cell_size,
            });
        }
    }
    None
}
