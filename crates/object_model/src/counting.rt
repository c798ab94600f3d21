//! Counts of what a heap holds.

ghost use Rattle.object_model.specs.Heaps.{heap_state};

use crate::heap::Heap;
use crate::shape::size_words;
use heap_layout::{BLOCK_BIT_WORDS, Kind};
use side_meta::BITS_PER_WORD;

impl Heap {
    ghost use Rattle.std.specs.Prelude.{◌≡◌, ◌*◌, ◌^◌, ◌<◌, length, sum_by};
    ghost use Rattle.std.specs.List.{range_with_len};
    ghost use Rattle.object_model.specs.Objects.{is_start, size_at, has_kind};
    ghost use Rattle.object_model.specs.BitWords.{address_of};
    ghost use Rattle.object_model.specs.Counting.{held_in, count_words_at, kind_count};
    ghost use Rattle.object_model.specs.Times.{one_if};

    /// The number of objects that are held, and their words. It reads the start bits, 64 at a time,
    /// and the shapes of the objects.
    pub fn held_count(&self) -> (u32, u64)
        ensures objects { result.0 ≡ length (held_in (heap_state self.now)) }
        ensures words { result.1 ≡ count_words_at (heap_state self.now)
            (held_in (heap_state self.now)) }
    {
        let mut objects: u32 = 0;
        let mut words: u64 = 0;
        for index in 0..BLOCK_BIT_WORDS * self.layout().blocks() {
            let (more, more_words) = self.count_starts(index);
            objects += more;
            words += more_words as u64;
        }
        (objects, words)
    }

    /// The number of blocks of a kind.
    pub fn kind_count(&self, kind: Kind) -> u32
        ensures { result ≡ kind_count (heap_state self.now) kind }
    {
        let mut count: u32 = 0;
        for block in 0..self.layout().blocks() {
            if self.block_has(block, kind) {
                count += 1;
            }
        }
        count
    }

    /// Whether a block has this kind.
    fn block_has(&self, block: u32, kind: Kind) -> bool
        requires { block < (heap_state self.now).blocks }
        ensures { result ≡ has_kind (heap_state self.now) block kind }
    {
        self.block(block).kind == kind
    }

    /// The number of objects that begin at the 64 addresses of word `index` of start bits, and
    /// their words.
    fn count_starts(&self, index: u32) -> (u32, u32)
        requires { index < 64 * (heap_state self.now).blocks }
        ensures objects { result.0 ≡ sum_by (λ j. one_if (is_start (heap_state self.now)
            (address_of (heap_state self.now) index j))) (range_with_len 0 64) }
        ensures words { result.1 ≡ sum_by (λ j. one_if (is_start (heap_state self.now)
            (address_of (heap_state self.now) index j))
            * size_at (heap_state self.now) (address_of (heap_state self.now) index j))
            (range_with_len 0 64) }
        ensures few { result.1 < 2 ^ 32 }
    {
        let first = self.layout().heap_base() + BITS_PER_WORD * index;
        let mut rest = self
            .words()
            .get((self.layout().start_base() + index) as usize);
        let mut objects: u32 = 0;
        let mut words: u32 = 0;
        while rest != 0 {
            let bit = rest.trailing_zeros();
            rest &= !(1u64 << bit);
            objects += 1;
            words += size_words(&self.shape_at(first + bit));
        }
        (objects, words)
    }
}
