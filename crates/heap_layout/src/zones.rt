//! Laws of zones, blocks and offsets.

ghost use Rattle.std.specs.Prelude.{◌≡◌, ℕ, ◌+◌, ◌*◌, ◌<◌, List, slice_index, nat_eq, IsTrue};
ghost use Rattle.std.specs.Int.{bit_at};
ghost use Rattle.heap_layout.specs.Zones.{Zone, InZone, first, row_words, heap_of, IsAddress, block_at, offset_at, block_start, bit_of, address_bit};

use crate::layout::BLOCK_WORDS;

/// Each index of the row lies in exactly one zone, and no zone extends past the end of the row.
pub fn zones_partition()
    ensures cover { (b i : ℕ) → i < row_words b → (z : Zone) × InZone b z i }
    ensures apart { (b i : ℕ) (y z : Zone) → InZone b y i → InZone b z i → y ≡ z }
    ensures inside { (b i : ℕ) (z : Zone) → InZone b z i → i < row_words b }
{}

/// An address lies in exactly one block, at exactly one offset.
pub fn blocks_partition()
    ensures block { (b a : ℕ) → IsAddress b a → block_at b a < b }
    ensures offset { (b a : ℕ) → IsAddress b a → offset_at b a < BLOCK_WORDS }
    ensures sum { (b a : ℕ) → IsAddress b a
        → block_start b (block_at b a) + offset_at b a ≡ a }
    ensures address { (b k w : ℕ) → k < b → w < BLOCK_WORDS
        → IsAddress b (block_start b k + w) }
    ensures same_block { (b k w : ℕ) → w < BLOCK_WORDS
        → block_at b (block_start b k + w) ≡ k }
    ensures same_offset { (b k w : ℕ) → w < BLOCK_WORDS
        → offset_at b (block_start b k + w) ≡ w }
{}

/// Word `i` of a zone has the bits from `64 * i` on. Word `n` of the heap has bit `n` of a zone,
/// and the bit of an index that is no address is not set.
pub fn bits_of_zones()
    ensures bit { (b : ℕ) (z : Zone) (w : List ℕ) (i k : ℕ) → k < 64
        → bit_of b z w (64 * i + k) ≡ nat_eq (bit_at (slice_index w (first b z + i)) k) 1 }
    ensures address { (b : ℕ) (z : Zone) (w : List ℕ) (n : ℕ) → n < BLOCK_WORDS * b
        → address_bit b z w (heap_of b + n) ≡ bit_of b z w n }
    ensures outside { (b : ℕ) (z : Zone) (w : List ℕ) (a : ℕ) → IsTrue (address_bit b z w a)
        → IsAddress b a }
{}
