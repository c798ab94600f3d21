//! Size classes of cells.

ghost use Rattle.std.specs.Prelude.{◌≡◌, ◌<◌, ◌≤◌, ◌%◌, ℕ, IfSome, nat_eq, if◌then◌else◌};
ghost use Rattle.std.specs.Int.{bit_at};
ghost use Rattle.object_model.specs.Objects.{cell_words};
ghost use Rattle.sessions.specs.Fitting.{class_of as class_of_size};

use heap_layout::CLASSES;
use object_model::MAX_MEDIUM_WORDS;
use side_meta::BITS_PER_WORD;

/// The size in words of a cell of each class.
const CELL_WORDS: [u32; CLASSES] = [
    4, 6, 8, 12, 16, 24, 32, 48, 64, 96, 128, 192, 256, 384, 512, 768, 1024, 1536, 2048,
];

/// The bits of a word where cells of each class begin, if one begins at bit 0.
const CELL_STARTS: [u64; CLASSES] = [
    0x1111_1111_1111_1111,
    0x1041_0410_4104_1041,
    0x0101_0101_0101_0101,
    0x1001_0010_0100_1001,
    0x0001_0001_0001_0001,
    0x0001_0000_0100_0001,
    0x0000_0001_0000_0001,
    0x0001_0000_0000_0001,
    1,
    1,
    1,
    1,
    1,
    1,
    1,
    1,
    1,
    1,
    1,
];

/// The size in words of a cell of this class.
pub fn cell_size(class: u32) -> u32
    requires { class ≤ 18 }
    ensures words { result ≡ cell_words class }
    ensures least { 4 ≤ result }
    ensures most { result ≤ MAX_MEDIUM_WORDS }
{
    CELL_WORDS[class as usize]
}

/// The bits of a word where cells of this class begin, if one begins at bit 0.
pub(crate) fn cell_starts(class: u32) -> u64
    requires { class ≤ 18 }
    ensures { (n : ℕ) → n < BITS_PER_WORD
        → bit_at result n ≡ (if nat_eq (n % cell_words class) 0 then 1 else 0) }
{
    CELL_STARTS[class as usize]
}

/// The least class whose cells have room for `size` words. `None` above `MAX_MEDIUM_WORDS`.
pub fn class_of(size: u32) -> Option<u32>
    ensures class { result ≡ class_of_size size }
    ensures most { IfSome result (λ class. class ≤ 18) }
{
    if size > MAX_MEDIUM_WORDS {
        return None;
    }
    Some(class_within(size))
}

/// The least class whose cells have room for `size` words. Sizes of cells are powers of two and
/// their halfway points, so the two highest bits of `size - 1` give the class.
fn class_within(size: u32) -> u32
    requires { size ≤ MAX_MEDIUM_WORDS }
    ensures class { class_of_size size ≡ Some result }
    ensures most { result ≤ 18 }
{
    let last = size.max(4) - 1;
    let second = 30 - last.leading_zeros();
    2 * second + (last >> second) - 3
}
