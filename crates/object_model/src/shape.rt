//! How many fields an object has, and how many words it takes.

ghost use Rattle.std.specs.Prelude.{◌≡◌, ◌≢◌, ◌≤◌, Some, IfSome, IfNone};
ghost use Rattle.object_model.specs.Objects.{size_of, shape_code};

use ideal_heap::{MAX_NUMS, MAX_REFS};

/// The most words of a small or medium object, which shares its block with others. A larger object
/// has a run of blocks of its own.
pub const MAX_MEDIUM_WORDS: u32 = 2048;

/// The words of an object's header: its name, its shape and its collector word.
pub const HEADER_WORDS: u32 = 3;

/// How many words after its address the shape word of an object is.
pub const SHAPE_OFFSET: u32 = 1;

/// How many words after its address the collector word of an object is.
pub const COLLECTOR_OFFSET: u32 = 2;

/// The factor of the numbers in a shape word. The references are below it.
pub const NUMS_UNIT: u64 = 65_536;

/// How many references and numbers an object has: at most `MAX_REFS` and `MAX_NUMS`.
#[derive(Clone, Copy, Debug, PartialEq, Eq)]
pub struct Shape {
    /// How many references. They come before the numbers.
    pub refs: u32,
    /// How many plain 64-bit numbers.
    pub nums: u32,
}

/// The size in words of an object: its header, and one word for each field.
pub fn size_words(shape: &Shape) -> u32
    requires refs { shape.now.refs ≤ MAX_REFS }
    requires nums { shape.now.nums ≤ MAX_NUMS }
    ensures { result ≡ size_of shape.now.refs shape.now.nums }
{
    HEADER_WORDS + shape.refs + shape.nums
}

/// The word that encodes a shape: the references in its low 16 bits, the numbers above.
pub fn encode_shape(shape: &Shape) -> u64
    requires refs { shape.now.refs ≤ MAX_REFS }
    requires nums { shape.now.nums ≤ MAX_NUMS }
    ensures { result ≡ shape_code shape.now.refs shape.now.nums }
{
    shape.refs as u64 + NUMS_UNIT * shape.nums as u64
}

/// The shape that a word encodes. None if no shape within the limits has that code.
pub fn decode_shape(code: u64) -> Option<Shape>
    ensures some { IfSome result (λ s. (s.refs ≤ MAX_REFS) × (s.nums ≤ MAX_NUMS)
        × (shape_code s.refs s.nums ≡ code)) }
    ensures none { IfNone result ((s : Shape) → s.refs ≤ MAX_REFS → s.nums ≤ MAX_NUMS
        → shape_code s.refs s.nums ≢ code) }
    ensures back { (s : Shape) → s.refs ≤ MAX_REFS → s.nums ≤ MAX_NUMS
        → shape_code s.refs s.nums ≡ code → result ≡ Some s }
{
    let refs = code % NUMS_UNIT;
    let nums = code / NUMS_UNIT;
    if refs > u64::from(MAX_REFS) || nums > u64::from(MAX_NUMS) {
        return None;
    }
    Some(Shape {
        refs: refs as u32,
        nums: nums as u32,
    })
}
