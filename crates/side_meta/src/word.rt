//! The size of a word.

/// The number of bits of a word.
pub const BITS_PER_WORD: u32 = 64;
