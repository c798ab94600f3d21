//! Where the parts of a row begin. Behind the globals each zone has as many words for each block.

use crate::layout::{BLOCK_BIT_WORDS, BLOCK_LINE_BIT_WORDS, BLOCK_WORDS, GLOBALS};

/// The index of the first global. The stop word and the budget word come before it.
pub(crate) const FIRST_GLOBAL: u32 = 2;

/// The index of the first block word.
pub(crate) const FIRST_BLOCK_WORD: u32 = FIRST_GLOBAL + GLOBALS;

/// The words of a block in the zones before the start bits: its block word and its line bits.
pub(crate) const WORDS_BEFORE_STARTS: u32 = 1 + BLOCK_LINE_BIT_WORDS;

/// The words of a block in the zones before the pin bits.
pub(crate) const WORDS_BEFORE_PINS: u32 = WORDS_BEFORE_STARTS + BLOCK_BIT_WORDS;

/// The words of a block in the zones before the unlog bits.
pub(crate) const WORDS_BEFORE_UNLOGS: u32 = WORDS_BEFORE_PINS + BLOCK_BIT_WORDS;

/// The words of a block in all zones of side metadata.
pub(crate) const METADATA_WORDS: u32 = WORDS_BEFORE_UNLOGS + BLOCK_BIT_WORDS;

/// The words of a block in all zones: side metadata, and its own words.
pub(crate) const ROW_WORDS: u32 = METADATA_WORDS + BLOCK_WORDS;
