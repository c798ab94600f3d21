//! The places of a map, and the words of the heap that they have for themselves.

ghost use Rattle.std.specs.Prelude.{◌≡◌, ◌+◌, ◌^◌, ◌≤◌, ◌<◌, ℕ, ◌&&◌, ◌||◌, true, false, length, nat_le, nat_lt, slice_index_or, OnOk, OnErr};
ghost use Rattle.heap_picture.specs.Marks.{MarksBlocks, MarksWords, first_word as begins, room_words as has_room};
ghost use Rattle.session_counts.specs.Sizes.{shared_blocks as has_shared};

use crate::forms::Place;
use heap_layout::BLOCK_WORDS;
use object_model::MAX_MEDIUM_WORDS;
use std::alloc::{AllocError, Global};

/// The places of a map, in the order of its lines, and for each word of the heap whether one of
/// them has it for itself, and for each block whether it has a small or medium object.
#[derive(Drop)]
pub struct Places {
    pub(crate) items: Vec<Place>,
    taken: Vec<bool>,
    used: Vec<bool>,
    ghost marks: { MarksWords items.items taken.items },
    ghost blocks: { MarksBlocks items.items used.items },
}

// The first word of a place, counted from word 0 of block 0 on.
fn first_word(place: &Place) -> usize
    ensures { result ≡ begins place.now }
{
    (u64::from(place.block) * u64::from(BLOCK_WORDS) + u64::from(place.word)) as usize
}

// How many words an object of this size has for itself: a large one has all those of its blocks.
fn room_words(size: u32) -> usize
    ensures room { result ≡ has_room size }
    ensures few { result < 2 ^ 33 }
{
    if size <= MAX_MEDIUM_WORDS {
        size as usize
    } else {
        let blocks = (u64::from(size) + 4095) / u64::from(BLOCK_WORDS);
        (u64::from(BLOCK_WORDS) * blocks) as usize
    }
}

// How many blocks a small or medium object of this size has, which it shares with others.
fn shared_blocks(size: u32) -> usize
    ensures { result ≡ has_shared size }
{
    if size <= MAX_MEDIUM_WORDS { 1 } else { 0 }
}

// Whether none of the words from `from` to before `end` is taken.
fn are_free(taken: &[bool], from: usize, end: usize) -> bool
    ensures free { result ≡ true → (i : ℕ) → from ≤ i → i < end
        → slice_index_or taken.now i false ≡ false }
    ensures taken { result ≡ false → (i : ℕ) × (from ≤ i) × (i < end)
        × (slice_index_or taken.now i false ≡ true) }
{
    for k in from..end.min(taken.len()) {
        if taken[k] {
            return false;
        }
    }
    true
}

// Adds words that are not taken, until there are `end` words at least.
fn reach(taken: &mut Vec<bool>, end: usize) -> Result<(), AllocError>
    ensures far { OnOk result (end ≤ length taken.new.items) }
    ensures same { (i : ℕ) → slice_index_or taken.new.items i false
        ≡ slice_index_or taken.old.items i false }
{
    while taken.len() < end {
        taken.push(false)?;
    }
    Ok(())
}

// Takes the words from `from` to before `end`.
fn mark(taken: &mut [bool], from: usize, end: usize)
    requires order { from ≤ end }
    requires within { end ≤ length taken.old }
    ensures { (i : ℕ) → slice_index_or taken.new i false
        ≡ (slice_index_or taken.old i false || nat_le from i && nat_lt i end) }
{
    for k in from..end {
        taken[k] = true;
    }
}

impl Places {
    ghost use Rattle.std.specs.Prelude.{◌≡◌, ◌++◌, ◌∷◌, [], OnOk};
    ghost use Rattle.heap_picture.specs.Reading.{is_free as leaves_free, new_blocks as blocks_with};

    /// No places.
    pub(crate) fn new(alloc: Global) -> Places
        ensures { result.items.items ≡ [] }
    {
        Places {
            items: Vec::new(alloc),
            taken: Vec::new(alloc),
            used: Vec::new(alloc),
        }
    }

    /// Whether no other has a word that the place has for itself.
    pub(crate) fn is_free(&self, place: &Place) -> bool
        ensures { result ≡ leaves_free self.now.items.items place.now }
    {
        let from = first_word(place);
        let room = room_words(place.size);
        are_free(&self.taken, from, from + room)
    }

    /// How many more blocks of small and medium objects there are with the place.
    pub(crate) fn new_blocks(&self, place: &Place) -> u64
        ensures { result ≡ blocks_with self.now.items.items place.now }
    {
        if self
            .used
            .get(place.block as usize)
            .copied()
            .unwrap_or(false)
        {
            0
        } else {
            shared_blocks(place.size) as u64
        }
    }

    /// Adds a place.
    pub(crate) fn push(&mut self, place: Place) -> Result<(), AllocError>
        ensures { OnOk result (self.new.items.items ≡ self.old.items.items ++ place ∷ []) }
    {
        let from = first_word(&place);
        let end = from + room_words(place.size);
        let block = place.block as usize;
        let after = block + shared_blocks(place.size);
        reach(&mut self.taken, end)?;
        reach(&mut self.used, after)?;
        self.items.push(place)?;
        mark(&mut self.taken, from, end);
        mark(&mut self.used, block, after);
        Ok(())
    }
}
