//! A heap's row of words, and how objects, globals and blocks are read and written in it.

ghost use Rattle.std.specs.Prelude.{◌≡◌, ◌≢◌, ◌+◌, ◌<◌, ◌≤◌, length, slice_set};

use crate::bits::bit_spec;
use crate::object_words::{BIRTH_UNIT, write_words};
use crate::shape::{HEADER_WORDS, NUMS_UNIT, Shape};
use heap_layout::{BlockWord, GLOBALS, Layout, decode, encode};
use ideal_heap::{MAX_NUMS, MAX_REFS, Name};
use shared_row::WordRow;
use side_meta::{clear, set, test};

/// A heap as plain data, for code that edits words and restores the invariants itself.
///
/// An address is the index of a word. An object has its name at its address, then its shape, the
/// collector word, its references and its numbers, one word each.
#[derive(Debug, Drop)]
pub struct Row {
    /// The words: side metadata first, the heap last.
    pub words: WordRow,
    /// Where each zone begins, in words.
    pub layout: Layout,
    /// The number of the last collection, 0 before the first.
    pub number: u64,
    /// The number of the last full collection that reclaimed, 0 before the first.
    pub base: u64,
}

impl Row {
    ghost use Rattle.heap_layout.specs.Zones.{first, row_words, IsAddress, Globals, BlockWords};
    ghost use Rattle.heap_layout.specs.Blocks.{code_of, IsValidWord};
    ghost use Rattle.ideal_heap.specs.Names.{IsName};
    ghost use Rattle.object_model.specs.Objects.{state_of, with_words, IsHeld, is_pinned, size_of, name_at, refs_at, nums_at, ref_at as ref_word_at, num_at as num_word_at, global_at, block_word};
    ghost use Rattle.object_model.specs.Lawful.{IsWellFormed, IsReadable, IsReadableBlock, IsRefField, IsRoot};
    ghost use Rattle.object_model.specs.Changes.{WritesObject, SetsPin};

    /// The name of the object at `address`.
    pub fn name_at(&self, address: u32) -> Name
        requires { IsReadable (state_of self.now) address }
        ensures name { result ≡ name_at (state_of self.now) address }
        ensures valid { IsName result }
    {
        let word = self.words.get(address as usize);
        Name {
            mutator: (word % BIRTH_UNIT) as u32,
            birth: (word / BIRTH_UNIT) as u32,
        }
    }

    /// How many references and numbers the object at `address` has, from its shape word.
    pub fn shape_at(&self, address: u32) -> Shape
        requires { IsReadable (state_of self.now) address }
        ensures refs { result.refs ≡ refs_at (state_of self.now) address }
        ensures nums { result.nums ≡ nums_at (state_of self.now) address }
        ensures refs_most { result.refs ≤ MAX_REFS }
        ensures nums_most { result.nums ≤ MAX_NUMS }
    {
        let word = self.words.get(address as usize + 1);
        Shape {
            refs: (word % NUMS_UNIT) as u32,
            nums: (word / NUMS_UNIT) as u32,
        }
    }

    /// Reference `index` of the object at `address`: an address, or 0 for nil.
    pub fn ref_at(&self, address: u32, index: u32) -> u32
        requires order { IsWellFormed (state_of self.now) }
        requires held { IsHeld (state_of self.now) address }
        requires field { index < refs_at (state_of self.now) address }
        ensures value { result ≡ ref_word_at (state_of self.now) address index }
        ensures reference { IsRefField (state_of self.now) result }
    {
        self.words
            .get(address as usize + HEADER_WORDS as usize + index as usize) as u32
    }

    /// Number `index` of the object at `address`.
    pub fn num_at(&self, address: u32, index: u32) -> u64
        requires readable { IsReadable (state_of self.now) address }
        requires field { index < nums_at (state_of self.now) address }
        ensures { result ≡ num_word_at (state_of self.now) address index }
    {
        self.words.get(
            address as usize + HEADER_WORDS as usize + self.refs(address) + index as usize,
        )
    }

    /// A global: an address, or 0 for nil.
    pub fn global(&self, global: u32) -> u32
        requires order { IsWellFormed (state_of self.now) }
        requires global { global < GLOBALS }
        ensures value { result ≡ global_at (state_of self.now) global }
        ensures reference { IsRoot (state_of self.now) result }
    {
        self.words.get(self.layout.global_at(global) as usize) as u32
    }

    /// Sets a global to an address, or to 0 for nil.
    pub fn set_global(&mut self, global: u32, value: u32)
        requires extent { length self.old.words ≡ row_words (state_of self.old).blocks }
        requires global { global < GLOBALS }
        ensures { state_of self.new ≡ with_words (state_of self.old)
            (slice_set self.old.words (first (state_of self.old).blocks Globals + global)
            value) }
    {
        let at = self.layout.global_at(global) as usize;
        self.words.set(at, value as u64);
    }

    /// The kind, class and owner of a block.
    pub fn block(&self, block: u32) -> BlockWord
        requires { IsReadableBlock (state_of self.now) block }
        ensures code { code_of result ≡ block_word (state_of self.now) block }
        ensures valid { IsValidWord result }
    {
        decode(self.words.get(self.layout.block_at(block) as usize)).unwrap()
    }

    /// Sets the word of a block.
    pub fn set_block(&mut self, block: u32, word: &BlockWord)
        requires extent { length self.old.words ≡ row_words (state_of self.old).blocks }
        requires block { block < (state_of self.old).blocks }
        requires valid { IsValidWord word.now }
        ensures { state_of self.new ≡ with_words (state_of self.old)
            (slice_set self.old.words (first (state_of self.old).blocks BlockWords + block)
            (code_of word.now)) }
    {
        let at = self.layout.block_at(block) as usize;
        self.words.set(at, encode(word));
    }

    /// Writes a new object at `address`, with a collector word of 0, nil references and zero
    /// numbers, and sets its start bit. Block words and line bits are left to the caller.
    pub fn write_object(&mut self, address: u32, name: &Name, shape: &Shape)
        requires extent { length self.old.words ≡ row_words (state_of self.old).blocks }
        requires address { IsAddress (state_of self.old).blocks address }
        requires refs { shape.now.refs ≤ MAX_REFS }
        requires nums { shape.now.nums ≤ MAX_NUMS }
        requires room { address + size_of shape.now.refs shape.now.nums
            ≤ row_words (state_of self.old).blocks }
        requires name { IsName name.now }
        ensures written { WritesObject (state_of self.old) (state_of self.new) address name.now
            shape.now.refs shape.now.nums }
    {
        write_words(&mut self.words, address, name, shape);
        let starts = bit_spec(&self.layout, self.layout.start_base());
        set(&mut self.words, &starts, address);
    }

    /// Whether the object at `address` is pinned. No collection moves a pinned object.
    pub fn pinned(&self, address: u32) -> bool
        requires { IsReadable (state_of self.now) address }
        ensures { result ≡ is_pinned (state_of self.now) address }
    {
        let pins = bit_spec(&self.layout, self.layout.pin_base());
        test(&self.words, &pins, address)
    }

    /// Sets or clears the pin bit of an address.
    pub fn set_pinned(&mut self, address: u32, pinned: bool)
        requires extent { length self.old.words ≡ row_words (state_of self.old).blocks }
        requires address { IsAddress (state_of self.old).blocks address }
        ensures { SetsPin (state_of self.old) (state_of self.new) address pinned }
    {
        let pins = bit_spec(&self.layout, self.layout.pin_base());
        if pinned {
            set(&mut self.words, &pins, address);
        } else {
            clear(&mut self.words, &pins, address);
        }
    }

    /// How many references the object at `address` has.
    fn refs(&self, address: u32) -> usize
        requires { IsReadable (state_of self.now) address }
        ensures { result ≡ refs_at (state_of self.now) address }
    {
        (self.words.get(address as usize + 1) % NUMS_UNIT) as usize
    }
}
