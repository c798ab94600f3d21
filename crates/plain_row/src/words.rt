//! Loads and stores of single words and bits of the row.
//!
//! Called by the steps. Writes one word of `row`, or a flag. The caller knows what the word means:
//! a field, a number, a global, a bit for unlogged or pinned objects, the stop word or the budget
//! word. Never touches notes, seats or mutators.

ghost use Rattle.std.specs.Prelude.{◌≡◌, ◌+◌, ◌-◌, ◌/◌, ◌%◌, ◌<◌, ◌≤◌, length, slice_index};
ghost use Rattle.heap_layout.specs.Zones.{UnlogBits, heap_of, block_at, IsAddress, IsRowOf};
ghost use Rattle.object_model.specs.BitWords.{bit_word, bit_place};
ghost use Rattle.side_meta.specs.BitWords.{with_bit, without_bit};
ghost use Rattle.plain_row.specs.Rows.{IsTurn, address_at};
ghost use Rattle.plain_row.specs.Changes.{StoresWord, SetsFlag};

use crate::plain_row::PlainRow;
use heap_layout::BLOCK_WORDS;
use ideal_heap::REGISTERS;
use object_model::{HEADER_WORDS, Shape};
use side_meta::BITS_PER_WORD;

impl PlainRow {
    /// Stores a word.
    pub(crate) fn store(&mut self, at: usize, value: u64)
        requires { at < length self.old.row.words }
        ensures { StoresWord self.old self.new at value }
    {
        self.row.words.set(at, value);
    }

    /// The index of the word with the bit of an address, in a zone that has a bit for each word of
    /// the heap, and the position of the bit in the word.
    pub(crate) fn bit_at(&self, zone: u32, address: u32) -> (u32, u32)
        requires address { IsAddress self.now.row.layout.blocks address }
        requires zone { zone ≤ heap_of self.now.row.layout.blocks }
        ensures word { result.0
            ≡ zone + (address - heap_of self.now.row.layout.blocks) / BITS_PER_WORD }
        ensures bit { result.1 ≡ (address - heap_of self.now.row.layout.blocks) % BITS_PER_WORD }
    {
        let index = address - self.row.layout.heap_base();
        (zone + index / BITS_PER_WORD, index % BITS_PER_WORD)
    }

    /// Sets a bit of a word.
    pub(crate) fn set_bit(&mut self, at: u32, bit: u32)
        requires word { at < length self.old.row.words }
        requires bit { bit < BITS_PER_WORD }
        ensures { StoresWord self.old self.new at
            (with_bit (slice_index self.old.row.words at) bit) }
    {
        side_meta::set_bit(&mut self.row.words, at, bit);
    }

    /// Clears a bit of a word.
    pub(crate) fn clear_bit(&mut self, at: u32, bit: u32)
        requires word { at < length self.old.row.words }
        requires bit { bit < BITS_PER_WORD }
        ensures { StoresWord self.old self.new at
            (without_bit (slice_index self.old.row.words at) bit) }
    {
        side_meta::clear_bit(&mut self.row.words, at, bit);
    }

    /// Sets the flag of the block with an address: an object there is to be logged.
    pub(crate) fn flag_block(&mut self, address: u32)
        requires address { IsAddress self.old.row.layout.blocks address }
        requires flags { length self.old.flags.items ≡ self.old.row.layout.blocks }
        ensures { SetsFlag self.old self.new (block_at self.old.row.layout.blocks address) }
    {
        let block = (address - self.row.layout.heap_base()) / BLOCK_WORDS;
        self.flags[block as usize] = true;
    }

    /// Clears the unlog bit of an address.
    pub(crate) fn clear_unlog(&mut self, address: u32)
        requires extent { IsRowOf self.old.row.layout self.old.row.words }
        requires address { IsAddress self.old.row.layout.blocks address }
        ensures { StoresWord self.old self.new
            (bit_word self.old.row.layout.blocks UnlogBits address)
            (without_bit (slice_index self.old.row.words
            (bit_word self.old.row.layout.blocks UnlogBits address))
            (bit_place self.old.row.layout.blocks address)) }
    {
        write_barrier::log(&mut self.row.words, &self.row.layout, address);
    }

    /// The index of reference field `i` of the object in register `s`.
    pub(crate) fn field(&self, s: u32, i: u32) -> usize
        requires turn { IsTurn self.now }
        requires register { s < REGISTERS }
        ensures { result ≡ address_at self.now s + HEADER_WORDS + i }
    {
        self.register(s) as usize + HEADER_WORDS as usize + i as usize
    }

    /// The index of number `j` of the object in register `s`, whose shape is `shape`.
    pub(crate) fn number_word(&self, s: u32, j: u32, shape: &Shape) -> usize
        requires turn { IsTurn self.now }
        requires register { s < REGISTERS }
        ensures { result ≡ address_at self.now s + HEADER_WORDS + shape.now.refs + j }
    {
        let address = self.register(s);
        address as usize + HEADER_WORDS as usize + shape.refs as usize + j as usize
    }
}
