//! Cells: the next free one of a block, and whether a block has cells of another class.
//!
//! Called for plans with cells. Reads block words and start words, and writes nothing.

ghost use Rattle.std.specs.Prelude.{◌≡◌, ◌≢◌, ◌+◌, ◌*◌, ◌<◌, ◌⊎◌, ℕ, true, false};
ghost use Rattle.heap_layout.specs.Zones.{block_start, IsRowOf};
ghost use Rattle.heap_layout.specs.declared.block.Kind.TheVariants as kinds;
ghost use Rattle.object_model.specs.Objects.{state_of, class_at, cell_words, is_start, HasKind};
ghost use Rattle.object_model.specs.Lawful.{IsReadableBlock};
ghost use Rattle.sessions.specs.Fitting.{class_for as class_for_size};
ghost use Rattle.block_regions.specs.Regions.{IsCellLeft};

use crate::regions::class_of;
use cell_space::{cell_size, next_cell};
use heap_layout::{BLOCK_BIT_WORDS, BLOCK_WORDS, CLASSES, Kind, Region};
use object_model::Row;
use side_meta::{BITS_PER_WORD, test_bit};

/// Whether an object begins at the offset of the block.
fn is_taken(row: &Row, block: u32, offset: u32) -> bool
    requires extent { IsRowOf row.now.layout row.now.words }
    requires block { block < row.now.layout.blocks }
    requires offset { offset < BLOCK_WORDS }
    ensures { result ≡ is_start (state_of row.now)
        (block_start row.now.layout.blocks block + offset) }
{
    let word = row.layout.start_base() + BLOCK_BIT_WORDS * block + offset / BITS_PER_WORD;
    test_bit(&row.words, word, offset % BITS_PER_WORD)
}

/// The first free cell of the block that begins at or after the offset `from`, where a cell
/// begins, or no words. That cell is tested first: the search for others takes divisions.
pub fn free_cell(row: &Row, block: u32, class: u32, from: u32) -> Region
    requires extent { IsRowOf row.now.layout row.now.words }
    requires kind { HasKind (state_of row.now) block kinds.Cells }
    requires class { class_at (state_of row.now) block ≡ class }
    requires few { class < CLASSES }
    requires from { (from ≡ BLOCK_WORDS)
        ⊎ ((index : ℕ) × (from ≡ index * cell_words class)) }
    ensures { IsCellLeft (state_of row.now) block from result }
{
    let size = cell_size(class);
    if from <= BLOCK_WORDS - size && !is_taken(row, block, from) {
        return Region {
            next: from,
            end: from + size,
        };
    }
    match next_cell(&row.words, &row.layout, block, class, from) {
        Some(next) => Region {
            next,
            end: next + size,
        },
        None => Region {
            next: BLOCK_WORDS,
            end: BLOCK_WORDS,
        },
    }
}

/// Whether the block has cells for objects of other sizes.
pub fn has_other_class(row: &Row, fill: Kind, block: u32, size: u32) -> bool
    requires { IsReadableBlock (state_of row.now) block }
    ensures other { result ≡ true
        → class_at (state_of row.now) block ≢ class_for_size fill size }
    ensures suits { result ≡ false → HasKind (state_of row.now) block fill
        → class_at (state_of row.now) block ≡ class_for_size fill size }
{
    let word = row.block(block);
    word.kind == fill && word.class != class_of(fill, size)
}
