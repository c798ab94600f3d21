//! A block that its owner gives back.

ghost use Rattle.std.specs.Prelude.{◌≡◌, ◌<◌, ◌≤◌, IsTrue};
ghost use Rattle.heap_layout.specs.Blocks.{is_block_code};
ghost use Rattle.object_model.specs.Objects.{state_of, block_word};
ghost use Rattle.object_model.specs.Lawful.{IsWellFormed};
ghost use Rattle.block_regions.specs.Notes.{HasNotes, IsLeastLeft, GivesBackBlock};

use crate::block_notes::BlockNote;
use heap_layout::{BLOCK_WORDS, Kind, OWNER_UNIT, Region};
use object_model::Row;
use plan_api::Plan;

/// What is noted of a block with this region as it is given back: a hole is no larger than what the
/// region has left. Where mutators fill lines nothing is known of it, and no hole is larger than a
/// block.
fn least_left(fill: Kind, region: &Region) -> u32
    requires order { region.now.next ≤ region.now.end }
    requires inside { region.now.end ≤ BLOCK_WORDS }
    ensures { IsLeastLeft fill region.now result }
{
    if fill == Kind::Immix {
        return BLOCK_WORDS + 1;
    }
    region.end - region.next + 1
}

/// Gives the block back, if a mutator owns it, and relists it.
pub fn give_back_block<P: Plan>(row: &mut Row, notes: &mut Vec<BlockNote>, block: u32)
    requires order { IsWellFormed (state_of row.old) }
    requires block { block < row.old.layout.blocks }
    requires code { IsTrue (is_block_code (block_word (state_of row.old) block)) }
    requires notes { HasNotes P.rules.fill (state_of row.old) notes.old.items }
    ensures { GivesBackBlock P.rules (state_of row.old) (state_of row.new) notes.old.items
        notes.new.items block }
{
    let BlockNote::Owned { region, .. } = notes[block as usize] else {
        return;
    };
    // The word without its owner.
    let at = row.layout.block_at(block) as usize;
    row.words.set(at, row.words.get(at) % OWNER_UNIT);
    P::relist_block(&mut row.words, &row.layout, block);
    notes[block as usize] = BlockNote::Unowned {
        least: least_left(P::alloc_kind(), &region),
    };
}
