//! The blocks of mutators as an epoch ends.

ghost use Rattle.std.specs.Prelude.{◌≡◌, ◌<◌, ℕ, IsTrue};
ghost use Rattle.heap_layout.specs.Blocks.{is_block_code};
ghost use Rattle.heap_layout.specs.Zones.{BlockWords, first};
ghost use Rattle.object_model.specs.Objects.{state_of, block_word, word_at, owner_at, HasKind};
ghost use Rattle.object_model.specs.Lawful.{IsWellFormed};
ghost use Rattle.mutator_core.specs.Closing.{GivesBack};
ghost use Rattle.racing_world.specs.GivingBack.{GivesBackOne};

use heap_layout::OWNER_UNIT;
use object_model::Row;
use plan_api::Plan;

/// Takes the owner off the block, if it has one, and relists the block then.
fn give_back_block<P: Plan>(row: &mut Row, block: u32)
    requires order { IsWellFormed (state_of row.old) }
    requires block { block < row.old.layout.blocks }
    requires code { IsTrue (is_block_code (block_word (state_of row.old) block)) }
    ensures { GivesBackOne P.rules (state_of row.old) (state_of row.new) block }
{
    let at = row.layout.block_at(block) as usize;
    let word = row.words.get(at);
    if word < OWNER_UNIT {
        return;
    }
    row.words.set(at, word % OWNER_UNIT);
    P::relist_block(&mut row.words, &row.layout, block);
}

/// Takes the owners off all blocks, and relists each block that had one.
pub(crate) fn give_back<P: Plan>(row: &mut Row)
    requires order { IsWellFormed (state_of row.old) }
    requires codes { (k : ℕ) → k < row.old.layout.blocks
        → IsTrue (is_block_code (block_word (state_of row.old) k)) }
    requires kinds { (k : ℕ) → k < row.old.layout.blocks → 0 < owner_at (state_of row.old) k
        → HasKind (state_of row.old) k P.rules.fill }
    ensures gives { GivesBack (state_of row.old) (state_of row.new) }
    ensures front { (i : ℕ) → i < first row.old.layout.blocks BlockWords
        → word_at (state_of row.new) i ≡ word_at (state_of row.old) i }
{
    for block in 0..row.layout.blocks() {
        give_back_block::<P>(row, block);
    }
}
