//! What a mutator notes for itself.

ghost use Rattle.std.specs.Prelude.{◌≡◌, IfOk, slice_set, true};
ghost use Rattle.mutator_rule.specs.FirstNotes.{AreFirstNotes};
ghost use Rattle.mutator_rule.specs.Seats.{KeepsKnown};

use crate::seat::MutatorSeat;
use block_regions::{BlockNote, copies};
use heap_layout::{BLOCK_WORDS, CLASSES};
use local_allocators::LocalSeat;
use std::alloc::{AllocError, Global};

/// What a mutator notes for itself in an epoch.
#[derive(Drop)]
pub struct SeatNotes {
    /// For each block, whether the mutator logged an object in it.
    pub flags: Vec<bool>,
    /// For each block, what the mutator knows of its room.
    pub blocks: Vec<BlockNote>,
    /// Its ticket, and the blocks that it allocates in.
    pub local: LocalSeat,
    /// The number of Free blocks that mutators may take in the epoch.
    pub allowance: u32,
}

/// The notes of a mutator as an epoch begins: it has no block and no ticket, logged nothing, and
/// knows of each block that no hole is larger than a block.
pub(crate) fn first_notes(
    alloc: Global,
    blocks: u32,
    allowance: u32,
) -> Result<SeatNotes, AllocError>
    ensures { IfOk result (λ notes. AreFirstNotes blocks allowance notes) }
{
    let unknown = BlockNote::Unowned {
        least: BLOCK_WORDS + 1,
    };
    let flags = copies(alloc, false, blocks as usize)?;
    let blocks = copies(alloc, unknown, blocks as usize)?;
    let local = LocalSeat {
        ticket: None,
        blocks: [None; CLASSES],
        over: None,
    };
    Ok(SeatNotes {
        flags,
        blocks,
        local,
        allowance,
    })
}

impl MutatorSeat {
    /// Sets the flag of a block, if the heap has it.
    #[inline(always)]
    pub fn set_flag(&mut self, block: usize)
        ensures known { KeepsKnown self.old self.new }
        ensures rest { self.new.notes ≡ record self.old.notes { flags = self.new.notes.flags } }
        ensures flags { self.new.notes.flags.items
            ≡ slice_set self.old.notes.flags.items block true }
    {
        if block < self.notes.flags.len() {
            self.notes.flags[block] = true;
        }
    }

    /// Notes this of a block, if the heap has it.
    #[inline(always)]
    pub fn note_block(&mut self, block: u32, note: BlockNote)
        ensures known { KeepsKnown self.old self.new }
        ensures rest { self.new.notes ≡ record self.old.notes { blocks = self.new.notes.blocks } }
        ensures blocks { self.new.notes.blocks.items
            ≡ slice_set self.old.notes.blocks.items block note }
    {
        if (block as usize) < self.notes.blocks.len() {
            self.notes.blocks[block as usize] = note;
        }
    }

    /// Notes the ticket, and the blocks that the mutator allocates in.
    #[inline(always)]
    pub fn note_local(&mut self, local: LocalSeat)
        ensures known { KeepsKnown self.old self.new }
        ensures notes { self.new.notes ≡ record self.old.notes { local = local } }
    {
        self.notes.local = local;
    }
}
