//! Blocks to copy into.

ghost use Rattle.std.specs.Prelude.{◌≡◌, ◌≢◌, ℕ, ◌+◌, ◌<◌, ◌≤◌, IsTrue, false, IfSome, IfNone};
ghost use Rattle.heap_layout.specs.declared.block.Kind.TheVariants as kinds;
ghost use Rattle.object_model.specs.Times.{times};
ghost use Rattle.object_model.specs.declared.shape.TheConstants.{MAX_MEDIUM_WORDS};
ghost use Rattle.trace_core.specs.Setups.{blocks};
ghost use Rattle.trace_words.specs.Shares.{takes_at_any_time};
ghost use Rattle.trace_words.specs.Steps.{SawNoneFree};
ghost use Rattle.trace_table.specs.Seats.{IsTable, IsSeat, setup_at, Looks, SameRoom, SameBlock, TakesLowest};

use crate::table::{TraceTable, WorkerSeat};
use heap_layout::{BLOCK_WORDS, BlockWord, FIRST_WORKER_OWNER, encode};
use std::marker::Brand;
use trace_words::{About, look_at_block, take_block, take_block_at_any_time};

impl TraceTable {
    /// Takes the lowest Free block to copy into, and gives up the rest of the last one. `None` if
    /// no block is Free.
    pub fn take_copy_block(&self, seat: &mut WorkerSeat) -> Option<u32>
        requires table { IsTable self.now }
        requires seat { IsSeat self.now seat.old }
        requires copies { (setup_at self.now).copy ≢ kinds.Free }
        ensures seat { IsSeat self.now seat.new }
        ensures takes { IfSome result (λ b. TakesLowest (setup_at self.now) seat.old.seat.me.0
            seat.new.seat.me.0 b) }
        ensures none { IfNone result (SawNoneFree (setup_at self.now) seat.new.seat.me.0) }
        ensures looks { IfNone result (Looks seat.old.seat.me.0 seat.new.seat.me.0) }
        ensures room { IfNone result (SameRoom seat.old.seat.me.0 seat.new.seat.me.0) }
    {
        let lowest = seat.next_block;
        for block in lowest..self.layout.blocks() {
            if self.take_if_free::<Brand>(seat, block) {
                return Some(block);
            }
        }
        None
    }

    /// Takes a block if it is Free, whatever room the seat has.
    fn take_if_free<C: About>(&self, seat: &mut WorkerSeat, block: u32) -> bool
        requires about { (setup_at self.now ≡ C.setup) × (C.index ≡ block) }
        requires table { IsTable self.now }
        requires seat { IsSeat self.now seat.old }
        requires copies { C.setup.copy ≢ kinds.Free }
        requires block { (block < blocks C.setup) × (seat.old.next_block ≡ block) }
        ensures seat { IsSeat self.now seat.new }
        ensures taken { IsTrue result → seat.new.seat.me.0
            ≡ takes_at_any_time C.setup block seat.old.seat.me.0 }
        ensures looks { result ≡ false → Looks seat.old.seat.me.0 seat.new.seat.me.0 }
        ensures room { result ≡ false → SameRoom seat.old.seat.me.0 seat.new.seat.me.0 }
        ensures next { (IsTrue result → seat.new.next_block ≡ block)
            × (result ≡ false → seat.new.next_block ≡ block + 1) }
    {
        let at = self.layout.block_at(block) as usize;
        let word = look_at_block::<C>(&self.row.words, &mut seat.seat, at);
        if word != 0 {
            seat.next_block = block + 1;
            return false;
        }
        let new = encode(&BlockWord {
            kind: self.run.copy_kind,
            class: 0,
            owner: FIRST_WORKER_OWNER - 1 + seat.worker,
        });
        let met = take_block_at_any_time::<C>(&self.row.words, &mut seat.seat, at, new);
        if met != 0 {
            seat.next_block = block + 1;
            return false;
        }
        seat.front = self.layout.address(block, 0);
        seat.limit = seat.front + BLOCK_WORDS;
        true
    }

    /// Whether the room of a seat has so many words. Takes the lowest Free block if it has not. It
    /// has not if no block is Free.
    pub(crate) fn has_room(&self, seat: &mut WorkerSeat, words: u32) -> bool
        requires table { IsTable self.now }
        requires seat { IsSeat self.now seat.old }
        requires copies { (setup_at self.now).copy ≢ kinds.Free }
        requires few { words ≤ MAX_MEDIUM_WORDS }
        ensures seat { IsSeat self.now seat.new }
        ensures looks { Looks seat.old.seat.me.0 seat.new.seat.me.0 }
        ensures fits { seat.old.front + words ≤ seat.old.limit
            → SameBlock seat.old.seat.me.0 seat.new.seat.me.0 }
        ensures room { IsTrue result → seat.new.front + words ≤ seat.new.limit }
        ensures none { result ≡ false → (seat.new.limit < seat.new.front + words)
            × SawNoneFree (setup_at self.now) seat.new.seat.me.0 }
    {
        if seat.limit - seat.front >= words {
            return true;
        }
        let from = seat.next_block;
        for block in from..self.layout.blocks() {
            if self.try_block::<Brand>(seat, block, words) {
                return true;
            }
        }
        false
    }

    /// Takes a block if it is Free, since the room of the seat has fewer words.
    fn try_block<C: About>(&self, seat: &mut WorkerSeat, block: u32, words: u32) -> bool
        requires about { (setup_at self.now ≡ C.setup) × (C.index ≡ block) }
        requires table { IsTable self.now }
        requires seat { IsSeat self.now seat.old }
        requires copies { C.setup.copy ≢ kinds.Free }
        requires block { (block < blocks C.setup) × (seat.old.next_block ≡ block) }
        requires few { words ≤ MAX_MEDIUM_WORDS }
        requires tight { seat.old.limit < seat.old.front + words }
        ensures seat { IsSeat self.now seat.new }
        ensures looks { Looks seat.old.seat.me.0 seat.new.seat.me.0 }
        ensures taken { IsTrue result → seat.new.front + BLOCK_WORDS ≡ seat.new.limit }
        ensures next { result ≡ false → (seat.new.next_block ≡ block + 1)
            × (seat.new.limit < seat.new.front + words) }
    {
        let at = self.layout.block_at(block) as usize;
        let word = look_at_block::<C>(&self.row.words, &mut seat.seat, at);
        if word != 0 {
            seat.next_block = block + 1;
            return false;
        }
        let new = encode(&BlockWord {
            kind: self.run.copy_kind,
            class: 0,
            owner: FIRST_WORKER_OWNER - 1 + seat.worker,
        });
        let met = take_block::<C>(&self.row.words, &mut seat.seat, at, new);
        if met != 0 {
            seat.next_block = block + 1;
            return false;
        }
        seat.front = self.layout.address(block, 0);
        seat.limit = seat.front + BLOCK_WORDS;
        true
    }
}
