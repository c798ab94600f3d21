//! The end of an epoch.

ghost use Rattle.std.specs.Prelude.{◌≡◌, ◌<◌, ◌≤◌, ◌^◌, ℕ, replicate, length, sum_by, IfOk, IsTrue};
ghost use Rattle.plain_world.specs.Prelude.{is_block_code, state_of, block_word, IsWellFormed, GivesBack, tickets_in, HasNotes, ListsOwned, AreUnowned, IsLeastLeft, GivesBackBlock};

use block_regions::{BlockNote, give_back_block};
use heap_layout::{BLOCK_WORDS, Kind, OWNER_UNIT, Region};
use local_allocators::LocalSeat;
use object_model::Row;
use plan_api::Plan;
use std::alloc::{AllocError, Global};

/// Gives back the blocks that mutators own: those of the list.
pub(crate) fn give_back<P: Plan>(row: &mut Row, notes: &mut Vec<BlockNote>, owned: &[u32])
    requires order { IsWellFormed (state_of row.old) }
    requires codes { (k : ℕ) → k < row.old.layout.blocks
        → IsTrue (is_block_code (block_word (state_of row.old) k)) }
    requires notes { HasNotes P.rules.fill (state_of row.old) notes.old.items }
    requires owned { ListsOwned notes.old.items owned.now }
    ensures gives { GivesBack (state_of row.old) (state_of row.new) }
    ensures notes { HasNotes P.rules.fill (state_of row.new) notes.new.items }
    ensures unowned { AreUnowned notes.new.items }
{
    for block in owned {
        give_back_block::<P>(row, notes, *block);
    }
}

/// 1 for a mutator with a ticket with which it took no block, else 0.
fn unused(seat: &LocalSeat) -> u32
    ensures value { result ≡ tickets_in seat.now.ticket }
    ensures most { result ≤ 1 }
{
    match seat.ticket {
        None => 0,
        Some(_) => 1,
    }
}

/// The number of tickets with which no block was taken.
pub(crate) fn unused_tickets(seats: &[LocalSeat]) -> u32
    requires { length seats.now < 2 ^ 32 }
    ensures { result ≡ sum_by (λ x. tickets_in x.ticket) seats.now }
{
    let mut count = 0;
    for seat in seats {
        count += unused(seat);
    }
    count
}
