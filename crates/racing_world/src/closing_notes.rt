//! What is known of the blocks from epoch to epoch: the seats take the notes of the beginning, and
//! at the end theirs are joined.

ghost use Rattle.std.specs.Prelude.{◌≡◌, ◌<◌, ◌≤◌, ◌^◌, ℕ, All, length, slice_get, sum_by};
ghost use Rattle.block_regions.specs.Notes.{AreUnowned, IsLeastLeft};
ghost use Rattle.mutator_core.specs.Tickets.{smaller, tickets_below};
ghost use Rattle.racing_world.specs.ClosingNotes.{TakesNotes, EachTakesNotes, HasRegions, IsLeastOf, JoinsNotes};

use block_regions::BlockNote;
use heap_layout::{BLOCK_WORDS, Kind, Region};
use mutator_rule::MutatorSeat;

/// Makes these the seat's notes of the blocks.
fn note_blocks(seat: &mut MutatorSeat, notes: &Vec<BlockNote>, blocks: u32)
    requires notes { length notes.now.items ≡ blocks }
    requires seat { length seat.old.notes.blocks.items ≡ blocks }
    ensures { TakesNotes notes.now.items seat.old seat.new }
{
    for block in 0..blocks {
        seat.note_block(block, notes[block as usize]);
    }
}

/// Makes these the notes of the blocks of each seat.
pub(crate) fn note_each(seats: &mut Vec<MutatorSeat>, notes: &Vec<BlockNote>, blocks: u32)
    requires notes { length notes.now.items ≡ blocks }
    requires seats { All (λ seat. length seat.notes.blocks.items ≡ blocks) seats.old.items }
    ensures { EachTakesNotes notes.now.items seats.old.items seats.new.items }
{
    for place in 0..seats.len() {
        note_blocks(&mut seats[place], notes, blocks);
    }
}

/// What a block lacks of which a mutator left this region: more words than the region has. Where
/// mutators fill lines nothing is known of it, and no hole is larger than a block.
fn least_left(fill: Kind, region: &Region) -> u32
    requires order { region.now.next ≤ region.now.end }
    requires inside { region.now.end ≤ BLOCK_WORDS }
    ensures { IsLeastLeft fill region.now result }
{
    if fill == Kind::Immix {
        return BLOCK_WORDS + 1;
    }
    region.end - region.next + 1
}

/// What a block lacks as the epoch ends, which was known to lack `known` words before it: its rest,
/// if a seat took it, and else the least that a seat noted.
fn least_of(seats: &Vec<MutatorSeat>, fill: Kind, block: u32, known: u32) -> u32
    requires { All (HasRegions block) seats.now.items }
    ensures { IsLeastOf fill seats.now.items block known result }
{
    let mut least = known;
    for place in 0..seats.len() {
        match seats[place].notes().blocks[block as usize] {
            BlockNote::Owned { region, .. } => return least_left(fill, &region),
            BlockNote::Unowned { least: noted } => least = least.min(noted),
        }
    }
    least
}

/// Joins the notes of all seats to those of the epoch's beginning. Reads no word of the heap.
pub(crate) fn join_notes(
    notes: &mut Vec<BlockNote>,
    blocks: u32,
    seats: &Vec<MutatorSeat>,
    fill: Kind,
)
    requires blocks { length notes.old.items ≡ blocks }
    requires seats { (k : ℕ) → k < blocks → All (HasRegions k) seats.now.items }
    ensures joins { JoinsNotes fill seats.now.items notes.old.items notes.new.items }
    ensures unowned { AreUnowned notes.old.items → AreUnowned notes.new.items }
{
    for block in 0..blocks {
        if let BlockNote::Unowned { least: known } = notes[block as usize] {
            let least = least_of(seats, fill, block, known);
            notes[block as usize] = BlockNote::Unowned { least };
        }
    }
}

/// 1 for a mutator with an unused ticket below the allowance, else 0.
fn unused(seat: &MutatorSeat, allowance: u32) -> u32
    ensures value { result ≡ tickets_below allowance seat.now.notes.local.ticket }
    ensures most { result ≤ 1 }
{
    match seat.notes().local.ticket {
        Some(ticket) if ticket < allowance => 1,
        _ => 0,
    }
}

/// The number of unused tickets below the allowance.
pub(crate) fn unused_tickets(seats: &Vec<MutatorSeat>, allowance: u32) -> u32
    requires { length seats.now.items < 2 ^ 32 }
    ensures value { result ≡ sum_by (λ seat. tickets_below allowance seat.notes.local.ticket)
        seats.now.items }
    ensures most { result ≤ length seats.now.items }
{
    let mut count = 0;
    for place in 0..seats.len() {
        count += unused(&seats[place], allowance);
    }
    count
}

/// The number of tickets below the allowance that were drawn, if `budget` were drawn in all.
pub(crate) fn drawn_below(budget: u64, allowance: u32) -> u32
    ensures { result ≡ smaller budget allowance }
{
    if budget < allowance as u64 {
        budget as u32
    } else {
        allowance
    }
}
