//! Steps on block words: a tracer looks whether a block is Free, and takes one to copy into.

ghost use Rattle.std.specs.Prelude.{◌≡◌, ◌≢◌, ◌+◌, ◌<◌};
ghost use Rattle.heap_layout.specs.Zones.{BlockWords, first};
ghost use Rattle.heap_layout.specs.declared.block.Kind.TheVariants as kinds;
ghost use Rattle.trace_core.specs.Machine.{taken_word};
ghost use Rattle.trace_core.specs.Setups.{blocks};
ghost use Rattle.trace_words.specs.Rule.{setup_in};
ghost use Rattle.trace_words.specs.Shares.{takes_after_full, takes_at_any_time};
ghost use Rattle.trace_words.specs.Steps.{ShowsBlock, TakesBlock, MayLeave};

use crate::rule::{About, TraceSeat, TraceWords};
use crate::share::Share;
use atomic_table::Play;
use std::marker::PhantomData;

struct LooksAtBlock<C> {
    of: PhantomData<C>,
}

impl<C: About> Play<(), Share> for LooksAtBlock<C> {
    ghost use Rattle.trace_words.specs.Steps.{ShowsBlock};

    ghost then = { λ step me found now. ShowsBlock C.index me found now };
}

struct TakesAfterFull<C> {
    of: PhantomData<C>,
}

impl<C: About> Play<(), Share> for TakesAfterFull<C> {
    ghost use Rattle.trace_words.specs.Shares.{takes_after_full};
    ghost use Rattle.trace_words.specs.Steps.{TakesBlock};

    ghost then = { λ step me found now.
        TakesBlock C.index (takes_after_full C.setup C.index) me found now };
}

struct TakesAtAnyTime<C> {
    of: PhantomData<C>,
}

impl<C: About> Play<(), Share> for TakesAtAnyTime<C> {
    ghost use Rattle.trace_words.specs.Shares.{takes_at_any_time};
    ghost use Rattle.trace_words.specs.Steps.{TakesBlock};

    ghost then = { λ step me found now.
        TakesBlock C.index (takes_at_any_time C.setup C.index) me found now };
}

/// The block word at `at`. If it is not 0 the block is not Free, and will not be.
#[inline(always)]
pub fn look_at_block<C: About>(row: &TraceWords, seat: &mut TraceSeat, at: usize) -> u64
    requires about { (setup_in row.now.key ≡ C.setup)
        × (at ≡ first (blocks C.setup) BlockWords + C.index) }
    requires own { (seat.old.table_id ≡ row.now.table_id) × (at < row.now.table_id.words) }
    requires live { 0 < seat.old.me.0.parts }
    requires block { C.index < blocks C.setup }
    ensures own { seat.new.table_id ≡ seat.old.table_id }
    ensures block { ShowsBlock C.index seat.old.me result seat.new.me }
{
    row.load::<LooksAtBlock<C>>(seat, at)
}

/// Takes a Free block for the seat's worker to copy into, when some size up to `MAX_MEDIUM_WORDS`
/// does not fit the room. So the block that was filled so far has more kept words than that.
#[inline(always)]
pub fn take_block<C: About>(row: &TraceWords, seat: &mut TraceSeat, at: usize, new: u64) -> u64
    requires about { (setup_in row.now.key ≡ C.setup)
        × (at ≡ first (blocks C.setup) BlockWords + C.index)
        × (new ≡ taken_word C.setup seat.old.me.0.worker) }
    requires own { (seat.old.table_id ≡ row.now.table_id) × (at < row.now.table_id.words) }
    requires live { 0 < seat.old.me.0.parts }
    requires block { C.index < blocks C.setup }
    requires worker { 0 < seat.old.me.0.worker }
    requires copies { C.setup.copy ≢ kinds.Free }
    requires full { MayLeave C.setup seat.old.me.0 }
    ensures own { seat.new.table_id ≡ seat.old.table_id }
    ensures taken { TakesBlock C.index (takes_after_full C.setup C.index) seat.old.me result
        seat.new.me }
{
    row.compare_exchange::<TakesAfterFull<C>>(seat, at, 0, new)
}

/// The same at any time. The block that was filled so far may have few kept words.
#[inline(always)]
pub fn take_block_at_any_time<C: About>(
    row: &TraceWords,
    seat: &mut TraceSeat,
    at: usize,
    new: u64,
) -> u64
    requires about { (setup_in row.now.key ≡ C.setup)
        × (at ≡ first (blocks C.setup) BlockWords + C.index)
        × (new ≡ taken_word C.setup seat.old.me.0.worker) }
    requires own { (seat.old.table_id ≡ row.now.table_id) × (at < row.now.table_id.words) }
    requires live { 0 < seat.old.me.0.parts }
    requires block { C.index < blocks C.setup }
    requires worker { 0 < seat.old.me.0.worker }
    requires copies { C.setup.copy ≢ kinds.Free }
    ensures own { seat.new.table_id ≡ seat.old.table_id }
    ensures taken { TakesBlock C.index (takes_at_any_time C.setup C.index) seat.old.me result
        seat.new.me }
{
    row.compare_exchange::<TakesAtAnyTime<C>>(seat, at, 0, new)
}
