//! Steps by which a tracer learns where an object will be: looks at its unlog bit and at its
//! collector word, and the one exchange that claims it.

ghost use Rattle.std.specs.Prelude.{◌≡◌, ◌+◌, ◌<◌, IsTrue};
ghost use Rattle.forward_word.specs.CollectorWords.{collector_word};
ghost use Rattle.heap_layout.specs.Zones.{UnlogBits};
ghost use Rattle.object_model.specs.BitWords.{bit_word};
ghost use Rattle.object_model.specs.Objects.{IsHeld};
ghost use Rattle.trace_core.specs.Setups.{blocks, collection, may_be_moved};
ghost use Rattle.trace_words.specs.Rule.{setup_in};
ghost use Rattle.trace_words.specs.Steps.{ShowsBit, ShowsClaim, MayClaim, LacksRoom, FitsRoom, ClaimsHere, ClaimsMoved};

use crate::rule::{About, TraceSeat, TraceWords};
use crate::share::Share;
use atomic_table::Play;
use object_model::COLLECTOR_OFFSET;
use std::marker::PhantomData;

struct LooksAtBit<C> {
    of: PhantomData<C>,
}

impl<C: About> Play<(), Share> for LooksAtBit<C> {
    ghost use Rattle.trace_words.specs.Steps.{ShowsBit};

    ghost then = { λ step me found now. ShowsBit C.setup C.object me found now };
}

struct LooksAtClaim<C> {
    of: PhantomData<C>,
}

impl<C: About> Play<(), Share> for LooksAtClaim<C> {
    ghost use Rattle.trace_words.specs.Steps.{ShowsClaim};

    ghost then = { λ step me found now. ShowsClaim C.setup C.object me found now };
}

struct ClaimsInPlace<C> {
    of: PhantomData<C>,
}

impl<C: About> Play<(), Share> for ClaimsInPlace<C> {
    ghost use Rattle.trace_words.specs.Steps.{ClaimsHere};

    ghost then = { λ step me found now.
        ClaimsHere C.setup C.object C.cause step.first me found now };
}

struct ClaimsAndMoves<C> {
    of: PhantomData<C>,
}

impl<C: About> Play<(), Share> for ClaimsAndMoves<C> {
    ghost use Rattle.trace_words.specs.Steps.{ClaimsMoved};

    ghost then = { λ step me found now.
        ClaimsMoved C.setup C.object C.cause step.first me found now };
}

/// The word with the unlog bit of the object. A set bit says that the object has its target,
/// itself. A clear one says nothing.
#[inline(always)]
pub fn look_at_bit<C: About>(row: &TraceWords, seat: &mut TraceSeat, word: usize) -> u64
    requires about { (setup_in row.now.key ≡ C.setup)
        × (word ≡ bit_word (blocks C.setup) UnlogBits C.object) }
    requires own { (seat.old.table_id ≡ row.now.table_id) × (word < row.now.table_id.words) }
    requires live { 0 < seat.old.me.0.parts }
    requires held { IsHeld C.setup.before C.object }
    ensures own { seat.new.table_id ≡ seat.old.table_id }
    ensures bit { ShowsBit C.setup C.object seat.old.me result seat.new.me }
{
    row.load::<LooksAtBit<C>>(seat, word)
}

/// The collector word of the object at `x`. It has the object's target if the object is claimed. An
/// old object has itself. Else the word is as it was as the trace began.
#[inline(always)]
pub fn look_at_claim<C: About>(row: &TraceWords, seat: &mut TraceSeat, x: u32) -> u64
    requires about { (setup_in row.now.key ≡ C.setup) × (x ≡ C.object) }
    requires own { (seat.old.table_id ≡ row.now.table_id)
        × (x + COLLECTOR_OFFSET < row.now.table_id.words) }
    requires live { 0 < seat.old.me.0.parts }
    requires held { IsHeld C.setup.before C.object }
    ensures own { seat.new.table_id ≡ seat.old.table_id }
    ensures claim { ShowsClaim C.setup C.object seat.old.me result seat.new.me }
{
    row.load::<LooksAtClaim<C>>(seat, x as usize + COLLECTOR_OFFSET as usize)
}

/// Claims the object at `x`, which stays: it may not move, or has no room. Its collector word was
/// `old`, and is to be `new`. A tracer that meets another word lost, and knows the target from it.
#[inline(always)]
pub fn claim_in_place<C: About>(
    row: &TraceWords,
    seat: &mut TraceSeat,
    x: u32,
    old: u64,
    new: u64,
) -> u64
    requires about { (setup_in row.now.key ≡ C.setup) × (x ≡ C.object)
        × (new ≡ collector_word (collection C.setup) C.object) }
    requires own { (seat.old.table_id ≡ row.now.table_id)
        × (x + COLLECTOR_OFFSET < row.now.table_id.words) }
    requires may { MayClaim C.setup seat.old.me.0 C.object C.cause old }
    requires stays { IsTrue (may_be_moved C.setup C.object)
        → LacksRoom C.setup seat.old.me.0 C.object }
    ensures own { seat.new.table_id ≡ seat.old.table_id }
    ensures claimed { ClaimsHere C.setup C.object C.cause old seat.old.me result seat.new.me }
{
    let at = x as usize + COLLECTOR_OFFSET as usize;
    row.compare_exchange::<ClaimsInPlace<C>>(seat, at, old, new)
}

/// The same for an object that goes to the front of the tracer's room.
#[inline(always)]
pub fn claim_and_move<C: About>(
    row: &TraceWords,
    seat: &mut TraceSeat,
    x: u32,
    old: u64,
    new: u64,
) -> u64
    requires about { (setup_in row.now.key ≡ C.setup) × (x ≡ C.object)
        × (new ≡ collector_word (collection C.setup) seat.old.me.0.front) }
    requires own { (seat.old.table_id ≡ row.now.table_id)
        × (x + COLLECTOR_OFFSET < row.now.table_id.words) }
    requires may { MayClaim C.setup seat.old.me.0 C.object C.cause old }
    requires room { FitsRoom C.setup seat.old.me.0 C.object }
    ensures own { seat.new.table_id ≡ seat.old.table_id }
    ensures claimed { ClaimsMoved C.setup C.object C.cause old seat.old.me result seat.new.me }
{
    let at = x as usize + COLLECTOR_OFFSET as usize;
    row.compare_exchange::<ClaimsAndMoves<C>>(seat, at, old, new)
}
