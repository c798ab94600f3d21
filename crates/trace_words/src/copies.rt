//! Steps of the copying of an object: its words in order, the collector word last, then the unlog
//! bit, then the start bit. Of an object that stays the unlog bit alone is left to set.

ghost use Rattle.std.specs.Prelude.{◌≡◌, ◌≢◌, ◌+◌, ◌<◌, ◌^◌};
ghost use Rattle.heap_layout.specs.Zones.{UnlogBits, StartBits};
ghost use Rattle.object_model.specs.BitWords.{bit_word, bit_place};
ghost use Rattle.object_model.specs.Objects.{word_at};
ghost use Rattle.trace_core.specs.Machine.{copied_word, offset_of_step};
ghost use Rattle.trace_core.specs.Setups.{blocks, size};
ghost use Rattle.trace_words.specs.Rule.{setup_in};
ghost use Rattle.trace_words.specs.Shares.{copies_on, ends_copy};
ghost use Rattle.trace_words.specs.Steps.{CopiesHeldOnce, MayCopy};

use crate::rule::{About, TraceSeat, TraceWords};
use crate::share::Share;
use atomic_table::Play;
use object_model::COLLECTOR_OFFSET;
use std::marker::PhantomData;

struct ReadsWord<C> {
    of: PhantomData<C>,
}

impl<C: About> Play<(), Share> for ReadsWord<C> {
    ghost use Rattle.std.specs.Prelude.{◌≡◌};
    ghost use Rattle.object_model.specs.Objects.{word_at};

    ghost then = { λ step me found now.
        (found ≡ word_at C.setup.before step.word) × (now ≡ me) };
}

struct CopiesOn<C> {
    of: PhantomData<C>,
}

impl<C: About> Play<(), Share> for CopiesOn<C> {
    ghost use Rattle.std.specs.Prelude.{◌≡◌};
    ghost use Rattle.trace_words.specs.Shares.{copies_on};

    ghost then = { λ step me found now. now ≡ (copies_on C.object C.index me.0, me.1) };
}

struct EndsCopy<C> {
    of: PhantomData<C>,
}

impl<C: About> Play<(), Share> for EndsCopy<C> {
    ghost use Rattle.std.specs.Prelude.{◌≡◌};
    ghost use Rattle.trace_words.specs.Shares.{ends_copy};

    ghost then = { λ step me found now. now ≡ (ends_copy C.object C.index me.0, me.1) };
}

struct LooksAtCopies<C> {
    of: PhantomData<C>,
}

impl<C: About> Play<(), Share> for LooksAtCopies<C> {
    ghost use Rattle.std.specs.Prelude.{◌≡◌};
    ghost use Rattle.trace_words.specs.Steps.{CopiesHeldOnce};

    ghost then = { λ step me found now. CopiesHeldOnce C.setup me.0 × (now ≡ me) };
}

/// A load of any word, which shows that the objects that the seat copied are different ones.
#[inline(always)]
pub fn look_at_copies<C: About>(row: &TraceWords, seat: &mut TraceSeat, word: usize)
    requires about { setup_in row.now.key ≡ C.setup }
    requires own { (seat.old.table_id ≡ row.now.table_id) × (word < row.now.table_id.words) }
    ensures own { (seat.new.table_id ≡ seat.old.table_id) × (seat.new.me ≡ seat.old.me) }
    ensures copies { CopiesHeldOnce C.setup seat.old.me.0 }
{
    row.load::<LooksAtCopies<C>>(seat, word);
}

/// The word at an offset of an object that this seat copies.
#[inline(always)]
pub fn read_word<C: About>(row: &TraceWords, seat: &mut TraceSeat, x: u32, offset: u32) -> u64
    requires about { (setup_in row.now.key ≡ C.setup) × (x ≡ C.object) }
    requires own { (seat.old.table_id ≡ row.now.table_id) × (x + offset < row.now.table_id.words) }
    requires may { MayCopy C.setup seat.old.me.0 C.object C.target C.index }
    requires plain { (offset < size C.setup C.object)
        × (offset ≢ COLLECTOR_OFFSET) }
    ensures own { seat.new.table_id ≡ seat.old.table_id }
    ensures word { (result ≡ word_at C.setup.before (C.object + offset))
        × (seat.new.me ≡ seat.old.me) }
{
    row.load::<ReadsWord<C>>(seat, x as usize + offset as usize)
}

/// Stores the next word of a copy at `at`.
#[inline(always)]
pub fn copy_word<C: About>(row: &TraceWords, seat: &mut TraceSeat, at: usize, value: u64)
    requires about { (setup_in row.now.key ≡ C.setup)
        × (at ≡ C.target + offset_of_step (size C.setup C.object) C.index)
        × (value ≡ copied_word C.setup C.object C.target
        (offset_of_step (size C.setup C.object) C.index)) }
    requires own { (seat.old.table_id ≡ row.now.table_id) × (at < row.now.table_id.words) }
    requires may { MayCopy C.setup seat.old.me.0 C.object C.target C.index }
    requires step { C.index < size C.setup C.object }
    ensures own { seat.new.table_id ≡ seat.old.table_id }
    ensures share { seat.new.me ≡ (copies_on C.object C.index seat.old.me.0, seat.old.me.1) }
{
    row.store::<CopiesOn<C>>(seat, at, value);
}

/// Sets the unlog bit of a copy whose words are there.
#[inline(always)]
pub fn set_unlog_of_copy<C: About>(row: &TraceWords, seat: &mut TraceSeat, word: usize, bit: u64)
    requires about { (setup_in row.now.key ≡ C.setup)
        × (word ≡ bit_word (blocks C.setup) UnlogBits C.target)
        × (bit ≡ 2 ^ bit_place (blocks C.setup) C.target) }
    requires own { (seat.old.table_id ≡ row.now.table_id) × (word < row.now.table_id.words) }
    requires may { MayCopy C.setup seat.old.me.0 C.object C.target C.index }
    requires step { (C.index ≡ size C.setup C.object) × (C.target ≢ C.object) }
    ensures own { seat.new.table_id ≡ seat.old.table_id }
    ensures share { seat.new.me ≡ (copies_on C.object C.index seat.old.me.0, seat.old.me.1) }
{
    row.fetch_or::<CopiesOn<C>>(seat, word, bit);
}

/// Sets the start bit of a copy. Now the object is to be scanned.
#[inline(always)]
pub fn set_start_of_copy<C: About>(row: &TraceWords, seat: &mut TraceSeat, word: usize, bit: u64)
    requires about { (setup_in row.now.key ≡ C.setup)
        × (word ≡ bit_word (blocks C.setup) StartBits C.target)
        × (bit ≡ 2 ^ bit_place (blocks C.setup) C.target) }
    requires own { (seat.old.table_id ≡ row.now.table_id) × (word < row.now.table_id.words) }
    requires may { MayCopy C.setup seat.old.me.0 C.object C.target C.index }
    requires step { C.index ≡ size C.setup C.object + 1 }
    ensures own { seat.new.table_id ≡ seat.old.table_id }
    ensures share { seat.new.me ≡ (ends_copy C.object C.index seat.old.me.0, seat.old.me.1) }
{
    row.fetch_or::<EndsCopy<C>>(seat, word, bit);
}

/// Sets the unlog bit of an object that was claimed in place. Now it is to be scanned.
#[inline(always)]
pub fn set_unlog_in_place<C: About>(row: &TraceWords, seat: &mut TraceSeat, word: usize, bit: u64)
    requires about { (setup_in row.now.key ≡ C.setup)
        × (word ≡ bit_word (blocks C.setup) UnlogBits C.object)
        × (bit ≡ 2 ^ bit_place (blocks C.setup) C.object) }
    requires own { (seat.old.table_id ≡ row.now.table_id) × (word < row.now.table_id.words) }
    requires may { MayCopy C.setup seat.old.me.0 C.object C.object C.index }
    requires step { C.index ≡ size C.setup C.object }
    ensures own { seat.new.table_id ≡ seat.old.table_id }
    ensures share { seat.new.me ≡ (ends_copy C.object C.index seat.old.me.0, seat.old.me.1) }
{
    row.fetch_or::<EndsCopy<C>>(seat, word, bit);
}
