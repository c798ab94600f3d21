//! What a tracer reads of an object before it claims it.

ghost use Rattle.std.specs.Prelude.{◌≡◌, ◌≢◌, ◌+◌, ◌<◌, ◌≤◌, false, IsTrue};
ghost use Rattle.std.specs.Int.{bit_at};
ghost use Rattle.ideal_heap.specs.declared.command.TheConstants.{MAX_REFS, MAX_NUMS};
ghost use Rattle.object_model.specs.Objects.{IsHeld, nums_at};
ghost use Rattle.side_meta.specs.declared.word.TheConstants.{BITS_PER_WORD};
ghost use Rattle.trace_core.specs.Setups.{refs, size, may_be_moved};
ghost use Rattle.trace_words.specs.Shares.{learns};
ghost use Rattle.trace_table.specs.Seats.{IsTable, setup_at, Finds};

use crate::table::TraceTable;
use crate::tokens::Found;
use forward_word::{claimed, is_old};
use heap_layout::block_of;
use object_model::{MAX_MEDIUM_WORDS, NUMS_UNIT, Shape};
use side_meta::BITS_PER_WORD;
use trace_words::{About, TraceSeat, look_at_bit, look_at_claim, read_pins, read_shape};

/// Whether a bit of a word is set.
fn is_set(word: u64, k: u32) -> bool
    requires { k < BITS_PER_WORD }
    ensures set { IsTrue result → bit_at word k ≡ 1 }
    ensures clear { result ≡ false → bit_at word k ≢ 1 }
{
    word >> k & 1 == 1
}

impl TraceTable {
    /// What the collector word of the object at `x` says.
    #[inline(always)]
    pub(crate) fn find<C: About>(&self, seat: &mut TraceSeat, x: u32) -> Found
        requires about { (setup_at self.now ≡ C.setup) × (x ≡ C.object) }
        requires table { IsTable self.now }
        requires own { (seat.old.table_id ≡ self.now.row.words.table_id)
            × (0 < seat.old.me.0.parts) }
        requires held { IsHeld C.setup.before C.object }
        ensures own { seat.new.table_id ≡ seat.old.table_id }
        ensures finds { Finds C.setup C.object seat.old.me result seat.new.me }
    {
        let word = look_at_claim::<C>(&self.row.words, seat, x);
        if let Some(target) = claimed(word, self.run.number) {
            return Found::Seen(target);
        }
        if is_old(word, self.run.base) {
            return Found::Old;
        }
        Found::Waits(word)
    }

    /// Whether the unlog bit of the object at `x` shows that it is its own target. Of an object
    /// whose block is evacuated the bit is not looked at, since few stay there.
    #[inline(always)]
    pub(crate) fn is_marked<C: About>(&self, seat: &mut TraceSeat, x: u32) -> bool
        requires about { (setup_at self.now ≡ C.setup) × (x ≡ C.object) }
        requires table { IsTable self.now }
        requires own { (seat.old.table_id ≡ self.now.row.words.table_id)
            × (0 < seat.old.me.0.parts) }
        requires held { IsHeld C.setup.before C.object }
        ensures own { seat.new.table_id ≡ seat.old.table_id }
        ensures marked { IsTrue result
            → seat.new.me ≡ (learns C.object C.object seat.old.me.0, seat.old.me.1) }
        ensures clear { result ≡ false → seat.new.me ≡ seat.old.me }
    {
        let leaves = self.run.from[block_of(&self.layout, x) as usize];
        if leaves {
            return false;
        }
        let index = x - self.layout.heap_base();
        let at = self.layout.unlog_base() + index / BITS_PER_WORD;
        let bits = look_at_bit::<C>(&self.row.words, seat, at as usize);
        is_set(bits, index % BITS_PER_WORD)
    }

    /// The shape of the object at `x`.
    #[inline(always)]
    pub(crate) fn shape<C: About>(&self, seat: &mut TraceSeat, x: u32) -> Shape
        requires about { (setup_at self.now ≡ C.setup) × (x ≡ C.object) }
        requires table { IsTable self.now }
        requires own { seat.old.table_id ≡ self.now.row.words.table_id }
        requires held { IsHeld C.setup.before C.object }
        ensures own { (seat.new.table_id ≡ seat.old.table_id) × (seat.new.me ≡ seat.old.me) }
        ensures shape { (result.refs ≡ refs C.setup C.object)
            × (result.nums ≡ nums_at C.setup.before C.object) }
        ensures few { (result.refs ≤ MAX_REFS) × (result.nums ≤ MAX_NUMS) }
    {
        let word = read_shape::<C>(&self.row.words, seat, x);
        Shape {
            refs: (word % NUMS_UNIT) as u32,
            nums: (word / NUMS_UNIT) as u32,
        }
    }

    /// Whether the object at `x`, of this size, may move.
    #[inline(always)]
    pub(crate) fn may_move<C: About>(&self, seat: &mut TraceSeat, x: u32, words: u32) -> bool
        requires about { (setup_at self.now ≡ C.setup) × (x ≡ C.object)
            × (words ≡ size C.setup C.object) }
        requires table { IsTable self.now }
        requires own { seat.old.table_id ≡ self.now.row.words.table_id }
        requires held { IsHeld C.setup.before C.object }
        ensures own { (seat.new.table_id ≡ seat.old.table_id) × (seat.new.me ≡ seat.old.me) }
        ensures moves { result ≡ may_be_moved C.setup C.object }
    {
        let leaves = self.run.from[block_of(&self.layout, x) as usize];
        if !leaves {
            return false;
        }
        if words > MAX_MEDIUM_WORDS {
            return false;
        }
        let index = x - self.layout.heap_base();
        let at = self.layout.pin_base() + index / BITS_PER_WORD;
        let pins = read_pins::<C>(&self.row.words, seat, at as usize);
        !is_set(pins, index % BITS_PER_WORD)
    }
}
