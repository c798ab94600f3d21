//! Copies: the words of an object in order, then its bits. In place the unlog bit alone.

ghost use Rattle.std.specs.Prelude.{◌≡◌, ◌≢◌, ◌+◌, ◌<◌};
ghost use Rattle.trace_core.specs.Machine.{offset_of_step};
ghost use Rattle.trace_core.specs.Setups.{size as size_of_object};
ghost use Rattle.trace_core.specs.Views.{hits};
ghost use Rattle.trace_words.specs.Shares.{copies_on, ends_copy, gives_scan};
ghost use Rattle.trace_words.specs.Steps.{MayCopy};
ghost use Rattle.trace_table.specs.Seats.{IsTable, IsSeat, IsWon, IsShapeOf, IsGrey, setup_at, Copying, Copied, Copies};

use crate::table::{TraceTable, WorkerSeat};
use crate::tokens::{Grey, Won};
use forward_word::encode;
use object_model::COLLECTOR_OFFSET;
use side_meta::BITS_PER_WORD;
use std::marker::Brand;
use trace_words::{
    About, TraceSeat, copy_word, give_scan, read_word, set_start_of_copy, set_unlog_in_place,
    set_unlog_of_copy,
};

impl TraceTable {
    /// Copies a claimed object to its target, and sets the target's unlog bit and its start bit. In
    /// place it sets the unlog bit alone. The token has the right to scan it.
    #[inline(always)]
    pub fn copy(&self, seat: &mut WorkerSeat, won: Won) -> Grey
        requires table { IsTable self.now }
        requires seat { IsSeat self.now seat.old }
        requires won { IsWon (setup_at self.now) seat.old.seat.me.0 won }
        ensures seat { IsSeat self.now seat.new }
        ensures copies { Copies won.object seat.old.seat.me.0 seat.new.seat.me.0 }
        ensures object { (result.object ≡ won.object) × (result.target ≡ won.target) }
        ensures grey { IsGrey self.now result }
    {
        self.copy_object(&mut seat.seat, &won);
        self.token::<Brand>(&mut seat.seat, won)
    }

    /// Makes all steps of the copying of an object.
    #[inline(always)]
    fn copy_object(&self, seat: &mut TraceSeat, won: &Won)
        requires table { IsTable self.now }
        requires own { seat.old.table_id ≡ self.now.row.words.table_id }
        requires won { IsWon (setup_at self.now) seat.old.me.0 won.now }
        ensures own { seat.new.table_id ≡ seat.old.table_id }
        ensures share { Copied won.now.object seat.old.me.0 seat.new.me.0 }
    {
        if won.target == won.object {
            self.copy_in_place::<Brand>(seat, won);
            return;
        }
        self.copy_words(seat, won);
        self.set_unlog::<Brand>(seat, won);
        self.set_start::<Brand>(seat, won);
    }

    /// The token of an object that was copied.
    #[inline(always)]
    fn token<C: About>(&self, seat: &mut TraceSeat, won: Won) -> Grey
        requires about { (setup_at self.now ≡ C.setup) × (won.object ≡ C.object)
            × (won.target ≡ C.target) }
        requires table { IsTable self.now }
        requires own { (seat.old.table_id ≡ self.now.row.words.table_id)
            × (0 < seat.old.me.0.parts) }
        requires right { (0 < hits C.object 0 seat.old.me.0.grey)
            × (0 < hits C.object C.target seat.old.me.0.known) }
        requires shape { IsShapeOf C.setup won }
        ensures own { (seat.new.table_id ≡ seat.old.table_id)
            × (seat.new.me.0 ≡ gives_scan C.object seat.old.me.0) }
        ensures object { (result.object ≡ won.object) × (result.target ≡ won.target) }
        ensures grey { IsGrey self.now result }
    {
        let token = give_scan::<C>(&self.row.words, seat);
        let Won {
            object,
            target,
            size,
            refs,
        } = won;
        Grey {
            seat: token,
            object,
            target,
            size,
            refs,
        }
    }

    /// Sets the unlog bit of an object that stays.
    #[inline(always)]
    fn copy_in_place<C: About>(&self, seat: &mut TraceSeat, won: &Won)
        requires about { (setup_at self.now ≡ C.setup) × (won.now.object ≡ C.object)
            × (C.index ≡ size_of_object C.setup C.object) }
        requires table { IsTable self.now }
        requires own { seat.old.table_id ≡ self.now.row.words.table_id }
        requires won { IsWon C.setup seat.old.me.0 won.now }
        requires stays { won.now.target ≡ won.now.object }
        ensures own { seat.new.table_id ≡ seat.old.table_id }
        ensures share { seat.new.me ≡ (ends_copy C.object C.index seat.old.me.0, seat.old.me.1) }
    {
        let index = won.object - self.layout.heap_base();
        let word = (self.layout.unlog_base() + index / BITS_PER_WORD) as usize;
        set_unlog_in_place::<C>(&self.row.words, seat, word, 1 << (index % BITS_PER_WORD));
    }

    /// Copies the words of an object that moves.
    fn copy_words(&self, seat: &mut TraceSeat, won: &Won)
        requires table { IsTable self.now }
        requires own { seat.old.table_id ≡ self.now.row.words.table_id }
        requires won { IsWon (setup_at self.now) seat.old.me.0 won.now }
        requires moves { won.now.target ≢ won.now.object }
        ensures own { seat.new.table_id ≡ seat.old.table_id }
        ensures share { Copying won.now.object won.now.size seat.old.me.0 seat.new.me.0 }
    {
        for k in 0..won.size {
            self.copy_step::<Brand>(seat, won, k);
        }
    }

    /// Copies the next word.
    fn copy_step<C: About>(&self, seat: &mut TraceSeat, won: &Won, k: u32)
        requires about { (setup_at self.now ≡ C.setup) × (won.now.object ≡ C.object)
            × (won.now.target ≡ C.target) × (k ≡ C.index) }
        requires table { IsTable self.now }
        requires own { seat.old.table_id ≡ self.now.row.words.table_id }
        requires may { MayCopy C.setup seat.old.me.0 C.object C.target C.index }
        requires shape { IsShapeOf C.setup won.now }
        requires step { k < won.now.size }
        ensures own { seat.new.table_id ≡ seat.old.table_id }
        ensures share { seat.new.me ≡ (copies_on C.object C.index seat.old.me.0, seat.old.me.1) }
    {
        let offset = offset_at(won.size, k);
        let at = won.target as usize + offset as usize;
        if offset == COLLECTOR_OFFSET {
            let word = encode(self.run.number, won.target);
            copy_word::<C>(&self.row.words, seat, at, word);
            return;
        }
        let word = read_word::<C>(&self.row.words, seat, won.object, offset);
        copy_word::<C>(&self.row.words, seat, at, word);
    }

    /// Sets the unlog bit of a copy.
    fn set_unlog<C: About>(&self, seat: &mut TraceSeat, won: &Won)
        requires about { (setup_at self.now ≡ C.setup) × (won.now.object ≡ C.object)
            × (won.now.target ≡ C.target) × (C.index ≡ size_of_object C.setup C.object) }
        requires table { IsTable self.now }
        requires own { seat.old.table_id ≡ self.now.row.words.table_id }
        requires may { MayCopy C.setup seat.old.me.0 C.object C.target C.index }
        requires shape { IsShapeOf C.setup won.now }
        requires moves { C.target ≢ C.object }
        ensures own { seat.new.table_id ≡ seat.old.table_id }
        ensures share { seat.new.me ≡ (copies_on C.object C.index seat.old.me.0, seat.old.me.1) }
    {
        let index = won.target - self.layout.heap_base();
        let word = (self.layout.unlog_base() + index / BITS_PER_WORD) as usize;
        set_unlog_of_copy::<C>(&self.row.words, seat, word, 1 << (index % BITS_PER_WORD));
    }

    /// Sets the start bit of a copy.
    fn set_start<C: About>(&self, seat: &mut TraceSeat, won: &Won)
        requires about { (setup_at self.now ≡ C.setup) × (won.now.object ≡ C.object)
            × (won.now.target ≡ C.target) × (C.index ≡ size_of_object C.setup C.object + 1) }
        requires table { IsTable self.now }
        requires own { seat.old.table_id ≡ self.now.row.words.table_id }
        requires may { MayCopy C.setup seat.old.me.0 C.object C.target C.index }
        requires shape { IsShapeOf C.setup won.now }
        ensures own { seat.new.table_id ≡ seat.old.table_id }
        ensures share { seat.new.me ≡ (ends_copy C.object C.index seat.old.me.0, seat.old.me.1) }
    {
        let index = won.target - self.layout.heap_base();
        let word = (self.layout.start_base() + index / BITS_PER_WORD) as usize;
        set_start_of_copy::<C>(&self.row.words, seat, word, 1 << (index % BITS_PER_WORD));
    }
}

/// The offset of the word that step `k` copies: the collector word comes last.
fn offset_at(size: u32, k: u32) -> u32
    requires { k < size }
    ensures offset { result ≡ offset_of_step size k }
    ensures within { result < size }
{
    if k < COLLECTOR_OFFSET {
        return k;
    }
    if k + 1 < size {
        return k + 1;
    }
    COLLECTOR_OFFSET
}
