//! How mutators begin to share a row, and how they end.

ghost use Rattle.std.specs.Prelude.{◌≡◌, ◌⊎◌, ℕ, ◌<◌, List, All, IfOk, length, map};
ghost use Rattle.ideal_heap.specs.Ideal.{IdealHeap};
ghost use Rattle.object_model.specs.Graphs.{AreDifferent, Represents, numbers_of};
ghost use Rattle.mutator_core.specs.Epochs.{EpochMayBegin};
ghost use mathlib.Core.Option.{some};
ghost use lib.ListN.{get_elem?};
ghost use Rattle.mutator_calls.specs.declared.need.Mutator.{Mutator};
ghost use Rattle.mutator_rule.specs.Views.{start_with, epoch_with, first_view, first_views, first_views_of};
ghost use Rattle.mutator_rule.specs.Logs.{EndsWith, KnowsLog};
ghost use Rattle.mutator_rule.specs.Seats.{known, AreSeatsOf, AreAtRow, HasFirstNotes, start_of};

use crate::racing_row::RacingRow;
use crate::rule::{Deal, EpochRules, Gather};
use crate::seat::MutatorSeat;
use crate::seat_notes::first_notes;
use crate::views::{RowKey, SeatView};
use heap_layout::Layout;
use mutator_calls::Mutator;
use shared_row::{RowSeat, WordRow};
use std::alloc::{AllocError, Global};
use std::snapshot::Snapshot;

impl<P: EpochRules> RacingRow<P> {
    /// A seat for each mutator, with a view of the first seat's.
    fn deal(
        &self,
        alloc: Global,
        mut chief: RowSeat<SeatView>,
        mutators: &Vec<Mutator>,
        allowance: u32,
    ) -> Result<Vec<MutatorSeat>, AllocError>
        requires own { chief.table_id ≡ self.now.row.words.table_id }
        requires views { chief.me.0 ≡ first_views_of (start_of self.now) mutators.now.items }
        requires told { (k : ℕ) (m : Mutator) → get_elem? mutators.now.items k ≡ some m
            → KnowsLog (epoch_with P.rules (start_of self.now))
            (first_view (start_of self.now) m) }
        ensures own { IfOk result (λ v. AreSeatsOf P.rules self.now v.items) }
        ensures views { IfOk result (λ v. map known v.items ≡ chief.me.0) }
        ensures notes { IfOk result (λ v. All (HasFirstNotes self.now allowance) v.items) }
    {
        let mut seats = Vec::new(alloc);
        for i in 0..mutators.len() {
            let notes = first_notes(alloc, self.layout.blocks(), allowance)?;
            let seat = self.row.words.split::<Deal>(&mut chief);
            let Mutator {
                number,
                births,
                registers,
            } = mutators[i];
            seats.push(MutatorSeat {
                seat,
                registers,
                number,
                births,
                notes,
            })?;
        }
        Ok(seats)
    }

    /// Mutators share the row from now on. Each gets a seat, in the order of the list, and notes
    /// the allowance. Copies no word.
    ///
    /// Fails if memory runs out. The row is lost then.
    pub fn begin(
        alloc: Global,
        words: WordRow,
        layout: Layout,
        number: u64,
        base: u64,
        mutators: &Vec<Mutator>,
        allowance: u32,
    ) -> Result<(RacingRow<P>, Vec<MutatorSeat>), AllocError>
        requires ready { EpochMayBegin (epoch_with P.rules
            (start_with words layout.blocks number base mutators.now.items)) }
        requires represents { (i : IdealHeap) × Represents (epoch_with P.rules
            (start_with words layout.blocks number base mutators.now.items)).before
            (epoch_with P.rules
            (start_with words layout.blocks number base mutators.now.items)).mutators i }
        requires differ { AreDifferent (numbers_of (epoch_with P.rules
            (start_with words layout.blocks number base mutators.now.items)).mutators) }
        ensures start { IfOk result (λ r. start_of r.0
            ≡ start_with words layout.blocks number base mutators.now.items) }
        ensures seats { IfOk result (λ r. AreSeatsOf P.rules r.0 r.1.items) }
        ensures views { IfOk result (λ r. map known r.1.items
            ≡ first_views (start_with words layout.blocks number base mutators.now.items)) }
        ensures notes { IfOk result (λ r. All (HasFirstNotes r.0 allowance) r.1.items) }
    {
        let about = RowKey {
            words: Snapshot::of(&words),
            layout,
            number,
            base,
            mutators: Snapshot::of(mutators),
        };
        let (row, chief) = words.share(&about);
        let row = RacingRow {
            row,
            layout,
            number,
            base,
        };
        let seats = row.deal(alloc, chief, mutators, allowance)?;
        Ok((row, seats))
    }

    /// One seat that has the views of all.
    fn gather(&self, mut seats: Vec<MutatorSeat>) -> RowSeat<SeatView>
        requires some { 0 < length seats.items }
        requires own { AreAtRow self.now seats.items }
        ensures own { result.table_id ≡ self.now.row.words.table_id }
        ensures views { result.me.0 ≡ map known seats.items }
    {
        let mut chief = match seats.pop() {
            Some(last) => last.into_row_seat(),
            None => unreachable!(),
        };
        while let Some(next) = seats.pop() {
            self.row
                .words
                .join::<Gather>(&mut chief, next.into_row_seat());
        }
        chief
    }

    /// The row as plain memory again. Copies no word and takes no memory.
    pub fn close(self, seats: Vec<MutatorSeat>) -> WordRow
        requires some { 0 < length seats.items }
        requires own { AreSeatsOf P.rules self seats.items }
        ensures { EndsWith P.rules (start_of self) (map known seats.items) result }
    {
        let chief = self.gather(seats);
        let RacingRow { row, .. } = self;
        row.into_row(chief)
    }
}
