//! The words as threads see them, and what one thread knows. Each raw step is a line or two here.

ghost use Rattle.std.specs.Prelude.{◌≡◌, ℕ, List, ◌<◌, ◌+◌, ◌%◌, ◌^◌, ◌==◌, [], bit_and, bit_or};
ghost use Rattle.std.specs.Prelude.{length, slice_index};
ghost use mathlib.Core.Option.{none};
ghost use prog.Atomic.{either};
ghost use denote.Builtin.{unit};
ghost use Rattle.atomic_table.specs.Table.{State, Me, Final, Seen, Allows, Splits, Joins, step};
ghost use Rattle.atomic_table.specs.Table.{opening};
ghost use Rattle.atomic_table.specs.Seated.{TableId, table_id_coded, table_owns, table_shares};
ghost use Rattle.atomic_table.specs.Seated.{seat_owns};
ghost use Rattle.core.specs.Mem.Slots.{slots_items, slots_ptr, slots_len, IsFull};
ghost use Rattle.shared_row.specs.Words.{AllFit};

use atomic_table::{Join, Play, Split, TableRule, exchange};
use core::slots::Slots;
use std::marker::{Brand, Model, PhantomData};
use std::sync::atomic::Ordering::SeqCst;
use std::sync::atomic::raw;

/// Words that threads step on, each with a seat of its own. They own what a table of the kit does
/// that has no slots, where the second pointer is that of the words too.
pub struct SharedWords<V, K, P: TableRule<(), V, K>> {
    pub(crate) start: *mut u64,
    tied: PhantomData<(P, V, K)>,
    pub ghost table_id: { TableId } by { table_id_coded },
    pub ghost key: { K },
}

impl<V, K, P: TableRule<(), V, K>> Model for SharedWords<V, K, P> {
    ghost also_owns = { λ b. table_owns unit V.row.coded.code (P.holds b.key) b.start b.start
        b.table_id };

    ghost also_shares = { λ b _ κ. table_shares unit V.row.coded.code (P.holds b.key) b.start
        b.start b.table_id κ };
}

/// What one thread knows of a shared row. It has no bytes.
pub struct RowSeat<V> {
    tied: PhantomData<V>,
    pub ghost table_id: { TableId } by { table_id_coded },
    pub ghost id: { ℕ },
    pub ghost me: { Me (Unit {0}) V },
}

impl<V> Model for RowSeat<V> {
    ghost also_owns = { λ s. seat_owns unit V.row.coded.code s.table_id s.id s.me };
}

impl<V, K, P: TableRule<(), V, K>> SharedWords<V, K, P> {
    pub(crate) fn open(about: &K, places: Slots<u64>) -> (SharedWords<V, K, P>, RowSeat<V>)
        requires { IsFull places
            × P.holds about.now (opening (slots_items places) [] (P.first about.now)) }
        ensures row { (result.0.start ≡ slots_ptr places) × (result.0.key ≡ about.now)
            × (result.0.table_id.words ≡ slots_len places) × (result.0.table_id.slots ≡ 0) }
        ensures seat { (result.1.table_id ≡ result.0.table_id) × (result.1.id ≡ 0)
            × (result.1.me ≡ (P.first about.now, [])) }
    {
        let parts = unsafe { places.into_raw_parts() };
        (
            SharedWords {
                start: parts.0,
                tied: PhantomData,
            },
            RowSeat { tied: PhantomData },
        )
    }

    // The words are those of some state that keeps the rule and has the seat's view.
    pub(crate) fn close(self, seat: &mut RowSeat<V>, count: usize) -> Slots<u64>
        requires { (seat.old.table_id ≡ self.table_id) × (count ≡ self.table_id.words) }
        ensures places { (slots_ptr result ≡ self.start) × (slots_len result ≡ count)
            × IsFull result }
        ensures words { (xs : List (Unit {0}))
            × Final (Seen (P.holds self.key) seat.old.id seat.old.me.0) (slots_items result) xs }
        ensures fit { AllFit (slots_items result) }
    {
        let SharedWords { start, tied: _ } = self;
        unsafe { Slots::from_raw_parts(start, count) }
    }

    // The same where no seat is at hand.
    pub(crate) fn end(self, count: usize) -> Slots<u64>
        requires { count ≡ self.table_id.words }
        ensures { (slots_ptr result ≡ self.start) × (slots_len result ≡ count) }
    {
        let SharedWords { start, tied: _ } = self;
        unsafe { Slots::from_raw_parts(start, count) }
    }

    /// A load with no seat: the word is that of some state that keeps the rule.
    #[inline(always)]
    pub fn peek(&self, i: usize) -> u64
        requires { i < self.now.table_id.words }
        ensures { (s : State (Unit {0}) V) × P.holds self.now.key s
            × (length s.words ≡ self.now.table_id.words) × (slice_index s.words i ≡ result) }
    {
        unsafe { raw::load::<Brand>(self.start.add(i), SeqCst) }
    }

    /// The word at an index.
    #[inline(always)]
    pub fn load<M: Play<(), V>>(&self, seat: &mut RowSeat<V>, i: usize) -> u64
        requires { (seat.old.table_id ≡ self.now.table_id) × (i < self.now.table_id.words)
            × Allows (P.holds self.now.key) self.now.table_id.slots seat.old.id seat.old.me i
            (λ n. n) (M.then (step self.now.table_id.slots i 0 0 none) seat.old.me) }
        ensures { (seat.new.table_id ≡ seat.old.table_id) × (seat.new.id ≡ seat.old.id)
            × M.then (step self.now.table_id.slots i 0 0 none) seat.old.me result seat.new.me }
    {
        unsafe { raw::load::<Brand>(self.start.add(i), SeqCst) }
    }

    /// Sets the word at an index.
    #[inline(always)]
    pub fn store<M: Play<(), V>>(&self, seat: &mut RowSeat<V>, i: usize, new: u64)
        requires { (seat.old.table_id ≡ self.now.table_id) × (i < self.now.table_id.words)
            × Allows (P.holds self.now.key) self.now.table_id.slots seat.old.id seat.old.me i
            (λ _. new) (λ _. M.then (step self.now.table_id.slots i new 0 none) seat.old.me new) }
        ensures { (seat.new.table_id ≡ seat.old.table_id) × (seat.new.id ≡ seat.old.id)
            × M.then (step self.now.table_id.slots i new 0 none) seat.old.me new seat.new.me }
    {
        unsafe { raw::store::<Brand>(self.start.add(i), new, SeqCst) }
    }

    /// The word as it was, which has become `new` if it was `old`.
    #[inline(always)]
    pub fn compare_exchange<M: Play<(), V>>(
        &self,
        seat: &mut RowSeat<V>,
        i: usize,
        old: u64,
        new: u64,
    ) -> u64
        requires { (seat.old.table_id ≡ self.now.table_id) × (i < self.now.table_id.words)
            × Allows (P.holds self.now.key) self.now.table_id.slots seat.old.id seat.old.me i
            (λ n. either (n == old) new n)
            (M.then (step self.now.table_id.slots i old new none) seat.old.me) }
        ensures { (seat.new.table_id ≡ seat.old.table_id) × (seat.new.id ≡ seat.old.id)
            × M.then (step self.now.table_id.slots i old new none) seat.old.me result seat.new.me }
    {
        unsafe { exchange::<Brand>(self.start.add(i), old, new) }
    }

    /// The word as it was, to which `k` is added. The sum wraps.
    #[inline(always)]
    pub fn fetch_add<M: Play<(), V>>(&self, seat: &mut RowSeat<V>, i: usize, k: u64) -> u64
        requires { (seat.old.table_id ≡ self.now.table_id) × (i < self.now.table_id.words)
            × Allows (P.holds self.now.key) self.now.table_id.slots seat.old.id seat.old.me i
            (λ n. (n + k) % 2 ^ 64)
            (M.then (step self.now.table_id.slots i k 0 none) seat.old.me) }
        ensures { (seat.new.table_id ≡ seat.old.table_id) × (seat.new.id ≡ seat.old.id)
            × M.then (step self.now.table_id.slots i k 0 none) seat.old.me result seat.new.me }
    {
        unsafe { raw::fetch_add::<Brand>(self.start.add(i), k, SeqCst) }
    }

    /// The word as it was, of which the bits of `k` are set.
    #[inline(always)]
    pub fn fetch_or<M: Play<(), V>>(&self, seat: &mut RowSeat<V>, i: usize, k: u64) -> u64
        requires { (seat.old.table_id ≡ self.now.table_id) × (i < self.now.table_id.words)
            × Allows (P.holds self.now.key) self.now.table_id.slots seat.old.id seat.old.me i
            (λ n. bit_or n k)
            (M.then (step self.now.table_id.slots i k 0 none) seat.old.me) }
        ensures { (seat.new.table_id ≡ seat.old.table_id) × (seat.new.id ≡ seat.old.id)
            × M.then (step self.now.table_id.slots i k 0 none) seat.old.me result seat.new.me }
    {
        unsafe { raw::fetch_or::<Brand>(self.start.add(i), k, SeqCst) }
    }

    /// The word as it was, of which only the bits of `k` stay.
    #[inline(always)]
    pub fn fetch_and<M: Play<(), V>>(&self, seat: &mut RowSeat<V>, i: usize, k: u64) -> u64
        requires { (seat.old.table_id ≡ self.now.table_id) × (i < self.now.table_id.words)
            × Allows (P.holds self.now.key) self.now.table_id.slots seat.old.id seat.old.me i
            (λ n. bit_and n k)
            (M.then (step self.now.table_id.slots i k 0 none) seat.old.me) }
        ensures { (seat.new.table_id ≡ seat.old.table_id) × (seat.new.id ≡ seat.old.id)
            × M.then (step self.now.table_id.slots i k 0 none) seat.old.me result seat.new.me }
    {
        unsafe { raw::fetch_and::<Brand>(self.start.add(i), k, SeqCst) }
    }

    /// Cuts what the seat knows in two, and gives the second half a seat of its own. A view changes
    /// only at a step, so this and `join` load the first word and tell nothing of it.
    pub fn split<M: Split<V>>(&self, seat: &mut RowSeat<V>) -> RowSeat<V>
        requires { (seat.old.table_id ≡ self.now.table_id) × (0 < self.now.table_id.words)
            × Splits (P.holds self.now.key) seat.old.id seat.old.me.0 (M.left seat.old.me.0)
            (M.right seat.old.me.0) }
        ensures { (seat.new.table_id ≡ seat.old.table_id) × (seat.new.id ≡ seat.old.id)
            × (seat.new.me ≡ (M.left seat.old.me.0, seat.old.me.1))
            × (result.table_id ≡ seat.old.table_id) × (result.me ≡ (M.right seat.old.me.0, [])) }
    {
        unsafe { raw::load::<Brand>(self.start, SeqCst) };
        RowSeat { tied: PhantomData }
    }

    fn merge<M: Join<V>>(&self, seat: &mut RowSeat<V>, other: &mut RowSeat<V>)
        requires { (seat.old.table_id ≡ self.now.table_id)
            × (other.old.table_id ≡ self.now.table_id) × (0 < self.now.table_id.words)
            × Joins (P.holds self.now.key) seat.old.id seat.old.me.0 other.old.id other.old.me.0
            (M.both seat.old.me.0 other.old.me.0) M.spent }
        ensures { (seat.new.table_id ≡ seat.old.table_id) × (seat.new.id ≡ seat.old.id)
            × (seat.new.me ≡ (M.both seat.old.me.0 other.old.me.0, seat.old.me.1)) }
    {
        unsafe { raw::load::<Brand>(self.start, SeqCst) };
    }

    /// Takes in what another seat knows.
    pub fn join<M: Join<V>>(&self, seat: &mut RowSeat<V>, mut other: RowSeat<V>)
        requires { (seat.old.table_id ≡ self.now.table_id) × (other.table_id ≡ self.now.table_id)
            × (0 < self.now.table_id.words)
            × Joins (P.holds self.now.key) seat.old.id seat.old.me.0 other.id other.me.0
            (M.both seat.old.me.0 other.me.0) M.spent }
        ensures { (seat.new.table_id ≡ seat.old.table_id) × (seat.new.id ≡ seat.old.id)
            × (seat.new.me ≡ (M.both seat.old.me.0 other.me.0, seat.old.me.1)) }
    {
        self.merge::<M>(seat, &mut other);
    }
}

impl<V> Drop for RowSeat<V> {
    fn drop(self) {
        let RowSeat { tied: _ } = self;
    }
}

unsafe impl<V> Send for RowSeat<V> {}

unsafe impl<V, K, P: TableRule<(), V, K>> Send for SharedWords<V, K, P> {}

unsafe impl<V, K, P: TableRule<(), V, K>> Sync for SharedWords<V, K, P> {}
