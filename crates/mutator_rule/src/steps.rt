//! The atomic steps of a seat. Each makes the event that it is handed, without use at run time.

ghost use Rattle.std.specs.Prelude.{◌≡◌, ◌<◌, ◌+◌, ◌%◌, ◌^◌, ◌==◌, ℕ, slice_set, bit_or, bit_and, true, false};
ghost use prog.Atomic.{either};
ghost use Rattle.mutator_core.specs.Machine.{word_of_event, stored, local_after};
ghost use Rattle.mutator_core.specs.Guards.{MayStep};
ghost use Rattle.mutator_rule.specs.Logs.{MakesStep};
ghost use Rattle.mutator_rule.specs.Seats.{IsSeatOf, known, epoch_of_seat, local_of};

use crate::racing_row::RacingRow;
use crate::rule::{EpochRules, FindsStored, FindsWord, PicksEvent, StoresWord};
use crate::seat::MutatorSeat;
use ideal_heap::REGISTERS;
use mutator_core::Event;
use std::marker::Brand;

impl<P: EpochRules> RacingRow<P> {
    #[inline(always)]
    fn look_as<E: PicksEvent>(&self, me: &mut MutatorSeat, at: usize, _event: &Event) -> u64
        requires event { E.event ≡ _event.now }
        requires own { IsSeatOf P.rules self.now me.old }
        requires may { MayStep (epoch_of_seat P.rules me.old) (local_of me.old) E.event }
        requires place { word_of_event (epoch_of_seat P.rules me.old) (local_of me.old)
            E.event ≡ at }
        requires stored { stored (epoch_of_seat P.rules me.old) (local_of me.old) E.event
            ≡ (λ n. n) }
        requires quiet { (n : ℕ)
            → (local_after (epoch_of_seat P.rules me.old) (local_of me.old) E.event n).registers
            ≡ (local_of me.old).registers }
        requires births { (n : ℕ)
            → (local_after (epoch_of_seat P.rules me.old) (local_of me.old) E.event n).births
            ≡ (local_of me.old).births }
        requires inside { at < self.now.row.words.table_id.words }
        ensures own { IsSeatOf P.rules self.now me.new }
        ensures notes { me.new.notes ≡ me.old.notes }
        ensures registers { me.new.registers ≡ me.old.registers }
        ensures step { MakesStep P.rules (known me.old) E.event result (known me.new) }
    {
        self.row.words.load::<FindsWord<P, E>>(&mut me.seat, at)
    }

    /// A load that makes the event, which leaves the registers.
    #[inline(always)]
    pub fn look(&self, me: &mut MutatorSeat, at: usize, event: &Event) -> u64
        requires own { IsSeatOf P.rules self.now me.old }
        requires may { MayStep (epoch_of_seat P.rules me.old) (local_of me.old) event.now }
        requires place { word_of_event (epoch_of_seat P.rules me.old) (local_of me.old)
            event.now ≡ at }
        requires stored { stored (epoch_of_seat P.rules me.old) (local_of me.old) event.now
            ≡ (λ n. n) }
        requires quiet { (n : ℕ)
            → (local_after (epoch_of_seat P.rules me.old) (local_of me.old) event.now n).registers
            ≡ (local_of me.old).registers }
        requires births { (n : ℕ)
            → (local_after (epoch_of_seat P.rules me.old) (local_of me.old) event.now n).births
            ≡ (local_of me.old).births }
        requires inside { at < self.now.row.words.table_id.words }
        ensures own { IsSeatOf P.rules self.now me.new }
        ensures notes { me.new.notes ≡ me.old.notes }
        ensures registers { me.new.registers ≡ me.old.registers }
        ensures step { MakesStep P.rules (known me.old) event.now result (known me.new) }
    {
        self.look_as::<Brand>(me, at, event)
    }

    #[inline(always)]
    fn look_into_as<E: PicksEvent>(
        &self,
        me: &mut MutatorSeat,
        at: usize,
        d: u32,
        _event: &Event,
    ) -> u32
        requires event { E.event ≡ _event.now }
        requires own { IsSeatOf P.rules self.now me.old }
        requires may { MayStep (epoch_of_seat P.rules me.old) (local_of me.old) E.event }
        requires place { word_of_event (epoch_of_seat P.rules me.old) (local_of me.old)
            E.event ≡ at }
        requires stored { stored (epoch_of_seat P.rules me.old) (local_of me.old) E.event
            ≡ (λ n. n) }
        requires quiet { (n : ℕ)
            → (local_after (epoch_of_seat P.rules me.old) (local_of me.old) E.event n).registers
            ≡ slice_set (local_of me.old).registers d n }
        requires births { (n : ℕ)
            → (local_after (epoch_of_seat P.rules me.old) (local_of me.old) E.event n).births
            ≡ (local_of me.old).births }
        requires inside { at < self.now.row.words.table_id.words }
        requires register { d < REGISTERS }
        ensures own { IsSeatOf P.rules self.now me.new }
        ensures notes { me.new.notes ≡ me.old.notes }
        ensures registers { me.new.registers ≡ slice_set me.old.registers d result }
        ensures step { MakesStep P.rules (known me.old) E.event result (known me.new) }
    {
        let found = self.row.words.load::<FindsWord<P, E>>(&mut me.seat, at) as u32;
        me.registers[d as usize] = found;
        found
    }

    /// A load that makes the event: register `d` gets the word.
    #[inline(always)]
    pub fn look_into(&self, me: &mut MutatorSeat, at: usize, d: u32, event: &Event) -> u32
        requires own { IsSeatOf P.rules self.now me.old }
        requires may { MayStep (epoch_of_seat P.rules me.old) (local_of me.old) event.now }
        requires place { word_of_event (epoch_of_seat P.rules me.old) (local_of me.old)
            event.now ≡ at }
        requires stored { stored (epoch_of_seat P.rules me.old) (local_of me.old) event.now
            ≡ (λ n. n) }
        requires quiet { (n : ℕ)
            → (local_after (epoch_of_seat P.rules me.old) (local_of me.old) event.now n).registers
            ≡ slice_set (local_of me.old).registers d n }
        requires births { (n : ℕ)
            → (local_after (epoch_of_seat P.rules me.old) (local_of me.old) event.now n).births
            ≡ (local_of me.old).births }
        requires inside { at < self.now.row.words.table_id.words }
        requires register { d < REGISTERS }
        ensures own { IsSeatOf P.rules self.now me.new }
        ensures notes { me.new.notes ≡ me.old.notes }
        ensures registers { me.new.registers ≡ slice_set me.old.registers d result }
        ensures step { MakesStep P.rules (known me.old) event.now result (known me.new) }
    {
        self.look_into_as::<Brand>(me, at, d, event)
    }

    #[inline(always)]
    fn copy_as<E: PicksEvent>(
        &self,
        me: &mut MutatorSeat,
        at: usize,
        d: u32,
        value: u32,
        _event: &Event,
    )
        requires event { E.event ≡ _event.now }
        requires own { IsSeatOf P.rules self.now me.old }
        requires may { MayStep (epoch_of_seat P.rules me.old) (local_of me.old) E.event }
        requires place { word_of_event (epoch_of_seat P.rules me.old) (local_of me.old)
            E.event ≡ at }
        requires stored { stored (epoch_of_seat P.rules me.old) (local_of me.old) E.event
            ≡ (λ n. n) }
        requires quiet { (n : ℕ)
            → (local_after (epoch_of_seat P.rules me.old) (local_of me.old) E.event n).registers
            ≡ slice_set (local_of me.old).registers d value }
        requires births { (n : ℕ)
            → (local_after (epoch_of_seat P.rules me.old) (local_of me.old) E.event n).births
            ≡ (local_of me.old).births }
        requires inside { at < self.now.row.words.table_id.words }
        requires register { d < REGISTERS }
        ensures own { IsSeatOf P.rules self.now me.new }
        ensures notes { me.new.notes ≡ me.old.notes }
        ensures registers { me.new.registers ≡ slice_set me.old.registers d value }
        ensures step { (found : ℕ)
            × MakesStep P.rules (known me.old) E.event found (known me.new) }
    {
        self.row.words.load::<FindsWord<P, E>>(&mut me.seat, at);
        me.registers[d as usize] = value;
    }

    /// A load that makes the event: register `d` gets the value.
    #[inline(always)]
    pub fn copy(&self, me: &mut MutatorSeat, at: usize, d: u32, value: u32, event: &Event)
        requires own { IsSeatOf P.rules self.now me.old }
        requires may { MayStep (epoch_of_seat P.rules me.old) (local_of me.old) event.now }
        requires place { word_of_event (epoch_of_seat P.rules me.old) (local_of me.old)
            event.now ≡ at }
        requires stored { stored (epoch_of_seat P.rules me.old) (local_of me.old) event.now
            ≡ (λ n. n) }
        requires quiet { (n : ℕ)
            → (local_after (epoch_of_seat P.rules me.old) (local_of me.old) event.now n).registers
            ≡ slice_set (local_of me.old).registers d value }
        requires births { (n : ℕ)
            → (local_after (epoch_of_seat P.rules me.old) (local_of me.old) event.now n).births
            ≡ (local_of me.old).births }
        requires inside { at < self.now.row.words.table_id.words }
        requires register { d < REGISTERS }
        ensures own { IsSeatOf P.rules self.now me.new }
        ensures notes { me.new.notes ≡ me.old.notes }
        ensures registers { me.new.registers ≡ slice_set me.old.registers d value }
        ensures step { (found : ℕ)
            × MakesStep P.rules (known me.old) event.now found (known me.new) }
    {
        self.copy_as::<Brand>(me, at, d, value, event);
    }

    #[inline(always)]
    fn put_as<E: PicksEvent>(&self, me: &mut MutatorSeat, at: usize, new: u64, _event: &Event)
        requires event { E.event ≡ _event.now }
        requires own { IsSeatOf P.rules self.now me.old }
        requires may { MayStep (epoch_of_seat P.rules me.old) (local_of me.old) E.event }
        requires place { word_of_event (epoch_of_seat P.rules me.old) (local_of me.old)
            E.event ≡ at }
        requires stored { stored (epoch_of_seat P.rules me.old) (local_of me.old) E.event
            ≡ (λ _. new) }
        requires quiet { (n : ℕ)
            → (local_after (epoch_of_seat P.rules me.old) (local_of me.old) E.event n).registers
            ≡ (local_of me.old).registers }
        requires births { (n : ℕ)
            → (local_after (epoch_of_seat P.rules me.old) (local_of me.old) E.event n).births
            ≡ (local_of me.old).births }
        requires inside { at < self.now.row.words.table_id.words }
        ensures own { IsSeatOf P.rules self.now me.new }
        ensures notes { me.new.notes ≡ me.old.notes }
        ensures registers { me.new.registers ≡ me.old.registers }
        ensures step { (found : ℕ)
            × MakesStep P.rules (known me.old) E.event found (known me.new) }
    {
        self.row
            .words
            .store::<StoresWord<P, E>>(&mut me.seat, at, new);
    }

    // A load, which makes the event if the word already is what the event stores, else nothing.
    #[inline(always)]
    fn finds_as<E: PicksEvent>(
        &self,
        me: &mut MutatorSeat,
        at: usize,
        new: u64,
        _event: &Event,
    ) -> bool
        requires event { E.event ≡ _event.now }
        requires own { IsSeatOf P.rules self.now me.old }
        requires may { MayStep (epoch_of_seat P.rules me.old) (local_of me.old) E.event }
        requires place { word_of_event (epoch_of_seat P.rules me.old) (local_of me.old)
            E.event ≡ at }
        requires stored { stored (epoch_of_seat P.rules me.old) (local_of me.old) E.event
            ≡ (λ _. new) }
        requires quiet { (n : ℕ)
            → (local_after (epoch_of_seat P.rules me.old) (local_of me.old) E.event n).registers
            ≡ (local_of me.old).registers }
        requires births { (n : ℕ)
            → (local_after (epoch_of_seat P.rules me.old) (local_of me.old) E.event n).births
            ≡ (local_of me.old).births }
        requires inside { at < self.now.row.words.table_id.words }
        ensures own { IsSeatOf P.rules self.now me.new }
        ensures notes { me.new.notes ≡ me.old.notes }
        ensures registers { me.new.registers ≡ me.old.registers }
        ensures step { result ≡ true
            → MakesStep P.rules (known me.old) E.event new (known me.new) }
        ensures nothing { result ≡ false → known me.new ≡ known me.old }
    {
        self.row.words.load::<FindsStored<P, E>>(&mut me.seat, at) == new
    }

    /// A store that makes the event. If the word is so already, a load makes it, in a fifth of the
    /// time.
    #[inline(always)]
    pub fn put(&self, me: &mut MutatorSeat, at: usize, new: u64, event: &Event)
        requires own { IsSeatOf P.rules self.now me.old }
        requires may { MayStep (epoch_of_seat P.rules me.old) (local_of me.old) event.now }
        requires place { word_of_event (epoch_of_seat P.rules me.old) (local_of me.old)
            event.now ≡ at }
        requires stored { stored (epoch_of_seat P.rules me.old) (local_of me.old) event.now
            ≡ (λ _. new) }
        requires quiet { (n : ℕ)
            → (local_after (epoch_of_seat P.rules me.old) (local_of me.old) event.now n).registers
            ≡ (local_of me.old).registers }
        requires births { (n : ℕ)
            → (local_after (epoch_of_seat P.rules me.old) (local_of me.old) event.now n).births
            ≡ (local_of me.old).births }
        requires inside { at < self.now.row.words.table_id.words }
        ensures own { IsSeatOf P.rules self.now me.new }
        ensures notes { me.new.notes ≡ me.old.notes }
        ensures registers { me.new.registers ≡ me.old.registers }
        ensures step { (found : ℕ)
            × MakesStep P.rules (known me.old) event.now found (known me.new) }
    {
        if self.finds_as::<Brand>(me, at, new, event) {
            return;
        }
        self.put_as::<Brand>(me, at, new, event);
    }

    #[inline(always)]
    fn exchange_as<E: PicksEvent>(
        &self,
        me: &mut MutatorSeat,
        at: usize,
        was: u64,
        new: u64,
        _event: &Event,
    ) -> u64
        requires event { E.event ≡ _event.now }
        requires own { IsSeatOf P.rules self.now me.old }
        requires may { MayStep (epoch_of_seat P.rules me.old) (local_of me.old) E.event }
        requires place { word_of_event (epoch_of_seat P.rules me.old) (local_of me.old)
            E.event ≡ at }
        requires stored { stored (epoch_of_seat P.rules me.old) (local_of me.old) E.event
            ≡ (λ n. either (n == was) new n) }
        requires quiet { (n : ℕ)
            → (local_after (epoch_of_seat P.rules me.old) (local_of me.old) E.event n).registers
            ≡ (local_of me.old).registers }
        requires births { (n : ℕ)
            → (local_after (epoch_of_seat P.rules me.old) (local_of me.old) E.event n).births
            ≡ (local_of me.old).births }
        requires inside { at < self.now.row.words.table_id.words }
        ensures own { IsSeatOf P.rules self.now me.new }
        ensures notes { me.new.notes ≡ me.old.notes }
        ensures registers { me.new.registers ≡ me.old.registers }
        ensures step { MakesStep P.rules (known me.old) E.event result (known me.new) }
    {
        self.row
            .words
            .compare_exchange::<FindsWord<P, E>>(&mut me.seat, at, was, new)
    }

    /// A compare-exchange that makes the event.
    #[inline(always)]
    pub fn exchange(
        &self,
        me: &mut MutatorSeat,
        at: usize,
        was: u64,
        new: u64,
        event: &Event,
    ) -> u64
        requires own { IsSeatOf P.rules self.now me.old }
        requires may { MayStep (epoch_of_seat P.rules me.old) (local_of me.old) event.now }
        requires place { word_of_event (epoch_of_seat P.rules me.old) (local_of me.old)
            event.now ≡ at }
        requires stored { stored (epoch_of_seat P.rules me.old) (local_of me.old) event.now
            ≡ (λ n. either (n == was) new n) }
        requires quiet { (n : ℕ)
            → (local_after (epoch_of_seat P.rules me.old) (local_of me.old) event.now n).registers
            ≡ (local_of me.old).registers }
        requires births { (n : ℕ)
            → (local_after (epoch_of_seat P.rules me.old) (local_of me.old) event.now n).births
            ≡ (local_of me.old).births }
        requires inside { at < self.now.row.words.table_id.words }
        ensures own { IsSeatOf P.rules self.now me.new }
        ensures notes { me.new.notes ≡ me.old.notes }
        ensures registers { me.new.registers ≡ me.old.registers }
        ensures step { MakesStep P.rules (known me.old) event.now result (known me.new) }
    {
        self.exchange_as::<Brand>(me, at, was, new, event)
    }

    #[inline(always)]
    fn add_as<E: PicksEvent>(&self, me: &mut MutatorSeat, at: usize, k: u64, _event: &Event) -> u64
        requires event { E.event ≡ _event.now }
        requires own { IsSeatOf P.rules self.now me.old }
        requires may { MayStep (epoch_of_seat P.rules me.old) (local_of me.old) E.event }
        requires place { word_of_event (epoch_of_seat P.rules me.old) (local_of me.old)
            E.event ≡ at }
        requires stored { stored (epoch_of_seat P.rules me.old) (local_of me.old) E.event
            ≡ (λ n. (n + k) % 2 ^ 64) }
        requires quiet { (n : ℕ)
            → (local_after (epoch_of_seat P.rules me.old) (local_of me.old) E.event n).registers
            ≡ (local_of me.old).registers }
        requires births { (n : ℕ)
            → (local_after (epoch_of_seat P.rules me.old) (local_of me.old) E.event n).births
            ≡ (local_of me.old).births }
        requires inside { at < self.now.row.words.table_id.words }
        ensures own { IsSeatOf P.rules self.now me.new }
        ensures notes { me.new.notes ≡ me.old.notes }
        ensures registers { me.new.registers ≡ me.old.registers }
        ensures step { MakesStep P.rules (known me.old) E.event result (known me.new) }
    {
        self.row
            .words
            .fetch_add::<FindsWord<P, E>>(&mut me.seat, at, k)
    }

    /// An addition that makes the event.
    #[inline(always)]
    pub fn add(&self, me: &mut MutatorSeat, at: usize, k: u64, event: &Event) -> u64
        requires own { IsSeatOf P.rules self.now me.old }
        requires may { MayStep (epoch_of_seat P.rules me.old) (local_of me.old) event.now }
        requires place { word_of_event (epoch_of_seat P.rules me.old) (local_of me.old)
            event.now ≡ at }
        requires stored { stored (epoch_of_seat P.rules me.old) (local_of me.old) event.now
            ≡ (λ n. (n + k) % 2 ^ 64) }
        requires quiet { (n : ℕ)
            → (local_after (epoch_of_seat P.rules me.old) (local_of me.old) event.now n).registers
            ≡ (local_of me.old).registers }
        requires births { (n : ℕ)
            → (local_after (epoch_of_seat P.rules me.old) (local_of me.old) event.now n).births
            ≡ (local_of me.old).births }
        requires inside { at < self.now.row.words.table_id.words }
        ensures own { IsSeatOf P.rules self.now me.new }
        ensures notes { me.new.notes ≡ me.old.notes }
        ensures registers { me.new.registers ≡ me.old.registers }
        ensures step { MakesStep P.rules (known me.old) event.now result (known me.new) }
    {
        self.add_as::<Brand>(me, at, k, event)
    }

    #[inline(always)]
    fn set_as<E: PicksEvent>(
        &self,
        me: &mut MutatorSeat,
        at: usize,
        bits: u64,
        _event: &Event,
    ) -> u64
        requires event { E.event ≡ _event.now }
        requires own { IsSeatOf P.rules self.now me.old }
        requires may { MayStep (epoch_of_seat P.rules me.old) (local_of me.old) E.event }
        requires place { word_of_event (epoch_of_seat P.rules me.old) (local_of me.old)
            E.event ≡ at }
        requires stored { stored (epoch_of_seat P.rules me.old) (local_of me.old) E.event
            ≡ (λ n. bit_or n bits) }
        requires quiet { (n : ℕ)
            → (local_after (epoch_of_seat P.rules me.old) (local_of me.old) E.event n).registers
            ≡ (local_of me.old).registers }
        requires births { (n : ℕ)
            → (local_after (epoch_of_seat P.rules me.old) (local_of me.old) E.event n).births
            ≡ (local_of me.old).births }
        requires inside { at < self.now.row.words.table_id.words }
        ensures own { IsSeatOf P.rules self.now me.new }
        ensures notes { me.new.notes ≡ me.old.notes }
        ensures registers { me.new.registers ≡ me.old.registers }
        ensures step { MakesStep P.rules (known me.old) E.event result (known me.new) }
    {
        self.row
            .words
            .fetch_or::<FindsWord<P, E>>(&mut me.seat, at, bits)
    }

    /// A setting of bits that makes the event.
    #[inline(always)]
    pub fn set(&self, me: &mut MutatorSeat, at: usize, bits: u64, event: &Event) -> u64
        requires own { IsSeatOf P.rules self.now me.old }
        requires may { MayStep (epoch_of_seat P.rules me.old) (local_of me.old) event.now }
        requires place { word_of_event (epoch_of_seat P.rules me.old) (local_of me.old)
            event.now ≡ at }
        requires stored { stored (epoch_of_seat P.rules me.old) (local_of me.old) event.now
            ≡ (λ n. bit_or n bits) }
        requires quiet { (n : ℕ)
            → (local_after (epoch_of_seat P.rules me.old) (local_of me.old) event.now n).registers
            ≡ (local_of me.old).registers }
        requires births { (n : ℕ)
            → (local_after (epoch_of_seat P.rules me.old) (local_of me.old) event.now n).births
            ≡ (local_of me.old).births }
        requires inside { at < self.now.row.words.table_id.words }
        ensures own { IsSeatOf P.rules self.now me.new }
        ensures notes { me.new.notes ≡ me.old.notes }
        ensures registers { me.new.registers ≡ me.old.registers }
        ensures step { MakesStep P.rules (known me.old) event.now result (known me.new) }
    {
        self.set_as::<Brand>(me, at, bits, event)
    }

    #[inline(always)]
    fn clear_as<E: PicksEvent>(
        &self,
        me: &mut MutatorSeat,
        at: usize,
        mask: u64,
        _event: &Event,
    ) -> u64
        requires event { E.event ≡ _event.now }
        requires own { IsSeatOf P.rules self.now me.old }
        requires may { MayStep (epoch_of_seat P.rules me.old) (local_of me.old) E.event }
        requires place { word_of_event (epoch_of_seat P.rules me.old) (local_of me.old)
            E.event ≡ at }
        requires stored { stored (epoch_of_seat P.rules me.old) (local_of me.old) E.event
            ≡ (λ n. bit_and n mask) }
        requires quiet { (n : ℕ)
            → (local_after (epoch_of_seat P.rules me.old) (local_of me.old) E.event n).registers
            ≡ (local_of me.old).registers }
        requires births { (n : ℕ)
            → (local_after (epoch_of_seat P.rules me.old) (local_of me.old) E.event n).births
            ≡ (local_of me.old).births }
        requires inside { at < self.now.row.words.table_id.words }
        ensures own { IsSeatOf P.rules self.now me.new }
        ensures notes { me.new.notes ≡ me.old.notes }
        ensures registers { me.new.registers ≡ me.old.registers }
        ensures step { MakesStep P.rules (known me.old) E.event result (known me.new) }
    {
        self.row
            .words
            .fetch_and::<FindsWord<P, E>>(&mut me.seat, at, mask)
    }

    /// A clearing of bits that makes the event. The bits of the mask stay.
    #[inline(always)]
    pub fn clear(&self, me: &mut MutatorSeat, at: usize, mask: u64, event: &Event) -> u64
        requires own { IsSeatOf P.rules self.now me.old }
        requires may { MayStep (epoch_of_seat P.rules me.old) (local_of me.old) event.now }
        requires place { word_of_event (epoch_of_seat P.rules me.old) (local_of me.old)
            event.now ≡ at }
        requires stored { stored (epoch_of_seat P.rules me.old) (local_of me.old) event.now
            ≡ (λ n. bit_and n mask) }
        requires quiet { (n : ℕ)
            → (local_after (epoch_of_seat P.rules me.old) (local_of me.old) event.now n).registers
            ≡ (local_of me.old).registers }
        requires births { (n : ℕ)
            → (local_after (epoch_of_seat P.rules me.old) (local_of me.old) event.now n).births
            ≡ (local_of me.old).births }
        requires inside { at < self.now.row.words.table_id.words }
        ensures own { IsSeatOf P.rules self.now me.new }
        ensures notes { me.new.notes ≡ me.old.notes }
        ensures registers { me.new.registers ≡ me.old.registers }
        ensures step { MakesStep P.rules (known me.old) event.now result (known me.new) }
    {
        self.clear_as::<Brand>(me, at, mask, event)
    }

    #[inline(always)]
    fn publish_as<E: PicksEvent>(
        &self,
        me: &mut MutatorSeat,
        at: usize,
        mask: u64,
        d: u32,
        address: u32,
        _event: &Event,
    )
        requires event { E.event ≡ _event.now }
        requires own { IsSeatOf P.rules self.now me.old }
        requires may { MayStep (epoch_of_seat P.rules me.old) (local_of me.old) E.event }
        requires place { word_of_event (epoch_of_seat P.rules me.old) (local_of me.old)
            E.event ≡ at }
        requires stored { stored (epoch_of_seat P.rules me.old) (local_of me.old) E.event
            ≡ (λ n. bit_or n mask) }
        requires loads { (n : ℕ)
            → (local_after (epoch_of_seat P.rules me.old) (local_of me.old) E.event n).registers
            ≡ slice_set (local_of me.old).registers d address }
        requires births { (n : ℕ)
            → (local_after (epoch_of_seat P.rules me.old) (local_of me.old) E.event n).births
            ≡ (local_of me.old).births + 1 }
        requires few { me.old.births + 1 < 2 ^ 32 }
        requires inside { at < self.now.row.words.table_id.words }
        requires register { d < REGISTERS }
        ensures own { IsSeatOf P.rules self.now me.new }
        ensures notes { me.new.notes ≡ me.old.notes }
        ensures registers { me.new.registers ≡ slice_set me.old.registers d address }
        ensures births { me.new.births ≡ me.old.births + 1 }
        ensures step { (found : ℕ)
            × MakesStep P.rules (known me.old) E.event found (known me.new) }
    {
        self.row
            .words
            .fetch_or::<FindsWord<P, E>>(&mut me.seat, at, mask);
        me.registers[d as usize] = address;
        me.births += 1;
    }

    /// A setting of bits that makes the event, the birth of an object: register `d` gets its
    /// address.
    #[inline(always)]
    pub fn publish(
        &self,
        me: &mut MutatorSeat,
        at: usize,
        mask: u64,
        d: u32,
        address: u32,
        event: &Event,
    )
        requires own { IsSeatOf P.rules self.now me.old }
        requires may { MayStep (epoch_of_seat P.rules me.old) (local_of me.old) event.now }
        requires place { word_of_event (epoch_of_seat P.rules me.old) (local_of me.old)
            event.now ≡ at }
        requires stored { stored (epoch_of_seat P.rules me.old) (local_of me.old) event.now
            ≡ (λ n. bit_or n mask) }
        requires loads { (n : ℕ)
            → (local_after (epoch_of_seat P.rules me.old) (local_of me.old) event.now n).registers
            ≡ slice_set (local_of me.old).registers d address }
        requires births { (n : ℕ)
            → (local_after (epoch_of_seat P.rules me.old) (local_of me.old) event.now n).births
            ≡ (local_of me.old).births + 1 }
        requires few { me.old.births + 1 < 2 ^ 32 }
        requires inside { at < self.now.row.words.table_id.words }
        requires register { d < REGISTERS }
        ensures own { IsSeatOf P.rules self.now me.new }
        ensures notes { me.new.notes ≡ me.old.notes }
        ensures registers { me.new.registers ≡ slice_set me.old.registers d address }
        ensures births { me.new.births ≡ me.old.births + 1 }
        ensures step { (found : ℕ)
            × MakesStep P.rules (known me.old) event.now found (known me.new) }
    {
        self.publish_as::<Brand>(me, at, mask, d, address, event);
    }
}
