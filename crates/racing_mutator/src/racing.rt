//! The atomic steps of a mutator that races with others over the words of a row.
//!
//! Called by `mutator_calls`, which puts steps together into calls.

ghost use Rattle.std.specs.Prelude.{◌≡◌, ◌≢◌, ◌+◌, ◌-◌, ◌/◌, ◌%◌, ◌^◌, ◌<◌, ◌≤◌, ℕ, true};
ghost use Rattle.heap_layout.specs.Zones.{heap_of, PinBits, UnlogBits};
ghost use Rattle.side_meta.specs.BitWords.{has_bit};
ghost use Rattle.mutator_calls.specs.Stopping.{stop_of};
ghost use Rattle.mutator_core.specs.declared.state.Event.TheVariants as event;
ghost use Rattle.mutator_rule.specs.Logs.{MakesStep};
ghost use Rattle.racing_mutator.specs.RacingSeats.{IsReady, IsBitOf, HasShape, HasName, MayStoreUnlogged, IsAged, IsMarked, HasStop, DoesEffect, OnlyLoads, address, view};
ghost use Rattle.racing_mutator.specs.SeatLaws.{loads-nothing, loads-twice, does-both, loads-do-nothing, loads-registers, loads-ages, loads-marks, shape-some};

use crate::plan_rules::PlanRules;
use bitflags::Flags;
use heap_layout::{STOP_WORD, block_of};
use ideal_heap::{Command, Name, REGISTERS};
use mutator_calls::{MutatorSteps, Polled};
use mutator_core::Event;
use mutator_rule::{MutatorSeat, RacingRow};
use object_model::{COLLECTOR_OFFSET, HEADER_WORDS, NUMS_UNIT, SHAPE_OFFSET, Shape};
use plan_api::{Plan, PlanFlags};
use side_meta::BITS_PER_WORD;

// What the birth number of a name is multiplied by in the name's word.
pub(crate) const BIRTH_UNIT: u64 = 32;

/// A mutator's seat, with the row that it is at.
#[derive(Drop)]
pub struct Racing<'a, 'b, P: Plan> {
    pub row: &'a RacingRow<PlanRules<P>>,
    pub seat: &'b mut MutatorSeat,
}

impl<P: Plan> Racing<'_, '_, P> {
    /// The address in a register.
    #[inline(always)]
    fn register(&self, register: u32) -> u32
        requires { register < REGISTERS }
        ensures { result ≡ address self.now register }
    {
        self.seat.register(register)
    }

    /// The index of the word with the bit of an address, in a zone that has a bit for each word of
    /// the heap, and the position of the bit in the word.
    #[inline(always)]
    pub(crate) fn bit_at(&self, zone: u32, address: u32) -> (usize, u32)
        requires { heap_of self.now.row.now.layout.blocks ≤ address }
        ensures word { result.0
            ≡ zone + (address - heap_of self.now.row.now.layout.blocks) / BITS_PER_WORD }
        ensures bit { result.1
            ≡ (address - heap_of self.now.row.now.layout.blocks) % BITS_PER_WORD }
    {
        let index = address - self.row.layout().heap_base();
        (
            zone as usize + index as usize / BITS_PER_WORD as usize,
            index % BITS_PER_WORD,
        )
    }

    /// The index of the word with the pin bit of the object in register `s`, and the position of
    /// the bit in it.
    #[inline(always)]
    fn pin_bit(&self, s: u32) -> (usize, u32)
        requires ready { IsReady P.rules self.now }
        requires register { s < REGISTERS }
        requires some { address self.now s ≢ 0 }
        ensures { IsBitOf P.rules self.now PinBits s result.0 result.1 }
    {
        self.bit_at(self.row.layout().pin_base(), self.register(s))
    }

    /// The same of the unlog bit.
    #[inline(always)]
    fn unlog_bit(&self, s: u32) -> (usize, u32)
        requires ready { IsReady P.rules self.now }
        requires register { s < REGISTERS }
        requires some { address self.now s ≢ 0 }
        ensures { IsBitOf P.rules self.now UnlogBits s result.0 result.1 }
    {
        self.bit_at(self.row.layout().unlog_base(), self.register(s))
    }

    /// The index of number `j` of the object in register `s`, whose shape is `shape`.
    #[inline(always)]
    fn number_word(&self, s: u32, j: u32, shape: &Shape) -> usize
        requires { s < REGISTERS }
        ensures { result ≡ address self.now s + HEADER_WORDS + shape.now.refs + j }
    {
        self.register(s) as usize + HEADER_WORDS as usize + shape.refs as usize + j as usize
    }

    /// Loads the stop word: the number of the mutator that raised a stop, or 0.
    fn stop_word(&mut self) -> u32
        requires { IsReady P.rules self.old }
        ensures ready { IsReady P.rules self.new }
        ensures looks { OnlyLoads P.rules self.old self.new }
        ensures step { MakesStep P.rules (view self.old) event.Poll result (view self.new) }
    {
        self.row.look(self.seat, STOP_WORD, &Event::Poll) as u32
    }

    /// Whether a stop is raised, and by which mutator: one load of the stop word.
    pub fn poll(&mut self) -> Polled
        requires { IsReady P.rules self.old }
        ensures ready { IsReady P.rules self.new }
        ensures looks { OnlyLoads P.rules self.old self.new }
        ensures step { MakesStep P.rules (view self.old) event.Poll (stop_of result)
            (view self.new) }
        ensures raised { (m : ℕ) → result ≡ Polled.Raised m → m ≢ 0 }
    {
        match self.stop_word() {
            0 => Polled::Go,
            mutator => Polled::Raised(mutator),
        }
    }
}

/// The word with one bit set.
#[inline(always)]
pub(crate) fn one_bit(bit: u32) -> u64
    requires { bit < BITS_PER_WORD }
    ensures { result ≡ 2 ^ bit }
{
    1 << bit
}

/// The word with all bits set but one.
#[inline(always)]
fn all_but(bit: u32) -> u64
    requires { bit < BITS_PER_WORD }
    ensures { result ≡ 2 ^ 64 - 1 - 2 ^ bit }
{
    u64::MAX - one_bit(bit)
}

/// Whether a bit of a word is set.
#[inline(always)]
pub(crate) fn is_set(word: u64, bit: u32) -> bool
    requires { bit < BITS_PER_WORD }
    ensures { result ≡ has_bit word bit }
{
    word >> bit & 1 == 1
}

impl<P: Plan> MutatorSteps for Racing<'_, '_, P> {
    ghost is_ready = { λ r. IsReady P.rules r };

    ghost address = { λ r s. address r s };

    ghost makes_steps = { λ a e b. DoesEffect P.rules a e b };

    ghost only_loads = { λ a b. OnlyLoads P.rules a b };

    ghost has_shape = { λ r s shape. HasShape r s shape };

    ghost has_name = { λ r a n. HasName P.rules r a n };

    ghost may_store_unlogged = { λ r s. MayStoreUnlogged P.rules r s };

    ghost has_ages = { λ r. P.rules.young ≡ true };

    ghost is_aged = { λ r s. IsAged P.rules r s };

    ghost is_marked = { λ r s. IsMarked P.rules r s };

    ghost has_stop = { λ r n. HasStop r n };

    ghost looks_at_nothing = { loads-nothing P.rules };

    ghost looks_again = { loads-twice P.rules };

    ghost one_after_another = { does-both P.rules };

    ghost loads_do_nothing = { loads-do-nothing P.rules };

    ghost registers_stay = { loads-registers P.rules };

    ghost plans_stay = { λ a b loads is. is };

    ghost ages_stay = { loads-ages P.rules };

    ghost marks_stay = { loads-marks P.rules };

    ghost shapes_are_of_objects = { shape-some };

    fn is_nil(&self, register: u32) -> bool {
        self.register(register) == 0
    }

    fn is_generational(&self) -> bool {
        P::FLAGS.contains(PlanFlags::YOUNG)
    }

    fn load_shape(&mut self, register: u32) -> Shape {
        let at = (self.register(register) + SHAPE_OFFSET) as usize;
        let word = self
            .row
            .look(self.seat, at, &Event::LoadShape(register as u64));
        Shape {
            refs: (word % NUMS_UNIT) as u32,
            nums: (word / NUMS_UNIT) as u32,
        }
    }

    fn load_name(&mut self, register: u32) -> Name {
        let at = self.register(register) as usize;
        let word = self
            .row
            .look(self.seat, at, &Event::LoadName(register as u64));
        Name {
            mutator: (word % BIRTH_UNIT) as u32,
            birth: (word / BIRTH_UNIT) as u32,
        }
    }

    fn is_old(&mut self, register: u32) -> bool {
        let at = (self.register(register) + COLLECTOR_OFFSET) as usize;
        let word = self
            .row
            .look(self.seat, at, &Event::LoadCollector(register as u64));
        forward_word::is_old(word, self.row.base())
    }

    fn is_unlogged(&mut self, register: u32) -> bool {
        let (at, bit) = self.unlog_bit(register);
        let word = self
            .row
            .look(self.seat, at, &Event::LoadUnlog(register as u64));
        is_set(word, bit)
    }

    fn answer_null(&mut self, command: &Command) {
        self.row.look(self.seat, STOP_WORD, &Event::Miss(*command));
    }

    fn answer_range(&mut self, command: &Command, _shape: &Shape) {
        self.row.look(self.seat, STOP_WORD, &Event::Miss(*command));
    }

    fn copy_register(&mut self, d: u32, s: u32) {
        let value = self.register(s);
        let event = Event::Perform(Command::Move { d, s });
        self.row.copy(self.seat, STOP_WORD, d, value, &event);
    }

    fn clear_register(&mut self, s: u32) {
        let event = Event::Perform(Command::DropReg { s });
        self.row.copy(self.seat, STOP_WORD, s, 0, &event);
    }

    fn load_global(&mut self, d: u32, g: u32) {
        let at = self.row.layout().global_at(g) as usize;
        let event = Event::Perform(Command::Load { d, g });
        self.row.look_into(self.seat, at, d, &event);
    }

    fn store_global(&mut self, g: u32, s: u32) {
        let at = self.row.layout().global_at(g) as usize;
        let value = self.register(s) as u64;
        let event = Event::Perform(Command::Share { g, s });
        self.row.put(self.seat, at, value, &event);
    }

    fn load_field(&mut self, d: u32, s: u32, i: u32, _shape: &Shape) {
        let at = self.register(s) as usize + HEADER_WORDS as usize + i as usize;
        let event = Event::Perform(Command::Get { d, s, i });
        self.row.look_into(self.seat, at, d, &event);
    }

    fn store_field(&mut self, s: u32, i: u32, v: u32, _shape: &Shape) {
        let at = self.register(s) as usize + HEADER_WORDS as usize + i as usize;
        let value = self.register(v) as u64;
        let event = Event::Perform(Command::Put { s, i, v });
        self.row.put(self.seat, at, value, &event);
    }

    fn log_and_store_field(&mut self, s: u32, i: u32, v: u32, _shape: &Shape) {
        let block = block_of(&self.row.layout(), self.register(s));
        let (at, bit) = self.unlog_bit(s);
        self.row
            .clear(self.seat, at, all_but(bit), &Event::ClearUnlog(s as u64));
        let at = self.register(s) as usize + HEADER_WORDS as usize + i as usize;
        let value = self.register(v) as u64;
        let event = Event::Perform(Command::Put { s, i, v });
        self.row.put(self.seat, at, value, &event);
        self.seat.set_flag(block as usize);
    }

    fn load_number(&mut self, s: u32, j: u32, shape: &Shape) -> u64 {
        let at = self.number_word(s, j, shape);
        let event = Event::Perform(Command::Read { s, j });
        self.row.look(self.seat, at, &event)
    }

    fn store_number(&mut self, s: u32, j: u32, n: u64, shape: &Shape) {
        let at = self.number_word(s, j, shape);
        let event = Event::Perform(Command::Write { s, j, n });
        self.row.put(self.seat, at, n, &event);
    }

    fn add_number(&mut self, s: u32, j: u32, n: u64, shape: &Shape) -> u64 {
        let at = self.number_word(s, j, shape);
        let event = Event::Perform(Command::Add { s, j, n });
        self.row.add(self.seat, at, n, &event)
    }

    fn exchange_number(&mut self, s: u32, j: u32, was: u64, next: u64, shape: &Shape) -> bool {
        let at = self.number_word(s, j, shape);
        let event = Event::Perform(Command::Swap { s, j, was, next });
        let found = self.row.exchange(self.seat, at, was, next, &event);
        found == was
    }

    fn set_pin(&mut self, s: u32) -> bool {
        let (at, bit) = self.pin_bit(s);
        let event = Event::Perform(Command::Pin { s });
        let word = self.row.set(self.seat, at, one_bit(bit), &event);
        !is_set(word, bit)
    }

    fn clear_pin(&mut self, s: u32) -> bool {
        let (at, bit) = self.pin_bit(s);
        let event = Event::Perform(Command::Unpin { s });
        let word = self.row.clear(self.seat, at, all_but(bit), &event);
        is_set(word, bit)
    }

    fn load_stop(&mut self) -> u32 {
        self.stop_word()
    }

    fn raise_stop(&mut self) {
        let number = self.seat.number() as u64;
        self.row
            .exchange(self.seat, STOP_WORD, 0, number, &Event::Raise);
    }
}
