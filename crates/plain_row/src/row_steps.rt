//! The atomic steps of the mutator whose turn it is, on the row.
//!
//! Called by `mutator_calls`, which puts steps together into calls. A step writes one word of the
//! row at most, registers, the ticket, a flag, or what a function of the search writes. It never
//! touches the seat or the mutator of another turn.

ghost use Rattle.std.specs.Prelude.{◌≡◌, ℕ, false};
ghost use Rattle.plain_row.specs.Rows.{address_at};
ghost use Rattle.plain_row.specs.Worlds.{MayCall, RegionHasRoomFor, Goes};
ghost use Rattle.plain_row.specs.Steps.{AllocatesIn, HasBudget, books_of, HasShape, HasName, MayStoreUnlogged, HasAges, IsAged, HasUnlogBit, Lacks, IsFull, IsOverflow, KeepsAll, KeepsRegion, IsUsed, Offers, PlacesAtRegion, HasStop};
ghost use Rattle.plain_row.specs.SeatLaws.{goes-after, goes-nothing, shape-some, tried-stays, overflow-stays, free-block-is-left};
ghost use Rattle.std.proofs.Common.{refl, ◌∙◌, ap, subst};

use crate::plain_row::PlainRow;
use heap_layout::{BUDGET_WORD, STOP_WORD};
use ideal_heap::{Command, Name};
use mutator_calls::{AllocationSteps, MutatorSteps};
use object_model::Shape;
use side_meta::test_bit;

impl MutatorSteps for PlainRow {
    ghost is_ready = { λ w. MayCall w };

    ghost address = { λ w s. address_at w s };

    ghost makes_steps = { λ a e b. Goes a e b };

    ghost only_loads = { λ a b. b ≡ a };

    ghost has_shape = { λ w s shape. HasShape w s shape };

    ghost has_name = { λ w a n. HasName w a n };

    ghost may_store_unlogged = { λ w s. MayStoreUnlogged w s };

    ghost has_ages = { λ w. HasAges w };

    ghost is_aged = { λ w s. IsAged w s };

    ghost is_marked = { λ w s. HasUnlogBit w s };

    ghost has_stop = { λ w n. HasStop w n };

    ghost looks_at_nothing = { λ a. refl };

    ghost looks_again = { λ a b c x y. y ∙ x };

    ghost one_after_another = { goes-after };

    ghost loads_do_nothing = { goes-nothing };

    ghost registers_stay = { λ a b s same. ap (λ w. address_at w s) same };

    ghost plans_stay = { λ a b same is. subst (λ w. HasAges w) same is };

    ghost ages_stay = { λ a b s same is. subst (λ w. IsAged w s) same is };

    ghost marks_stay = { λ a b s same is. subst (λ w. HasUnlogBit w s) same is };

    ghost shapes_are_of_objects = { shape-some };

    fn is_nil(&self, register: u32) -> bool {
        self.register(register) == 0
    }

    fn is_generational(&self) -> bool {
        self.young
    }

    fn load_shape(&mut self, register: u32) -> Shape {
        self.row.shape_at(self.register(register))
    }

    fn load_name(&mut self, register: u32) -> Name {
        self.row.name_at(self.register(register))
    }

    fn is_old(&mut self, register: u32) -> bool {
        let address = self.register(register);
        write_barrier::is_old(&self.row.words, self.row.base, address)
    }

    fn is_unlogged(&mut self, register: u32) -> bool {
        let address = self.register(register);
        write_barrier::is_unlogged(&self.row.words, &self.row.layout, address)
    }

    fn answer_null(&mut self, _command: &Command) {}

    fn answer_range(&mut self, _command: &Command, _shape: &Shape) {}

    fn copy_register(&mut self, d: u32, s: u32) {
        let address = self.register(s);
        self.set_register(d, address);
    }

    fn clear_register(&mut self, s: u32) {
        self.set_register(s, 0);
    }

    fn load_global(&mut self, d: u32, g: u32) {
        let address = self.row.global(g);
        self.set_register(d, address);
    }

    fn store_global(&mut self, g: u32, s: u32) {
        let at = self.row.layout.global_at(g) as usize;
        let address = self.register(s);
        self.store(at, address as u64);
    }

    fn load_field(&mut self, d: u32, s: u32, i: u32, _shape: &Shape) {
        let address = self.row.ref_at(self.register(s), i);
        self.set_register(d, address);
    }

    fn store_field(&mut self, s: u32, i: u32, v: u32, _shape: &Shape) {
        let at = self.field(s, i);
        let address = self.register(v);
        self.store(at, address as u64);
    }

    fn log_and_store_field(&mut self, s: u32, i: u32, v: u32, _shape: &Shape) {
        let object = self.register(s);
        self.flag_block(object);
        self.clear_unlog(object);
        let at = self.field(s, i);
        let address = self.register(v);
        self.store(at, address as u64);
    }

    fn load_number(&mut self, s: u32, j: u32, shape: &Shape) -> u64 {
        let at = self.number_word(s, j, shape);
        self.row.words.get(at)
    }

    fn store_number(&mut self, s: u32, j: u32, n: u64, shape: &Shape) {
        let at = self.number_word(s, j, shape);
        self.store(at, n);
    }

    fn add_number(&mut self, s: u32, j: u32, n: u64, shape: &Shape) -> u64 {
        let at = self.number_word(s, j, shape);
        let number = self.row.words.get(at);
        self.store(at, number.wrapping_add(n));
        number
    }

    fn exchange_number(&mut self, s: u32, j: u32, was: u64, next: u64, shape: &Shape) -> bool {
        let at = self.number_word(s, j, shape);
        if self.row.words.get(at) != was {
            return false;
        }
        self.store(at, next);
        true
    }

    fn set_pin(&mut self, s: u32) -> bool {
        let (at, bit) = self.bit_at(self.row.layout.pin_base(), self.register(s));
        let pinned = test_bit(&self.row.words, at, bit);
        self.set_bit(at, bit);
        !pinned
    }

    fn clear_pin(&mut self, s: u32) -> bool {
        let (at, bit) = self.bit_at(self.row.layout.pin_base(), self.register(s));
        let pinned = test_bit(&self.row.words, at, bit);
        self.clear_bit(at, bit);
        pinned
    }

    fn load_stop(&mut self) -> u32 {
        self.row.words.get(STOP_WORD) as u32
    }

    fn raise_stop(&mut self) {
        let stop = self.row.words.get(STOP_WORD);
        if stop == 0 {
            let number = self.number();
            self.store(0, number as u64);
        }
    }
}

impl AllocationSteps for PlainRow {
    ghost books = { λ w. books_of w };

    ghost has_no_room = { λ w size k. Lacks w size k };

    ghost is_used = { λ w k. IsUsed w k };

    ghost has_room = { λ w size. RegionHasRoomFor w size };

    ghost allocates_in = { λ w size k. AllocatesIn w size k };

    ghost is_full = { λ w size. IsFull w size };

    ghost is_overflow = { λ w size. IsOverflow w size };

    ghost keeps_regions = { λ a b. KeepsAll a b };

    ghost keeps_hole = { λ a b. KeepsRegion a b };

    ghost offers_room = { λ a b size. Offers a b size };

    ghost places = { λ b c d size. PlacesAtRegion b c d size };

    ghost has_budget = { λ w n. HasBudget w n };

    ghost regions_stay = { λ a b e goes still. (goes.fill, goes.regions still) };

    ghost tried_blocks_stay = { tried-stays };

    ghost overflows_stay = { overflow-stays };

    ghost hole_stays = { λ a b kept. kept.1.classes 0 };

    ghost hole_stays_kept = { λ a b c x y. record {
      block = y.block ∙ x.block;
      region = y.region ∙ x.region;
    } };

    ghost free_block_is_left = { free-block-is-left };

    fn blocks(&self) -> u32 {
        self.row.layout.blocks()
    }

    fn allowance(&self) -> u32 {
        self.allowance
    }

    fn ticket(&self) -> Option<u32> {
        self.seats[self.turn].ticket
    }

    #[inline(always)]
    fn allocate_here(&mut self, d: u32, shape: &Shape) -> Option<Name> {
        match self.allocate_if_room(d, shape) {
            Some(name) => Some(name),
            None => None,
        }
    }

    fn overflows(&self, size: u32) -> bool {
        self.is_overflow(size)
    }

    #[inline(always)]
    fn take_hole(&mut self, block: u32, size: u32) -> bool {
        self.take_hole_in(block, size)
    }

    fn take_own_hole(&mut self, size: u32) -> bool {
        self.take_hole_in_own(size)
    }

    fn draw_ticket(&mut self) -> u32 {
        let ticket = self.row.words.get(BUDGET_WORD);
        self.store(1, ticket + 1);
        let ticket = ticket as u32;
        let seat = &mut self.seats[self.turn];
        seat.ticket = Some(ticket);
        ticket
    }

    fn take_free(&mut self, block: u32, size: u32) -> bool {
        self.take_free_block(block, size)
    }

    #[inline(always)]
    fn publish(&mut self, d: u32, shape: &Shape) -> Name {
        self.allocate(d, shape)
    }
}
