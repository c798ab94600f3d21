//! The search for room, and allocation in a region.
//!
//! Called by the steps. Writes notes, `owned`, the mutator's seat, births and registers, block
//! words, and the words of new objects. When a block is taken, its word, its note, its entry in
//! `owned` and the seat change together. Never touches blocks that another mutator owns.

ghost use Rattle.std.specs.Prelude.{◌≡◌, ◌↔◌, ◌+◌, ◌<◌, ◌≤◌, ◌^◌, ℕ, Bool, true, false, length, Option, Some, None, IfSome, IfNone, slice_get, vec_len, vec_capacity};
ghost use Rattle.heap_layout.specs.Zones.{IsRowOf};
ghost use Rattle.heap_layout.specs.Blocks.{IsValidWord};
ghost use Rattle.heap_layout.specs.declared.region.Region.{Region};
ghost use Rattle.object_model.specs.Objects.{state_of, size_of, HasKind};
ghost use Rattle.sessions.specs.Fitting.{class_for as class_for_size};
ghost use Rattle.plan_api.specs.Holes.{IsFirstHole};
ghost use Rattle.plan_api.specs.Cursors.{RegionHasRoom, LacksRoom};
ghost use Rattle.heap_layout.specs.declared.block.Kind.TheVariants as kinds;
ghost use Rattle.block_regions.specs.declared.block_notes.BlockNote.TheVariants.{Unowned, Owned};
ghost use Rattle.block_regions.specs.Regions.{first_region as first_region_of};
ghost use Rattle.plain_row.specs.Rows.{IsTurn, number_at_turn, mutator_at_turn, seat_at_turn, births_of, regions_at_turn};
ghost use Rattle.local_allocators.specs.Seats.{ticket_of, block_of};
ghost use Rattle.plain_row.specs.Changes.{OwnsBlock, NotesBlock, ReturnsTo, FindsHole, LacksHole, Advances, CountsObject, AllocatesInRow};
ghost use Rattle.plain_row.specs.Worlds.{MayCall, RegionHasRoomFor, IsReadableSeat};
ghost use Rattle.plain_row.specs.Steps.{IsFull, IsOverflow};
ghost use Rattle.local_allocators.specs.MutatorRegions.{FillsLines, cursors_of, IsBlockFor};
ghost use Rattle.local_allocators.specs.NotedRegions.{region_of};

use crate::plain_row::PlainRow;
use block_regions::BlockNote;
use heap_layout::{BlockWord, CLASSES, Region};
use ideal_heap::{MAX_NUMS, MAX_REFS, Name, REGISTERS};
use local_allocators::{
    OwnRoom, block_for, class_of, first_hole, first_region, has_other_class, hole_block, is_free,
    overflows, own_room, rest_after,
};
use object_model::{HEADER_WORDS, MAX_MEDIUM_WORDS, Shape, size_words};

impl PlainRow {
    /// The block of the region that takes an object of `size` words. Under a plan with lines there
    /// is none if no region has room.
    #[inline(always)]
    fn block_for(&self, size: u32) -> Option<u32>
        requires seat { IsReadableSeat self.now }
        requires least { HEADER_WORDS ≤ size }
        requires hole { FillsLines self.now.fill
            → (cursors_of (regions_at_turn self.now)).hole.next
            ≤ (cursors_of (regions_at_turn self.now)).hole.end }
        requires over { FillsLines self.now.fill
            → (cursors_of (regions_at_turn self.now)).over.next
            ≤ (cursors_of (regions_at_turn self.now)).over.end }
        ensures some { IfSome result (λ k.
            IsBlockFor self.now.fill (regions_at_turn self.now) size k) }
        ensures room { FillsLines self.now.fill → IfSome result (λ k.
            RegionHasRoom (region_of self.now.notes.items (Some k)) size) }
        ensures none { FillsLines self.now.fill → IfNone result (LacksRoom
            (cursors_of (regions_at_turn self.now)) size) }
        ensures class { (FillsLines self.now.fill → ⊥)
            → result ≡ block_of (seat_at_turn self.now) (class_for_size self.now.fill size) }
    {
        block_for(&self.notes, &self.seats[self.turn], self.fill, size)
    }

    /// Whether an object of `size` words overflows the hole region, under a plan with lines: it
    /// takes more than a line, and the region has some words left, but too few.
    pub(crate) fn is_overflow(&self, size: u32) -> bool
        requires { MayCall self.now }
        ensures yes { result ≡ true → IsOverflow self.now size }
        ensures no { result ≡ false → IsOverflow self.now size → ⊥ }
    {
        overflows(&self.notes, &self.seats[self.turn], self.fill, size)
    }

    /// Makes the mutator the owner of a block, and the region the one that it allocates objects of
    /// the class in, or, if `over`, its overflow region.
    fn take(&mut self, over: bool, block: u32, class: u32, region: Region, ticket: Option<u32>)
        requires turn { IsTurn self.old }
        requires extent { IsRowOf self.old.row.layout self.old.row.words }
        requires block { block < self.old.row.layout.blocks }
        requires notes { block < length self.old.notes.items }
        requires room { vec_len self.old.owned < vec_capacity self.old.owned }
        requires class { class < CLASSES }
        requires valid { IsValidWord (record {
          kind = self.old.fill;
          class = class;
          owner = number_at_turn self.old;
        }) }
        ensures { OwnsBlock self.old self.new over block class region ticket }
    {
        let owner = self.number();
        let word = BlockWord {
            kind: self.fill,
            class,
            owner,
        };
        self.row.set_block(block, &word);
        self.notes[block as usize] = BlockNote::Owned { owner, region };
        self.owned.push_reserved(block);
        let seat = &mut self.seats[self.turn];
        seat.ticket = ticket;
        if over {
            seat.over = Some(block);
        } else {
            seat.blocks[class as usize] = Some(block);
        }
    }

    /// Allocates in an own block: the block becomes the one that the mutator allocates objects of
    /// the class in.
    fn return_to(&mut self, block: u32, class: u32)
        requires turn { IsTurn self.old }
        requires class { class < CLASSES }
        ensures { ReturnsTo self.old self.new block class }
    {
        self.seats[self.turn].blocks[class as usize] = Some(block);
    }

    /// Takes a block that nobody owns if it has a hole with room for `size` words.
    #[inline(never)]
    fn take_unowned(&mut self, block: u32, size: u32) -> bool
        requires ready { MayCall self.old }
        requires block { block < self.old.row.layout.blocks }
        requires note { (least : ℕ)
            × (slice_get self.old.notes.items block ≡ Some (Unowned least)) }
        requires least { HEADER_WORDS ≤ size }
        requires most { size ≤ MAX_MEDIUM_WORDS }
        ensures found { result ≡ true → (region : Region)
            × IsFirstHole self.old.fill (state_of self.old.row) block 0 size (Some region)
            × OwnsBlock self.old self.new false block (class_for_size self.old.fill size) region
            (ticket_of (seat_at_turn self.old)) }
        ensures none { result ≡ false → LacksHole self.old self.new block size }
    {
        if has_other_class(&self.row, self.fill, block, size) {
            return false;
        }
        match first_hole(&self.row, self.fill, block, 0, size) {
            None => {
                self.notes[block as usize] = BlockNote::Unowned { least: size };
                false
            }
            Some(region) => {
                let ticket = self.seats[self.turn].ticket;
                let class = class_of(self.fill, size);
                self.take(false, block, class, region, ticket);
                true
            }
        }
    }

    /// Makes a hole of an own block of the mutator what is left of the block.
    fn move_to(&mut self, block: u32, hole: Region)
        requires turn { IsTurn self.old }
        requires block { block < length self.old.notes.items }
        ensures { NotesBlock self.old self.new block (Owned (number_at_turn self.old) hole) }
    {
        let owner = self.number();
        self.notes[block as usize] = BlockNote::Owned {
            owner,
            region: hole,
        };
    }

    /// Makes room for `size` words in an own block the mutator's region, if it has some: the block
    /// becomes the one that the mutator allocates objects of the class in, or its next hole the
    /// hole region.
    #[inline(never)]
    fn take_in_own(&mut self, block: u32, region: Region, size: u32) -> bool
        requires ready { MayCall self.old }
        requires block { block < self.old.row.layout.blocks }
        requires note { slice_get self.old.notes.items block
            ≡ Some (Owned (number_at_turn self.old) region) }
        requires least { HEADER_WORDS ≤ size }
        requires most { size ≤ MAX_MEDIUM_WORDS }
        requires full { IsFull self.old size }
        ensures found { result ≡ true → FindsHole self.old self.new block size }
        ensures none { result ≡ false → LacksHole self.old self.new block size }
    {
        match own_room(
            &self.row,
            &self.seats[self.turn],
            self.fill,
            block,
            &region,
            size,
        ) {
            OwnRoom::Nothing => false,
            OwnRoom::Rest => {
                let class = class_of(self.fill, size);
                self.return_to(block, class);
                true
            }
            OwnRoom::Hole(hole) => {
                self.move_to(block, hole);
                true
            }
        }
    }

    /// Makes a hole of the block with room for `size` words the mutator's region, if there is one
    /// that it may fill. It is inlined into the search over all blocks, most of which it only has
    /// to pass over; what it calls is not.
    #[inline(always)]
    pub(crate) fn take_hole_in(&mut self, block: u32, size: u32) -> bool
        requires ready { MayCall self.old }
        requires block { block < self.old.row.layout.blocks }
        requires least { HEADER_WORDS ≤ size }
        requires most { size ≤ MAX_MEDIUM_WORDS }
        requires full { IsFull self.old size }
        ensures found { result ≡ true → FindsHole self.old self.new block size }
        ensures none { result ≡ false → LacksHole self.old self.new block size }
    {
        match self.notes[block as usize] {
            BlockNote::Unowned { least } => size < least && self.take_unowned(block, size),
            BlockNote::Owned { owner, region } => {
                owner == self.number() && self.take_in_own(block, region, size)
            }
        }
    }

    /// Makes the first hole of the mutator's block of the hole region that has room for `size`
    /// words, from the region's end on, the hole region, under a plan with lines, if there is one.
    pub(crate) fn take_hole_in_own(&mut self, size: u32) -> bool
        requires ready { MayCall self.old }
        requires least { HEADER_WORDS ≤ size }
        requires most { size ≤ MAX_MEDIUM_WORDS }
        requires full { IsFull self.old size }
        ensures found { result ≡ true → FillsLines self.old.fill × ((block : ℕ)
            × (block_of (seat_at_turn self.old) 0 ≡ Some block)
            × FindsHole self.old self.new block size) }
        ensures none { (block : ℕ) → result ≡ false → FillsLines self.old.fill
            → block_of (seat_at_turn self.old) 0 ≡ Some block
            → LacksHole self.old self.new block size }
        ensures same { result ≡ false → self.new ≡ self.old }
    {
        let Some(block) = hole_block(&self.seats[self.turn], self.fill) else {
            return false;
        };
        self.take_hole_in(block, size)
    }

    /// Takes a block for objects of `size` words if it is Free. In overflow allocation it is the
    /// block of the overflow region then.
    pub(crate) fn take_free_block(&mut self, block: u32, size: u32) -> bool
        requires ready { MayCall self.old }
        requires block { block < self.old.row.layout.blocks }
        ensures found { result ≡ true → HasKind (state_of self.old.row) block kinds.Free
            × ((over : Bool) × ((over ≡ true) ↔ IsOverflow self.old size)
            × OwnsBlock self.old self.new over block (class_for_size self.old.fill size)
            (first_region_of self.old.fill (class_for_size self.old.fill size)) None) }
        ensures none { result ≡ false
            → (HasKind (state_of self.old.row) block kinds.Free → ⊥)
            × (self.new ≡ self.old) }
    {
        if let BlockNote::Owned { .. } = self.notes[block as usize] {
            return false;
        }
        if !is_free(&self.row, block) {
            return false;
        }
        let class = class_of(self.fill, size);
        let region = first_region(self.fill, size);
        let over = self.is_overflow(size);
        self.take(over, block, class, region, None);
        true
    }

    /// Makes the region of the block what an object of `size` words at its start leaves.
    #[inline(always)]
    fn advance(&mut self, block: u32, owner: u32, region: &Region, size: u32)
        requires room { RegionHasRoomFor self.old size }
        requires current { IsBlockFor self.old.fill (regions_at_turn self.old)
            size block }
        requires note { slice_get self.old.notes.items block ≡ Some (Owned owner region.now) }
        ensures { Advances self.old self.new size block region.now.next }
    {
        let rest = rest_after(&self.row, self.fill, block, region, size);
        self.notes[block as usize] = BlockNote::Owned {
            owner,
            region: rest,
        };
    }

    /// Counts an object of the mutator and stores its address into register `d`. Returns its name.
    fn count(&mut self, d: u32, address: u32) -> Name
        requires turn { IsTurn self.old }
        requires register { d < REGISTERS }
        requires births { births_of (mutator_at_turn self.old) + 1 < 2 ^ 32 }
        ensures { CountsObject self.old self.new d address result }
    {
        let mutator = &mut self.mutators[self.turn];
        mutator.births += 1;
        mutator.registers[d as usize] = address;
        Name {
            mutator: mutator.number,
            birth: mutator.births,
        }
    }

    /// Allocates an object at the start of the mutator's region for its size, which is the region
    /// of the block, and stores its address into register `d`. Returns its name.
    #[inline(always)]
    fn allocate_in(
        &mut self,
        block: u32,
        owner: u32,
        region: &Region,
        d: u32,
        shape: &Shape,
    ) -> Name
        requires room { RegionHasRoomFor self.old (size_of shape.now.refs shape.now.nums) }
        requires current { IsBlockFor self.old.fill (regions_at_turn self.old)
            (size_of shape.now.refs shape.now.nums) block }
        requires note { slice_get self.old.notes.items block ≡ Some (Owned owner region.now) }
        requires register { d < REGISTERS }
        requires refs { shape.now.refs ≤ MAX_REFS }
        requires nums { shape.now.nums ≤ MAX_NUMS }
        requires small { size_of shape.now.refs shape.now.nums ≤ MAX_MEDIUM_WORDS }
        requires births { births_of (mutator_at_turn self.old) + 1 < 2 ^ 32 }
        ensures { AllocatesInRow self.old self.new d result shape.now.refs shape.now.nums }
    {
        self.advance(block, owner, region, size_words(shape));
        let address = self.row.layout.address(block, region.next);
        let name = self.count(d, address);
        self.row.write_object(address, &name, shape);
        name
    }

    /// Allocates an object at the start of the mutator's region and stores its address into
    /// register `d`. Returns its name.
    pub(crate) fn allocate(&mut self, d: u32, shape: &Shape) -> Name
        requires room { RegionHasRoomFor self.old (size_of shape.now.refs shape.now.nums) }
        requires register { d < REGISTERS }
        requires refs { shape.now.refs ≤ MAX_REFS }
        requires nums { shape.now.nums ≤ MAX_NUMS }
        requires small { size_of shape.now.refs shape.now.nums ≤ MAX_MEDIUM_WORDS }
        requires births { births_of (mutator_at_turn self.old) + 1 < 2 ^ 32 }
        ensures { AllocatesInRow self.old self.new d result shape.now.refs shape.now.nums }
    {
        let Some(block) = self.block_for(size_words(shape)) else {
            unreachable!()
        };
        let BlockNote::Owned { owner, region } = self.notes[block as usize] else {
            unreachable!()
        };
        self.allocate_in(block, owner, &region, d, shape)
    }

    /// Allocates an object at the start of the mutator's region for its size, if it has room, and
    /// stores its address into register `d`. The region is looked up once.
    #[inline(always)]
    pub(crate) fn allocate_if_room(&mut self, d: u32, shape: &Shape) -> Option<Name>
        requires ready { MayCall self.old }
        requires register { d < REGISTERS }
        requires refs { shape.now.refs ≤ MAX_REFS }
        requires nums { shape.now.nums ≤ MAX_NUMS }
        requires small { size_of shape.now.refs shape.now.nums ≤ MAX_MEDIUM_WORDS }
        requires births { births_of (mutator_at_turn self.old) + 1 < 2 ^ 32 }
        ensures room { IfSome result (λ name.
            RegionHasRoomFor self.old (size_of shape.now.refs shape.now.nums)) }
        ensures made { IfSome result (λ name.
            AllocatesInRow self.old self.new d name shape.now.refs shape.now.nums) }
        ensures none { IfNone result
            (RegionHasRoomFor self.old (size_of shape.now.refs shape.now.nums) → ⊥) }
        ensures same { IfNone result (self.new ≡ self.old) }
    {
        let size = size_words(shape);
        let Some(block) = self.block_for(size) else {
            return None;
        };
        let BlockNote::Owned { owner, region } = self.notes[block as usize] else {
            return None;
        };
        let left = region.end - region.next;
        if left < size {
            return None;
        }
        Some(self.allocate_in(block, owner, &region, d, shape))
    }
}
