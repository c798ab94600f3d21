//! The regions of a mutator: allocation in one, and the taking of blocks.
//!
//! What a mutator notes of its rooms is for itself. Other mutators see block words alone, and an
//! object when its start bit is set.

ghost use Rattle.std.specs.Prelude.{◌≡◌, ◌≢◌, ◌+◌, ◌<◌, ◌≤◌, ◌^◌, ℕ, [], ◌∷◌, Some, None, true, false, IfSome, IfNone, slice_get, if◌then◌else◌};
ghost use Rattle.std.specs.List.{Contains};
ghost use Rattle.heap_layout.specs.Zones.{block_at, block_start};
ghost use Rattle.heap_layout.specs.declared.region.Region.{Region};
ghost use Rattle.heap_layout.specs.declared.block.Kind.TheVariants as kinds;
ghost use Rattle.ideal_heap.specs.Runs.{entry};
ghost use Rattle.ideal_heap.specs.declared.command.Command.TheVariants as command;
ghost use Rattle.ideal_heap.specs.declared.reply.Reply.TheVariants as reply;
ghost use Rattle.object_model.specs.Objects.{HasKind, size_of};
ghost use Rattle.sessions.specs.Fitting.{class_for};
ghost use Rattle.block_regions.specs.declared.block_notes.BlockNote.TheVariants.{Owned};
ghost use Rattle.mutator_core.specs.Machine.{next_name};
ghost use Rattle.mutator_core.specs.Guards.{HasTicket};
ghost use Rattle.mutator_core.specs.Seen.{HasSeenUsed};
ghost use Rattle.mutator_core.specs.declared.state.Extent.{Extent};
ghost use Rattle.racing_rooms.specs.OwnHoles.{IsNextCell};
ghost use Rattle.racing_mutator.specs.RacingSeats.{IsReady, Makes, OnlyLoads, local, holdings, epoch_of_racing};
ghost use Rattle.mutator_rule.specs.Seats.{IsSeatOf, KeepsKnown};
ghost use Rattle.racing_rooms.specs.Rooms.{IsOwnRegion, IsCellRegion, HasRooms, UsesItsBlocks, UsesOthers, with_object};
ghost use Rattle.plan_api.specs.Cursors.{RegionHasRoom};
ghost use Rattle.local_allocators.specs.MutatorRegions.{KeepsHole, cursors_of};
ghost use Rattle.racing_rooms.specs.NoRoom.{regions_at, LacksRegionRoom};
ghost use Rattle.racing_mutator.specs.Searches.{block_in, HasFound, HasWritten, IsWrittenAt, NotesOwn, KeepsBlocks, PlacesObject, Searches};
ghost use Rattle.racing_mutator.specs.Regions.{FillsFront, FillsRegion};

use crate::racing::Racing;
use block_regions::BlockNote;
use heap_layout::{BLOCK_WORDS, CLASSES, Kind, Region};
use ideal_heap::{MAX_NUMS, MAX_REFS, Name, REGISTERS};
use local_allocators::block_for;
use object_model::{HEADER_WORDS, MAX_MEDIUM_WORDS, Shape, size_words};
use plan_api::Plan;

impl<P: Plan> Racing<'_, '_, P> {
    /// What an object of `size` words at the start of a region of the mutator leaves of the block:
    /// the rest of the region, or the next free cell.
    fn rest_after(&mut self, block: u32, region: &Region, size: u32) -> Region
        requires ready { IsReady P.rules self.old }
        requires block { block < (epoch_of_racing P.rules self.old).before.blocks }
        requires least { HEADER_WORDS ≤ size }
        requires most { size ≤ MAX_MEDIUM_WORDS }
        requires room { region.now.next + size ≤ region.now.end }
        requires end { region.now.end ≤ BLOCK_WORDS }
        requires cell { P.rules.fill ≡ kinds.Cells
            → IsCellRegion (class_for P.rules.fill size) region.now }
        ensures ready { IsReady P.rules self.new }
        ensures looks { OnlyLoads P.rules self.old self.new }
        ensures notes { self.new.seat.now.notes ≡ self.old.seat.now.notes }
        ensures births { (local self.new).births ≡ (local self.old).births }
        ensures plain { P.rules.fill ≢ kinds.Cells
            → result ≡ (record { next = region.now.next + size; end = region.now.end }) }
        ensures cells { P.rules.fill ≡ kinds.Cells → IsNextCell (epoch_of_racing P.rules self.old)
            (local self.new) block (class_for P.rules.fill size) region.now.end result }
    {
        if P::alloc_kind() != Kind::Cells {
            return Region {
                next: region.next + size,
                end: region.end,
            };
        }
        self.next_cell(block, P::class_for(size), region.end)
    }

    /// Sets the start bit of an object that is written at the start of a region of the mutator,
    /// which is that of the block, and notes what is left of the region. Register `d` holds the
    /// object. Its name is the mutator's next.
    fn publish_in(&mut self, block: u32, owner: u32, region: &Region, d: u32, shape: &Shape) -> Name
        requires own { IsSeatOf P.rules self.old.row.now self.old.seat.now }
        requires stored { (local self.old).pending ≡ 0 }
        requires rooms { HasRooms P.rules self.old.seat.now }
        requires note { slice_get self.old.seat.now.notes.blocks.items block
            ≡ Some (Owned owner region.now) }
        requires region { IsOwnRegion (epoch_of_racing P.rules self.old)
            (holdings (local self.old)) block
            (class_for P.rules.fill (size_of shape.now.refs shape.now.nums)) region.now }
        requires room { region.now.next + size_of shape.now.refs shape.now.nums
            ≤ region.now.end }
        requires written { IsWrittenAt P.rules self.old block region.now shape.now.refs
            shape.now.nums }
        requires register { d < REGISTERS }
        requires refs { shape.now.refs ≤ MAX_REFS }
        requires nums { shape.now.nums ≤ MAX_NUMS }
        requires small { size_of shape.now.refs shape.now.nums ≤ MAX_MEDIUM_WORDS }
        requires births { (local self.old).births + 1 < 2 ^ 32 }
        ensures ready { IsReady P.rules self.new }
        ensures rooms { HasRooms P.rules self.new.seat.now }
        ensures name { result ≡ next_name (local self.old) }
        ensures makes { Makes P.rules self.old (entry (local self.old).number
            (command.New d shape.now.refs shape.now.nums) (reply.New result) ∷ []) self.new }
        ensures holds { holdings (local self.new)
            ≡ with_object (holdings (local self.old)) (record {
              address = block_start (epoch_of_racing P.rules self.old).before.blocks block
                  + region.now.next;
              size = size_of shape.now.refs shape.now.nums;
            }) }
        ensures uses { UsesOthers (epoch_of_racing P.rules self.old) (holdings (local self.old))
            block → UsesItsBlocks (epoch_of_racing P.rules self.old) (holdings (local self.new)) }
        ensures placed { PlacesObject P.rules self.old.seat.now d
            (size_of shape.now.refs shape.now.nums) self.new.seat.now }
        ensures here { block_in P.rules self.new.seat.now d ≡ block }
        ensures front { FillsFront P.rules self.old.seat.now block d
            (size_of shape.now.refs shape.now.nums) self.new.seat.now }
        ensures hole { (RegionHasRoom (cursors_of (regions_at self.old.seat.now)).hole
            (size_of shape.now.refs shape.now.nums) → ⊥)
            → KeepsHole (regions_at self.old.seat.now) (regions_at self.new.seat.now) }
        ensures births { (local self.new).births ≡ (local self.old).births + 1 }
        ensures raised { (local self.new).raised ≡ (local self.old).raised }
    {
        let address = self.row.layout().address(block, region.next);
        let name = self.publish(d, address, shape);
        let rest = self.rest_after(block, region, size_words(shape));
        self.seat.note_block(
            block,
            BlockNote::Owned {
                owner,
                region: rest,
            },
        );
        name
    }

    /// Allocates an object at the start of a region of the mutator, which is that of the block.
    /// Register `d` holds the object. Its name is the mutator's next.
    fn allocate_in(
        &mut self,
        block: u32,
        owner: u32,
        region: &Region,
        d: u32,
        shape: &Shape,
    ) -> Name
        requires ready { IsReady P.rules self.old }
        requires rooms { HasRooms P.rules self.old.seat.now }
        requires note { slice_get self.old.seat.now.notes.blocks.items block
            ≡ Some (Owned owner region.now) }
        requires own { IsOwnRegion (epoch_of_racing P.rules self.old) (holdings (local self.old))
            block (class_for P.rules.fill (size_of shape.now.refs shape.now.nums)) region.now }
        requires room { region.now.next + size_of shape.now.refs shape.now.nums
            ≤ region.now.end }
        requires register { d < REGISTERS }
        requires refs { shape.now.refs ≤ MAX_REFS }
        requires nums { shape.now.nums ≤ MAX_NUMS }
        requires small { size_of shape.now.refs shape.now.nums ≤ MAX_MEDIUM_WORDS }
        requires births { (local self.old).births + 1 < 2 ^ 32 }
        ensures ready { IsReady P.rules self.new }
        ensures rooms { HasRooms P.rules self.new.seat.now }
        ensures name { result ≡ next_name (local self.old) }
        ensures makes { Makes P.rules self.old (entry (local self.old).number
            (command.New d shape.now.refs shape.now.nums) (reply.New result) ∷ []) self.new }
        ensures holds { holdings (local self.new)
            ≡ with_object (holdings (local self.old)) (record {
              address = block_start (epoch_of_racing P.rules self.old).before.blocks block
                  + region.now.next;
              size = size_of shape.now.refs shape.now.nums;
            }) }
        ensures uses { UsesOthers (epoch_of_racing P.rules self.old) (holdings (local self.old))
            block → UsesItsBlocks (epoch_of_racing P.rules self.old) (holdings (local self.new)) }
        ensures placed { PlacesObject P.rules self.old.seat.now d
            (size_of shape.now.refs shape.now.nums) self.new.seat.now }
        ensures here { block_in P.rules self.new.seat.now d ≡ block }
        ensures front { FillsFront P.rules self.old.seat.now block d
            (size_of shape.now.refs shape.now.nums) self.new.seat.now }
        ensures hole { (RegionHasRoom (cursors_of (regions_at self.old.seat.now)).hole
            (size_of shape.now.refs shape.now.nums) → ⊥)
            → KeepsHole (regions_at self.old.seat.now) (regions_at self.new.seat.now) }
        ensures births { (local self.new).births ≡ (local self.old).births + 1 }
        ensures raised { (local self.new).raised ≡ (local self.old).raised }
    {
        let address = self.row.layout().address(block, region.next);
        self.write(address, shape);
        self.publish_in(block, owner, region, d, shape)
    }

    /// Allocates an object in the region for its size, if the region has room. Else nothing
    /// changes.
    pub fn allocate_here(&mut self, d: u32, shape: &Shape) -> Option<Name>
        requires ready { IsReady P.rules self.old }
        requires rooms { HasRooms P.rules self.old.seat.now }
        requires register { d < REGISTERS }
        requires refs { shape.now.refs ≤ MAX_REFS }
        requires nums { shape.now.nums ≤ MAX_NUMS }
        requires small { size_of shape.now.refs shape.now.nums ≤ MAX_MEDIUM_WORDS }
        requires births { (local self.old).births + 1 < 2 ^ 32 }
        ensures ready { IsReady P.rules self.new }
        ensures rooms { HasRooms P.rules self.new.seat.now }
        ensures name { IfSome result (λ name. name ≡ next_name (local self.old)) }
        ensures makes { IfSome result (λ name. Makes P.rules self.old (entry
            (local self.old).number (command.New d shape.now.refs shape.now.nums)
            (reply.New name) ∷ []) self.new) }
        ensures uses { IfSome result (λ name.
            UsesItsBlocks (epoch_of_racing P.rules self.old) (holdings (local self.old))
            → UsesItsBlocks (epoch_of_racing P.rules self.old) (holdings (local self.new))) }
        ensures placed { IfSome result (λ name. PlacesObject P.rules self.old.seat.now d
            (size_of shape.now.refs shape.now.nums) self.new.seat.now) }
        ensures kept { IfSome result (λ name. KeepsBlocks self.old.seat.now self.new.seat.now) }
        ensures region { IfSome result (λ name. FillsRegion P.rules self.old.seat.now
            (block_in P.rules self.new.seat.now d) d (size_of shape.now.refs shape.now.nums)
            self.new.seat.now) }
        ensures hole { IfSome result (λ name.
            (RegionHasRoom (cursors_of (regions_at self.old.seat.now)).hole
            (size_of shape.now.refs shape.now.nums) → ⊥)
            → KeepsHole (regions_at self.old.seat.now) (regions_at self.new.seat.now)) }
        ensures births { IfSome result (λ name.
            (local self.new).births ≡ (local self.old).births + 1) }
        ensures raised { IfSome result (λ name.
            (local self.new).raised ≡ (local self.old).raised) }
        ensures same { IfNone result (self.new ≡ self.old) }
        ensures full { IfNone result (LacksRegionRoom P.rules self.old.seat.now
            (size_of shape.now.refs shape.now.nums)) }
    {
        let size = size_words(shape);
        let notes = self.seat.notes();
        let block = block_for(&notes.blocks, &notes.local, P::alloc_kind(), size)?;
        let BlockNote::Owned { owner, region } = notes.blocks[block as usize] else {
            return None;
        };
        let left = region.end - region.next;
        if left < size {
            return None;
        }
        Some(self.allocate_in(block, owner, &region, d, shape))
    }

    /// Allocates an object in the region of a block, which was found to have room.
    pub(crate) fn allocate_found(&mut self, block: u32, d: u32, shape: &Shape) -> Name
        requires ready { IsReady P.rules self.old }
        requires rooms { HasRooms P.rules self.old.seat.now }
        requires found { HasFound P.rules self.old
            (class_for P.rules.fill (size_of shape.now.refs shape.now.nums)) block
            (size_of shape.now.refs shape.now.nums) }
        requires register { d < REGISTERS }
        requires refs { shape.now.refs ≤ MAX_REFS }
        requires nums { shape.now.nums ≤ MAX_NUMS }
        requires small { size_of shape.now.refs shape.now.nums ≤ MAX_MEDIUM_WORDS }
        requires births { (local self.old).births + 1 < 2 ^ 32 }
        ensures ready { IsReady P.rules self.new }
        ensures rooms { HasRooms P.rules self.new.seat.now }
        ensures name { result ≡ next_name (local self.old) }
        ensures makes { Makes P.rules self.old (entry (local self.old).number
            (command.New d shape.now.refs shape.now.nums) (reply.New result) ∷ []) self.new }
        ensures uses { UsesOthers (epoch_of_racing P.rules self.old) (holdings (local self.old))
            block → UsesItsBlocks (epoch_of_racing P.rules self.old) (holdings (local self.new)) }
        ensures placed { PlacesObject P.rules self.old.seat.now d
            (size_of shape.now.refs shape.now.nums) self.new.seat.now }
        ensures here { block_in P.rules self.new.seat.now d ≡ block }
        ensures front { FillsFront P.rules self.old.seat.now block d
            (size_of shape.now.refs shape.now.nums) self.new.seat.now }
        ensures hole { (RegionHasRoom (cursors_of (regions_at self.old.seat.now)).hole
            (size_of shape.now.refs shape.now.nums) → ⊥)
            → KeepsHole (regions_at self.old.seat.now) (regions_at self.new.seat.now) }
        ensures kept { KeepsBlocks self.old.seat.now self.new.seat.now }
        ensures births { (local self.new).births ≡ (local self.old).births + 1 }
        ensures raised { (local self.new).raised ≡ (local self.old).raised }
    {
        let BlockNote::Owned { owner, region } = self.seat.notes().blocks[block as usize] else {
            unreachable!()
        };
        self.allocate_in(block, owner, &region, d, shape)
    }

    /// Stores the words of an object at the start of the region of a block, which was found to have
    /// room. Its start bit is not set, so no other mutator sees it: the first part of
    /// `allocate_found`, by itself.
    pub fn write_found(&mut self, block: u32, shape: &Shape)
        requires ready { IsReady P.rules self.old }
        requires rooms { HasRooms P.rules self.old.seat.now }
        requires found { HasFound P.rules self.old
            (class_for P.rules.fill (size_of shape.now.refs shape.now.nums)) block
            (size_of shape.now.refs shape.now.nums) }
        requires refs { shape.now.refs ≤ MAX_REFS }
        requires nums { shape.now.nums ≤ MAX_NUMS }
        requires small { size_of shape.now.refs shape.now.nums ≤ MAX_MEDIUM_WORDS }
        requires births { (local self.old).births + 1 < 2 ^ 32 }
        ensures searches { Searches P.rules self.old self.new }
        ensures written { HasWritten P.rules self.new block shape.now.refs shape.now.nums }
        ensures holds { holdings (local self.new) ≡ holdings (local self.old) }
    {
        let BlockNote::Owned { region, .. } = self.seat.notes().blocks[block as usize] else {
            unreachable!()
        };
        let address = self.row.layout().address(block, region.next);
        self.write(address, shape);
    }

    /// Sets the start bit of the object that is written in a block, by which others see it: the
    /// second part of `allocate_found`. Register `d` holds it. Its name is the mutator's next.
    pub fn publish_found(&mut self, block: u32, d: u32, shape: &Shape) -> Name
        requires written { HasWritten P.rules self.old block shape.now.refs shape.now.nums }
        requires register { d < REGISTERS }
        requires refs { shape.now.refs ≤ MAX_REFS }
        requires nums { shape.now.nums ≤ MAX_NUMS }
        requires small { size_of shape.now.refs shape.now.nums ≤ MAX_MEDIUM_WORDS }
        requires births { (local self.old).births + 1 < 2 ^ 32 }
        ensures ready { IsReady P.rules self.new }
        ensures rooms { HasRooms P.rules self.new.seat.now }
        ensures name { result ≡ next_name (local self.old) }
        ensures makes { Makes P.rules self.old (entry (local self.old).number
            (command.New d shape.now.refs shape.now.nums) (reply.New result) ∷ []) self.new }
        ensures uses { UsesOthers (epoch_of_racing P.rules self.old) (holdings (local self.old))
            block → UsesItsBlocks (epoch_of_racing P.rules self.old) (holdings (local self.new)) }
        ensures placed { PlacesObject P.rules self.old.seat.now d
            (size_of shape.now.refs shape.now.nums) self.new.seat.now }
        ensures here { block_in P.rules self.new.seat.now d ≡ block }
        ensures front { FillsFront P.rules self.old.seat.now block d
            (size_of shape.now.refs shape.now.nums) self.new.seat.now }
        ensures hole { (RegionHasRoom (cursors_of (regions_at self.old.seat.now)).hole
            (size_of shape.now.refs shape.now.nums) → ⊥)
            → KeepsHole (regions_at self.old.seat.now) (regions_at self.new.seat.now) }
        ensures kept { KeepsBlocks self.old.seat.now self.new.seat.now }
        ensures births { (local self.new).births ≡ (local self.old).births + 1 }
        ensures raised { (local self.new).raised ≡ (local self.old).raised }
    {
        let BlockNote::Owned { owner, region } = self.seat.notes().blocks[block as usize] else {
            unreachable!()
        };
        self.publish_in(block, owner, &region, d, shape)
    }

    /// Notes that the mutator allocates objects of the class in the block, which it took, from now
    /// on; or, if `over`, that its overflow region is there. It has this ticket then.
    pub(crate) fn note_own(
        &mut self,
        over: bool,
        block: u32,
        class: u32,
        region: Region,
        ticket: Option<u32>,
    )
        requires class { class < CLASSES }
        ensures known { KeepsKnown self.old.seat.now self.new.seat.now }
        ensures row { self.new.row ≡ self.old.row }
        ensures seat { self.new.seat.ghost_name ≡ self.old.seat.ghost_name }
        ensures notes { NotesOwn self.old.seat.now.notes self.new.seat.now.notes over block class
            (Owned self.old.seat.now.number region) ticket }
    {
        let mut local = self.seat.notes().local;
        local.ticket = ticket;
        if over {
            local.over = Some(block);
        } else {
            local.blocks[class as usize] = Some(block);
        }
        let owner = self.seat.number();
        self.seat
            .note_block(block, BlockNote::Owned { owner, region });
        self.seat.note_local(local);
    }
}
