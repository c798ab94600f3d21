//! The search for holes of blocks that nobody owns.
//!
//! A mutator looks at the words of a block before it takes the block by one exchange. If the
//! exchange finds the word of a block without an owner, nobody changed the block meanwhile.

ghost use Rattle.std.specs.Prelude.{◌≡◌, ◌≢◌, ◌<◌, ◌≤◌, ℕ, [], true, false, IfSome, IfNone};
ghost use Rattle.std.specs.List.{Contains};
ghost use Rattle.heap_layout.specs.Blocks.{code_of, IsValidWord};
ghost use Rattle.heap_layout.specs.Zones.{block_at};
ghost use Rattle.heap_layout.specs.declared.block.Kind.TheVariants as kinds;
ghost use Rattle.object_model.specs.Objects.{block_word, owner_at};
ghost use Rattle.plan_api.specs.Views.{IsViewOf};
ghost use Rattle.mutator_core.specs.Machine.{taken};
ghost use Rattle.mutator_core.specs.declared.state.Extent.{Extent};
ghost use Rattle.mutator_core.specs.declared.state.OwnedBlock.{OwnedBlock};
ghost use Rattle.sessions.specs.Fitting.{class_for};
ghost use Rattle.sessions.specs.Sessions.{block_of_kind};
ghost use Rattle.racing_mutator.specs.RacingSeats.{IsReady, Makes, local, holdings, epoch_of_racing, heap_seen};
ghost use Rattle.racing_rooms.specs.Rooms.{HasRooms, UsesItsBlocks, UsesOthers};
ghost use Rattle.racing_rooms.specs.NoRoom.{regions_at, LacksUnowned, LacksUnownedBelow};
ghost use Rattle.racing_mutator.specs.Searches.{HasFound, Searches, TakesNothing, TakesHole};
ghost use Rattle.racing_mutator.specs.Looks.{HasLooked};
ghost use Rattle.racing_mutator.specs.Regions.{FindsRegion};
ghost use Rattle.racing_mutator.specs.Holes.{LacksFrom, IsNotedUnowned, OnlySearches, Lacks, SeesHole};

use crate::own_holes::clear_lines;
use crate::racing::Racing;
use block_regions::BlockNote;
use heap_layout::{BlockWord, CLASS_UNIT, Kind, OWNER_UNIT, Region, encode};
use mutator_core::Event;
use object_model::{HEADER_WORDS, MAX_MEDIUM_WORDS};
use plan_api::{BlockView, Plan, first_hole};

impl<P: Plan> Racing<'_, '_, P> {
    /// Notes that a block which others may take has no hole for objects of `least` words or more,
    /// or an owner: no later search for them looks at it.
    fn pass_over(&mut self, block: u32, least: u32)
        requires ready { IsReady P.rules self.old }
        requires rooms { HasRooms P.rules self.old.seat.now }
        requires block { block < (epoch_of_racing P.rules self.old).before.blocks }
        requires note { IsNotedUnowned self.old.seat.now.notes block }
        requires lacks { LacksFrom (epoch_of_racing P.rules self.old)
            (heap_seen P.rules self.old) block least }
        ensures ready { IsReady P.rules self.new }
        ensures rooms { HasRooms P.rules self.new.seat.now }
        ensures only { OnlySearches P.rules self.old self.new }
        ensures lacking { (size : ℕ) → Lacks P.rules self.old block size
            → Lacks P.rules self.new block size }
    {
        self.seat.note_block(block, BlockNote::Unowned { least });
    }

    /// The word of a block, if nobody owns it and its class is that for objects of `size` words, by
    /// a look at the word. A block that has an owner or another kind is passed over from now on.
    fn unowned_word(&mut self, block: u32, size: u32) -> Option<BlockWord>
        requires ready { IsReady P.rules self.old }
        requires rooms { HasRooms P.rules self.old.seat.now }
        requires block { block < (epoch_of_racing P.rules self.old).before.blocks }
        requires note { IsNotedUnowned self.old.seat.now.notes block }
        requires least { HEADER_WORDS ≤ size }
        requires most { size ≤ MAX_MEDIUM_WORDS }
        ensures ready { IsReady P.rules self.new }
        ensures rooms { HasRooms P.rules self.new.seat.now }
        ensures only { OnlySearches P.rules self.old self.new }
        ensures word { IfSome result (λ w.
            (w ≡ block_of_kind P.rules.fill (class_for P.rules.fill size)) × IsValidWord w
            × (block_word (epoch_of_racing P.rules self.new).before block ≡ code_of w)) }
        ensures lacks { IfNone result (Lacks P.rules self.new block size) }
    {
        let word = BlockWord {
            kind: P::alloc_kind(),
            class: P::class_for(size),
            owner: 0,
        };
        let wanted = encode(&word);
        let code = self.look_block(block);
        if code == wanted {
            return Some(word);
        }
        if code >= OWNER_UNIT {
            self.pass_over(block, 0);
            return None;
        }
        let kind = code % CLASS_UNIT;
        let filled = wanted % CLASS_UNIT;
        if kind != filled {
            self.pass_over(block, 0);
            return None;
        }
        None
    }

    /// The first hole with room for `size` words of a block of lines that nobody owned as the epoch
    /// began, by its line words alone. If it has none, it is passed over from now on.
    fn look_for_lines(&mut self, block: u32, size: u32) -> Option<Region>
        requires ready { IsReady P.rules self.old }
        requires rooms { HasRooms P.rules self.old.seat.now }
        requires block { block < (epoch_of_racing P.rules self.old).before.blocks }
        requires note { IsNotedUnowned self.old.seat.now.notes block }
        requires lines { P.rules.fill ≡ kinds.Immix }
        requires word { block_word (epoch_of_racing P.rules self.old).before block
            ≡ code_of (block_of_kind P.rules.fill (class_for P.rules.fill size)) }
        requires least { HEADER_WORDS ≤ size }
        requires most { size ≤ MAX_MEDIUM_WORDS }
        ensures ready { IsReady P.rules self.new }
        ensures rooms { HasRooms P.rules self.new.seat.now }
        ensures only { OnlySearches P.rules self.old self.new }
        ensures sees { IfSome result (λ region. SeesHole P.rules self.new block size region) }
        ensures lacks { IfNone result (Lacks P.rules self.new block size) }
    {
        let lines = self.look_lines(block);
        let Some(hole) = clear_lines(&lines, 0, size) else {
            self.pass_over(block, size);
            return None;
        };
        Some(hole)
    }

    /// The first hole with room for `size` words of a block that nobody owns, by a look at its
    /// words. If it has none, it is passed over from now on.
    fn look_for_hole(&mut self, block: u32, size: u32) -> Option<Region>
        requires ready { IsReady P.rules self.old }
        requires rooms { HasRooms P.rules self.old.seat.now }
        requires block { block < (epoch_of_racing P.rules self.old).before.blocks }
        requires note { IsNotedUnowned self.old.seat.now.notes block }
        requires least { HEADER_WORDS ≤ size }
        requires most { size ≤ MAX_MEDIUM_WORDS }
        ensures ready { IsReady P.rules self.new }
        ensures rooms { HasRooms P.rules self.new.seat.now }
        ensures only { OnlySearches P.rules self.old self.new }
        ensures sees { IfSome result (λ region. SeesHole P.rules self.new block size region) }
        ensures lacks { IfNone result (Lacks P.rules self.new block size) }
    {
        let Some(word) = self.unowned_word(block, size) else {
            return None;
        };
        let fill = P::alloc_kind();
        if fill == Kind::Immix {
            return self.look_for_lines(block, size);
        }
        let view = self.look_at(block, word);
        let Some(hole) = first_hole(fill, &view, 0, size) else {
            self.pass_over(block, size);
            return None;
        };
        Some(hole)
    }

    /// Takes a block that has no owner, of the kind that mutators fill and the class for objects of
    /// `size` words: one exchange. What the mutator saw of the block was right then. If it finds
    /// another word, the block has an owner.
    fn take_unowned(&mut self, block: u32, size: u32) -> bool
        requires ready { IsReady P.rules self.old }
        requires block { block < (epoch_of_racing P.rules self.old).before.blocks }
        requires least { HEADER_WORDS ≤ size }
        requires most { size ≤ MAX_MEDIUM_WORDS }
        requires word { block_word (epoch_of_racing P.rules self.old).before block
            ≡ code_of (block_of_kind P.rules.fill (class_for P.rules.fill size)) }
        ensures ready { IsReady P.rules self.new }
        ensures makes { Makes P.rules self.old [] self.new }
        ensures taken { result ≡ true → local self.new ≡ taken (epoch_of_racing P.rules self.old)
            (local self.old) block (class_for P.rules.fill size) false }
        ensures viewed { (v : BlockView) → result ≡ true
            → HasLooked (epoch_of_racing P.rules self.old) (local self.old) block v
            → IsViewOf (epoch_of_racing P.rules self.old).before block v }
        ensures fresh { (x : Extent) → result ≡ true → Contains (local self.old).made x
            → block_at (epoch_of_racing P.rules self.old).before.blocks x.address ≢ block }
        ensures nobody { (o : OwnedBlock) → result ≡ true → Contains (local self.old).owned o
            → o.block ≢ block }
        ensures kept { result ≡ false
            → holdings (local self.new) ≡ holdings (local self.old) }
        ensures owner { result ≡ false → 0 < owner_at (heap_seen P.rules self.new) block }
        ensures raised { (local self.new).raised ≡ (local self.old).raised }
        ensures births { (local self.new).births ≡ (local self.old).births }
        ensures notes { self.new.seat.now.notes ≡ self.old.seat.now.notes }
    {
        let at = self.row.layout().block_at(block) as usize;
        let class = P::class_for(size);
        let was = encode(&BlockWord {
            kind: P::alloc_kind(),
            class,
            owner: 0,
        });
        let word = encode(&BlockWord {
            kind: P::alloc_kind(),
            class,
            owner: self.seat.number(),
        });
        let event = Event::TakeBlock {
            block: block as u64,
            class: class as u64,
            free: false,
        };
        let found = self.row.exchange(self.seat, at, was, word, &event);
        found == was
    }

    /// Takes a block that nobody owns, if it has a hole with room for `size` words. The hole is the
    /// region for the size then.
    #[inline(never)]
    fn take_unowned_room(&mut self, block: u32, size: u32) -> bool
        requires ready { IsReady P.rules self.old }
        requires rooms { HasRooms P.rules self.old.seat.now }
        requires block { block < (epoch_of_racing P.rules self.old).before.blocks }
        requires note { IsNotedUnowned self.old.seat.now.notes block }
        requires least { HEADER_WORDS ≤ size }
        requires most { size ≤ MAX_MEDIUM_WORDS }
        ensures ready { IsReady P.rules self.new }
        ensures rooms { HasRooms P.rules self.new.seat.now }
        ensures searches { result ≡ true → Searches P.rules self.old self.new }
        ensures found { result ≡ true
            → HasFound P.rules self.new (class_for P.rules.fill size) block size }
        ensures uses { result ≡ true
            → UsesItsBlocks (epoch_of_racing P.rules self.old) (holdings (local self.old))
            → UsesOthers (epoch_of_racing P.rules self.old) (holdings (local self.new)) block }
        ensures takes { result ≡ true → TakesHole P.rules self.old self.new block
            (class_for P.rules.fill size) }
        ensures region { result ≡ true
            → FindsRegion P.rules self.old.seat.now size block self.new.seat.now }
        ensures only { result ≡ false → OnlySearches P.rules self.old self.new }
        ensures lacks { result ≡ false → Lacks P.rules self.new block size }
    {
        let Some(region) = self.look_for_hole(block, size) else {
            return false;
        };
        if !self.take_unowned(block, size) {
            self.pass_over(block, 0);
            return false;
        }
        let ticket = self.seat.notes().local.ticket;
        self.note_own(false, block, P::class_for(size), region, ticket);
        true
    }

    /// Takes a block as `take_unowned_room` does, unless a note says that there is no use in it. It
    /// is inlined into the search over all blocks, most of which it only has to pass over.
    #[inline(always)]
    fn take_hole_in(&mut self, block: u32, size: u32) -> bool
        requires ready { IsReady P.rules self.old }
        requires rooms { HasRooms P.rules self.old.seat.now }
        requires block { block < (epoch_of_racing P.rules self.old).before.blocks }
        requires least { HEADER_WORDS ≤ size }
        requires most { size ≤ MAX_MEDIUM_WORDS }
        ensures ready { IsReady P.rules self.new }
        ensures rooms { HasRooms P.rules self.new.seat.now }
        ensures searches { result ≡ true → Searches P.rules self.old self.new }
        ensures found { result ≡ true
            → HasFound P.rules self.new (class_for P.rules.fill size) block size }
        ensures uses { result ≡ true
            → UsesItsBlocks (epoch_of_racing P.rules self.old) (holdings (local self.old))
            → UsesOthers (epoch_of_racing P.rules self.old) (holdings (local self.new)) block }
        ensures takes { result ≡ true → TakesHole P.rules self.old self.new block
            (class_for P.rules.fill size) }
        ensures region { result ≡ true
            → FindsRegion P.rules self.old.seat.now size block self.new.seat.now }
        ensures only { result ≡ false → OnlySearches P.rules self.old self.new }
        ensures lacks { result ≡ false → Lacks P.rules self.new block size }
    {
        let notes = self.seat.notes();
        let BlockNote::Unowned { least } = notes.blocks[block as usize] else {
            return false;
        };
        if least <= size {
            return false;
        }
        self.take_unowned_room(block, size)
    }

    /// Takes the lowest block that nobody owns with a hole that has room for `size` words. Blocks
    /// that were seen in vain for the size are passed over. Returns the block.
    pub(crate) fn take_some_hole(&mut self, size: u32) -> Option<u32>
        requires ready { IsReady P.rules self.old }
        requires rooms { HasRooms P.rules self.old.seat.now }
        requires least { HEADER_WORDS ≤ size }
        requires most { size ≤ MAX_MEDIUM_WORDS }
        ensures ready { IsReady P.rules self.new }
        ensures rooms { HasRooms P.rules self.new.seat.now }
        ensures searches { Searches P.rules self.old self.new }
        ensures found { IfSome result (λ k.
            HasFound P.rules self.new (class_for P.rules.fill size) k size) }
        ensures uses { IfSome result (λ k.
            UsesItsBlocks (epoch_of_racing P.rules self.old) (holdings (local self.old))
            → UsesOthers (epoch_of_racing P.rules self.old) (holdings (local self.new)) k) }
        ensures takes { IfSome result (λ k. TakesHole P.rules self.old self.new k
            (class_for P.rules.fill size)) }
        ensures region { IfSome result (λ k.
            FindsRegion P.rules self.old.seat.now size k self.new.seat.now) }
        ensures nothing { IfNone result (TakesNothing P.rules self.old self.new) }
        ensures ticket { IfNone result ((local self.new).ticket ≡ (local self.old).ticket) }
        ensures regions { IfNone result (
            regions_at self.new.seat.now ≡ regions_at self.old.seat.now) }
        ensures lowest { IfSome result (λ k.
            LacksUnownedBelow P.rules self.new.seat.now k size) }
        ensures lacks { IfNone result (LacksUnowned P.rules self.new.seat.now size) }
    {
        for block in 0..self.row.layout().blocks() {
            if self.take_hole_in(block, size) {
                return Some(block);
            }
        }
        None
    }
}
