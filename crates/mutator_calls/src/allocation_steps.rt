//! The trait of a mutator's steps that allocate.

ghost use Rattle.std.specs.Prelude.{◌≡◌, ◌≢◌, ◌↔◌, ◌+◌, ◌<◌, ◌≤◌, ◌^◌, ℕ, ◌⊎◌, List, Option, Some, None, IfSome, IfNone, true, false, [], ◌∷◌, if◌then◌else◌};
ghost use Rattle.ideal_heap.specs.declared.name.Name.{Name};
ghost use Rattle.object_model.specs.declared.shape.Shape.{Shape};
ghost use Rattle.object_model.specs.Objects.{size_of};
ghost use Rattle.mutator_calls.specs.Effects.{Effect, nothing, takes, grants, draws};
ghost use Rattle.mutator_calls.specs.Allocating.{Books, births, IsNextTicket};

use crate::mutator_steps::MutatorSteps;
use ideal_heap::{MAX_NUMS, MAX_REFS, Name, REGISTERS};
use object_model::{HEADER_WORDS, MAX_MEDIUM_WORDS, Shape};

/// The steps of a mutator at a heap with its room for new objects. Sizes are in words.
///
/// Each method makes at most one entry in the history of all mutators, and is one atomic step, but
/// for four: `take_hole` and `take_own_hole` read words of a block, and `allocate_here` and
/// `publish` store the words of an object.
///
/// A mutator allocates in its regions: one for each size class, or under a plan with lines the hole
/// region and the overflow region.
pub trait AllocationSteps: MutatorSteps {
    // What the mutator has for allocation.
    ghost books: { Self → Books };

    // The block has no room for an object of the size that the mutator may fill: size, block.
    ghost has_no_room: { Self → ℕ → ℕ → Type 0 };

    // The block is not Free.
    ghost is_used: { Self → ℕ → Type 0 };

    // The seat's region for objects of the size has room for one.
    ghost has_room: { Self → ℕ → Type 0 };

    // A region that the seat tries for objects of the size is in this block: size, block.
    ghost allocates_in: { Self → ℕ → ℕ → Type 0 };

    // No region that the seat tries for objects of the size has room for one.
    ghost is_full: { Self → ℕ → Type 0 };

    // An object of the size would overflow the region that the seat fills: it goes to a Free block
    // before holes are looked for.
    ghost is_overflow: { Self → ℕ → Type 0 };

    // From the one state to the other all regions of the seat stayed as they were, in the same
    // blocks; or the hole region did, which overflow allocation does not move.
    ghost keeps_regions: { Self → Self → Type 0 };

    ghost keeps_hole: { Self → Self → Type 0 };

    // The region of the second state is room for the size that the mutator may fill in the first:
    // a hole of a block that it owns or nobody does, or a Free block. Its other regions stayed.
    ghost offers_room: { Self → Self → ℕ → Type 0 };

    // From the one state to the other an object of the size was placed at the start of the region.
    // The register holds it, and the other regions stayed.
    ghost places: { Self → Self → ℕ → ℕ → Type 0 };

    // The budget word is this number: so many tickets were drawn in the epoch.
    ghost has_budget: { Self → ℕ → Type 0 };

    /// The number of blocks of the heap.
    fn blocks(&self) -> u32
        ensures { result ≡ (books self.now).blocks };

    /// The number of Free blocks that mutators may take in the epoch.
    fn allowance(&self) -> u32
        ensures { result ≡ (books self.now).allowance };

    /// The ticket with which the mutator has taken no block.
    fn ticket(&self) -> Option<u32>
        requires { Self.is_ready self.now }
        ensures { result ≡ (books self.now).ticket };

    /// Allocates an object in the region for its size, as `publish` does, if the region has room.
    /// Else nothing changes.
    fn allocate_here(&mut self, d: u32, shape: &Shape) -> Option<Name>
        requires ready { Self.is_ready self.old }
        requires register { d < REGISTERS }
        requires refs { shape.now.refs ≤ MAX_REFS }
        requires nums { shape.now.nums ≤ MAX_NUMS }
        requires small { size_of shape.now.refs shape.now.nums ≤ MAX_MEDIUM_WORDS }
        requires births { (books self.old).births + 1 < 2 ^ 32 }
        ensures ready { Self.is_ready self.new }
        ensures room { IfSome result (λ name.
            has_room self.old (size_of shape.now.refs shape.now.nums)) }
        ensures offered { IfSome result (λ name.
            offers_room self.old self.old (size_of shape.now.refs shape.now.nums)) }
        ensures some { IfSome result (λ name.
            is_full self.old (size_of shape.now.refs shape.now.nums) → ⊥) }
        ensures goes { IfSome result (λ name. Self.makes_steps self.old
            (births d shape.now.refs shape.now.nums name) self.new) }
        ensures stays { (n k : ℕ) → has_no_room self.old n k → has_no_room self.new n k }
        ensures still { (k : ℕ) → is_used self.old k → is_used self.new k }
        ensures placed { IfSome result (λ name.
            places self.old self.new d (size_of shape.now.refs shape.now.nums)) }
        ensures keeps { is_overflow self.old (size_of shape.now.refs shape.now.nums)
            → keeps_hole self.old self.new }
        ensures region { IfSome result (λ name. (k : ℕ)
            × allocates_in self.old (size_of shape.now.refs shape.now.nums) k
            × allocates_in self.new (size_of shape.now.refs shape.now.nums) k) }
        ensures books { IfSome result (λ name. books self.new
            ≡ record (books self.old) { births = (books self.old).births + 1 }) }
        ensures full { IfNone result
            (is_full self.old (size_of shape.now.refs shape.now.nums)) }
        ensures same { IfNone result (self.new ≡ self.old) };

    /// Whether an object of `size` words, for which no region has room, goes to a Free block before
    /// holes are looked for. So it does under a plan with lines if it takes more than a line and
    /// the hole region still has some room: overflow allocation, as in Immix.
    fn overflows(&self, size: u32) -> bool
        requires ready { Self.is_ready self.now }
        ensures yes { result ≡ true → is_overflow self.now size }
        ensures no { result ≡ false → is_overflow self.now size → ⊥ };

    /// Looks at a block for a hole with room for `size` words that the mutator may fill: its block
    /// word, its side words, and, if it has no cells, the shape word of its last object, unless a
    /// look in this epoch says. If there is one, the mutator takes the block, if it is not its
    /// own, and the hole is its region for the size.
    fn take_hole(&mut self, block: u32, size: u32) -> bool
        requires ready { Self.is_ready self.old }
        requires block { block < (books self.old).blocks }
        requires least { HEADER_WORDS ≤ size }
        requires most { size ≤ MAX_MEDIUM_WORDS }
        requires full { is_full self.old size }
        ensures found { result ≡ true → has_room self.new size }
        ensures offered { result ≡ true → offers_room self.old self.new size }
        ensures region { result ≡ true → allocates_in self.new size block }
        ensures taken { result ≡ true → (taken : List ℕ)
            × ((taken ≡ []) ⊎ (taken ≡ block ∷ []))
            × Self.makes_steps self.old (takes taken) self.new }
        ensures ready { result ≡ false → Self.is_ready self.new }
        ensures goes { result ≡ false → Self.makes_steps self.old nothing self.new }
        ensures full { result ≡ false → is_full self.new size }
        ensures lacks { result ≡ false → has_no_room self.new size block }
        ensures still { (k : ℕ) → is_used self.old k → is_used self.new k }
        ensures others { (n k : ℕ) → k ≢ block → has_no_room self.old n k
            → has_no_room self.new n k }
        ensures stays { (n k : ℕ) → result ≡ false → has_no_room self.old n k
            → has_no_room self.new n k }
        ensures same { (c : Self) (n : ℕ) → result ≡ false → offers_room self.new c n
            → offers_room self.old c n }
        ensures books { books self.new ≡ books self.old };

    /// Goes on in the block of the hole region, under a plan with lines: the first hole of the
    /// block with room for `size` words, from the region's end on, becomes the hole region, if
    /// there is one.
    fn take_own_hole(&mut self, size: u32) -> bool
        requires ready { Self.is_ready self.old }
        requires least { HEADER_WORDS ≤ size }
        requires most { size ≤ MAX_MEDIUM_WORDS }
        requires full { is_full self.old size }
        ensures found { result ≡ true → has_room self.new size }
        ensures offered { result ≡ true → offers_room self.old self.new size }
        ensures region { result ≡ true → (k : ℕ) × allocates_in self.old size k
            × allocates_in self.new size k }
        ensures ready { result ≡ false → Self.is_ready self.new }
        ensures goes { Self.makes_steps self.old (if result then takes [] else nothing) self.new }
        ensures full { result ≡ false → is_full self.new size }
        ensures lacks { result ≡ false → (k : ℕ) → allocates_in self.old size k
            → has_no_room self.old size k }
        ensures still { (k : ℕ) → is_used self.old k → is_used self.new k }
        ensures stays { (n k : ℕ) → result ≡ false → has_no_room self.old n k
            → has_no_room self.new n k }
        ensures same { (c : Self) (n : ℕ) → result ≡ false → offers_room self.new c n
            → offers_room self.old c n }
        ensures books { books self.new ≡ books self.old };

    /// Draws a ticket: the budget word rises by 1. The ticket is the number that the step finds,
    /// and the drawing is all that is done from there on.
    fn draw_ticket(&mut self) -> u32
        requires ready { Self.is_ready self.old }
        requires none { (books self.old).ticket ≡ None }
        ensures ready { Self.is_ready self.new }
        ensures goes { Self.makes_steps self.old (draws 1) self.new }
        ensures next { IsNextTicket Self.makes_steps has_budget self.old result }
        ensures drawn { (later : Self) × Self.makes_steps self.old nothing later
            × has_budget later result × Self.makes_steps later (draws 1) self.new }
        ensures full { (n : ℕ) → is_full self.old n → is_full self.new n }
        ensures stays { (n k : ℕ) → has_no_room self.old n k → has_no_room self.new n k }
        ensures lacked { (n k : ℕ) → allocates_in self.old n k → has_no_room self.new n k
            → has_no_room self.old n k }
        ensures same { (c : Self) (n : ℕ) → offers_room self.new c n → offers_room self.old c n }
        ensures books { books self.new ≡ record (books self.old) { ticket = Some result } };

    /// Takes a block with the ticket if it is Free: the block becomes the mutator's, of the kind
    /// that mutators fill, and its words are the region for the size. In overflow allocation they
    /// are the overflow region, and the region that the seat fills stays.
    fn take_free(&mut self, block: u32, size: u32) -> bool
        requires ready { Self.is_ready self.old }
        requires block { block < (books self.old).blocks }
        requires least { HEADER_WORDS ≤ size }
        requires most { size ≤ MAX_MEDIUM_WORDS }
        requires ticket { (t : ℕ) × ((books self.old).ticket ≡ Some t)
            × (t < (books self.old).allowance) }
        ensures goes { Self.makes_steps self.old (if result then grants block else nothing)
            self.new }
        ensures found { result ≡ true → has_room self.new size }
        ensures offered { result ≡ true → offers_room self.old self.new size }
        ensures region { result ≡ true → allocates_in self.new size block }
        ensures ready { result ≡ false → Self.is_ready self.new }
        ensures used { result ≡ false → is_used self.new block }
        ensures keeps { is_overflow self.old size → keeps_hole self.old self.new }
        ensures overflow { is_overflow self.old size → is_overflow self.new size }
        ensures offers { (c : Self) (n : ℕ) → result ≡ false → offers_room self.new c n
            → offers_room self.old c n }
        ensures still { (k : ℕ) → is_used self.old k → is_used self.new k }
        ensures stays { (n k : ℕ) → k ≢ block → has_no_room self.old n k
            → has_no_room self.new n k }
        ensures same { result ≡ false → (n k : ℕ) → has_no_room self.old n k
            → has_no_room self.new n k }
        ensures books { books self.new ≡ record (books self.old)
            { ticket = if result then None else (books self.old).ticket } };

    /// Stores the words of a new object at the start of the region for its size, in order, and then
    /// sets its start bit. The region begins after the object. Register `d` holds the object.
    fn publish(&mut self, d: u32, shape: &Shape) -> Name
        requires room { has_room self.old (size_of shape.now.refs shape.now.nums) }
        requires register { d < REGISTERS }
        requires refs { shape.now.refs ≤ MAX_REFS }
        requires nums { shape.now.nums ≤ MAX_NUMS }
        requires small { size_of shape.now.refs shape.now.nums ≤ MAX_MEDIUM_WORDS }
        requires births { (books self.old).births + 1 < 2 ^ 32 }
        ensures ready { Self.is_ready self.new }
        ensures goes { Self.makes_steps self.old
            (births d shape.now.refs shape.now.nums result) self.new }
        ensures stays { (n k : ℕ) → has_no_room self.old n k → has_no_room self.new n k }
        ensures still { (k : ℕ) → is_used self.old k → is_used self.new k }
        ensures placed { places self.old self.new d (size_of shape.now.refs shape.now.nums) }
        ensures keeps { is_overflow self.old (size_of shape.now.refs shape.now.nums)
            → keeps_hole self.old self.new }
        ensures region { (k : ℕ)
            → allocates_in self.old (size_of shape.now.refs shape.now.nums) k
            → allocates_in self.new (size_of shape.now.refs shape.now.nums) k }
        ensures books { books self.new
            ≡ record (books self.old) { births = (books self.old).births + 1 } };

    // Steps that change no region leave them as they are: the blocks in which the seat tries them
    // and the hole region, too.
    ghost regions_stay: { (a b : Self) (e : Effect) → Self.makes_steps a e b → e.moved ≡ false
        → keeps_regions a b };

    ghost tried_blocks_stay: { (a b : Self) (n k : ℕ) → keeps_regions a b
        → allocates_in a n k ↔ allocates_in b n k };

    ghost overflows_stay: { (a b : Self) (n : ℕ) → keeps_regions a b → is_overflow a n
        → is_overflow b n };

    ghost hole_stays: { (a b : Self) → keeps_regions a b → keeps_hole a b };

    ghost hole_stays_kept: { (a b c : Self) → keeps_hole a b → keeps_hole b c
        → keeps_hole a c };

    // While a mutator has an unused ticket below the allowance, some block is Free.
    ghost free_block_is_left: { (a : Self) (t : ℕ) → Self.is_ready a → (books a).ticket ≡ Some t
        → t < (books a).allowance
        → ((k : ℕ) → k < (books a).blocks → is_used a k) → ⊥ };
}
