//! The allocation of objects.

ghost use Rattle.std.specs.Prelude.{◌≡◌, ◌≢◌, ◌+◌, ◌<◌, ◌≤◌, ◌^◌, ◌⊎◌, ℕ, List, [], ◌∷◌, Some, None, true, false, if◌then◌else◌, IsOk, IsErr, IfErr, ⊤};
ghost use Rattle.object_model.specs.Objects.{size_of};
ghost use Rattle.mutator_calls.specs.Effects.{nothing, takes, grants, draws};
ghost use Rattle.mutator_calls.specs.Allocating.{searches, allocation_reads, IsNextTicket, IsSpent, Draws, MakesRoom, TakesFree, IsShort, IsCause, AnswersAllocation};

use crate::allocation_steps::AllocationSteps;
use crate::need::{Allocated, Need, NeedCause};
use ideal_heap::{MAX_NUMS, MAX_REFS, REGISTERS};
use object_model::{HEADER_WORDS, MAX_MEDIUM_WORDS, Shape, size_words};

/// Makes the first hole with room for `size` words, in ascending order of blocks, the seat's
/// region. Returns whether there was one.
fn take_some_hole<S: AllocationSteps>(seat: &mut S, size: u32) -> bool
    requires ready { S.is_ready seat.old }
    requires least { HEADER_WORDS ≤ size }
    requires most { size ≤ MAX_MEDIUM_WORDS }
    requires full { S.is_full seat.old size }
    ensures found { result ≡ true → S.has_room seat.new size }
    ensures offered { result ≡ true → S.offers_room seat.old seat.new size }
    ensures taken { result ≡ true → (k : ℕ) × (taken : List ℕ)
        × ((taken ≡ []) ⊎ (taken ≡ k ∷ [])) × S.makes_steps seat.old (takes taken) seat.new
        × ((j : ℕ) → j < k → S.has_no_room seat.new size j) × S.allocates_in seat.new size k
        × ((j : ℕ) → S.has_no_room seat.old size j → j ≢ k → S.has_no_room seat.new size j) }
    ensures ready { result ≡ false → S.is_ready seat.new }
    ensures goes { result ≡ false → S.makes_steps seat.old nothing seat.new }
    ensures lacks { (k : ℕ) → result ≡ false → k < (S.books seat.new).blocks
        → S.has_no_room seat.new size k }
    ensures same { (c : S) (n : ℕ) → result ≡ false → S.offers_room seat.new c n
        → S.offers_room seat.old c n }
    ensures still { (k : ℕ) → S.is_used seat.old k → S.is_used seat.new k }
    ensures books { S.books seat.new ≡ S.books seat.old }
{
    for block in 0..seat.blocks() {
        if seat.take_hole(block, size) {
            return true;
        }
    }
    false
}

/// The mutator's ticket, which is drawn if it has none.
fn hold_ticket<S: AllocationSteps>(seat: &mut S) -> u32
    requires { S.is_ready seat.old }
    ensures ready { S.is_ready seat.new }
    ensures goes { (drawn : ℕ) × S.makes_steps seat.old (draws drawn) seat.new
        × Draws (IsNextTicket S.makes_steps S.has_budget seat.old) (S.books seat.old).ticket
        (Some result) drawn }
    ensures full { (n : ℕ) → S.is_full seat.old n → S.is_full seat.new n }
    ensures stays { (n k : ℕ) → S.has_no_room seat.old n k → S.has_no_room seat.new n k }
    ensures lacked { (n k : ℕ) → S.allocates_in seat.old n k → S.has_no_room seat.new n k
        → S.has_no_room seat.old n k }
    ensures same { (c : S) (n : ℕ) → S.offers_room seat.new c n → S.offers_room seat.old c n }
    ensures books { S.books seat.new ≡ record (S.books seat.old) { ticket = Some result } }
{
    match seat.ticket() {
        Some(ticket) => ticket,
        None => seat.draw_ticket(),
    }
}

/// Takes the first Free block with the mutator's ticket. There is one, since the ticket is below
/// the allowance.
fn take_some_free<S: AllocationSteps>(seat: &mut S, size: u32)
    requires ready { S.is_ready seat.old }
    requires least { HEADER_WORDS ≤ size }
    requires most { size ≤ MAX_MEDIUM_WORDS }
    requires ticket { (t : ℕ) × ((S.books seat.old).ticket ≡ Some t)
        × (t < (S.books seat.old).allowance) }
    ensures found { S.has_room seat.new size }
    ensures offered { S.offers_room seat.old seat.new size }
    ensures grants { (k : ℕ) × S.makes_steps seat.old (grants k) seat.new
        × ((j : ℕ) → S.has_no_room seat.old size j → j ≢ k → S.has_no_room seat.new size j)
        × ((j : ℕ) → j < k → S.is_used seat.new j) × S.allocates_in seat.new size k }
    ensures keeps { S.is_overflow seat.old size → S.keeps_hole seat.old seat.new }
    ensures overflow { S.is_overflow seat.old size → S.is_overflow seat.new size }
    ensures books { S.books seat.new ≡ record (S.books seat.old) { ticket = None } }
{
    for block in 0..seat.blocks() {
        if seat.take_free(block, size) {
            return;
        }
    }
    unreachable!()
}

/// Takes the first Free block with the mutator's ticket, which is drawn if it has none. The error
/// is a ticket that is not below the allowance.
fn take_free_block<S: AllocationSteps>(seat: &mut S, size: u32) -> Result<(), u32>
    requires ready { S.is_ready seat.old }
    requires least { HEADER_WORDS ≤ size }
    requires most { size ≤ MAX_MEDIUM_WORDS }
    ensures room { IsOk result → S.has_room seat.new size }
    ensures offered { IsOk result → S.offers_room seat.old seat.new size }
    ensures takes { IsOk result → (k : ℕ) × (drawn : ℕ)
        × S.makes_steps seat.old (searches (k ∷ []) (k ∷ []) drawn) seat.new
        × TakesFree (S.is_used seat.new) (S.allocates_in seat.new size)
        (IsNextTicket S.makes_steps S.has_budget seat.old) (S.books seat.old) (S.books seat.new)
        k drawn
        × ((j : ℕ) → S.has_no_room seat.old size j → j ≢ k → S.has_no_room seat.new size j) }
    ensures keeps { S.is_overflow seat.old size → S.keeps_hole seat.old seat.new }
    ensures overflow { S.is_overflow seat.old size → S.is_overflow seat.new size }
    ensures births { (S.books seat.new).births ≡ (S.books seat.old).births }
    ensures blocks { (S.books seat.new).blocks ≡ (S.books seat.old).blocks }
    ensures ready { IsErr result → S.is_ready seat.new }
    ensures goes { IsErr result → (drawn : ℕ) × S.makes_steps seat.old (draws drawn) seat.new
        × Draws (IsNextTicket S.makes_steps S.has_budget seat.old)
        (S.books seat.old).ticket (S.books seat.new).ticket drawn }
    ensures full { IsErr result → S.is_full seat.old size → S.is_full seat.new size }
    ensures lacks { (j : ℕ) → IsErr result → S.has_no_room seat.old size j
        → S.has_no_room seat.new size j }
    ensures lacked { (j : ℕ) → IsErr result → S.allocates_in seat.old size j
        → S.has_no_room seat.new size j → S.has_no_room seat.old size j }
    ensures same { (c : S) (n : ℕ) → IsErr result → S.offers_room seat.new c n
        → S.offers_room seat.old c n }
    ensures short { IfErr result (IsShort (S.books seat.new)) }
{
    let ticket = hold_ticket(seat);
    if ticket >= seat.allowance() {
        return Err(ticket);
    }
    take_some_free(seat, size);
    Ok(())
}

/// Makes the seat's region one with room for an object of `size` words that overflows the region:
/// a Free block, else a hole, first one in the block of the hole region.
fn find_overflow<S: AllocationSteps>(seat: &mut S, size: u32) -> Result<(), u32>
    requires ready { S.is_ready seat.old }
    requires least { HEADER_WORDS ≤ size }
    requires most { size ≤ MAX_MEDIUM_WORDS }
    requires overflow { S.is_overflow seat.old size }
    requires full { S.is_full seat.old size }
    ensures room { IsOk result → S.has_room seat.new size }
    ensures offered { IsOk result → S.offers_room seat.old seat.new size }
    ensures finds { IsOk result → MakesRoom (allocation_reads S.makes_steps S.has_no_room S.is_used
        S.allocates_in S.is_full S.is_overflow S.keeps_hole S.offers_room S.places S.has_budget
        S.books) seat.old size seat.new }
    ensures births { (S.books seat.new).births ≡ (S.books seat.old).births }
    ensures ready { IsErr result → S.is_ready seat.new }
    ensures goes { IsErr result → (drawn : ℕ) × S.makes_steps seat.old (draws drawn) seat.new
        × Draws (IsNextTicket S.makes_steps S.has_budget seat.old)
        (S.books seat.old).ticket (S.books seat.new).ticket drawn }
    ensures spent { IsErr result
        → IsSpent (S.allocates_in seat.old size) (S.has_no_room seat.old size) }
    ensures cause { IfErr result (λ t. IsCause (S.books seat.new) (S.has_no_room seat.new size)
        size (NeedCause.Budget t)) }
{
    let Err(ticket) = take_free_block(seat, size) else {
        return Ok(());
    };
    if seat.take_own_hole(size) {
        return Ok(());
    }
    if take_some_hole(seat, size) {
        return Ok(());
    }
    Err(ticket)
}

/// Makes the seat's region one with room for `size` words, for which no region has room: a hole is
/// found, first one in the block of the hole region, or a Free block is taken with a ticket. In
/// overflow allocation a Free block comes before a hole.
#[inline(never)]
fn find_room<S: AllocationSteps>(seat: &mut S, size: u32) -> Result<(), u32>
    requires ready { S.is_ready seat.old }
    requires least { HEADER_WORDS ≤ size }
    requires most { size ≤ MAX_MEDIUM_WORDS }
    requires full { S.is_full seat.old size }
    ensures room { IsOk result → S.has_room seat.new size }
    ensures offered { IsOk result → S.offers_room seat.old seat.new size }
    ensures finds { IsOk result → MakesRoom (allocation_reads S.makes_steps S.has_no_room S.is_used
        S.allocates_in S.is_full S.is_overflow S.keeps_hole S.offers_room S.places S.has_budget
        S.books) seat.old size seat.new }
    ensures births { (S.books seat.new).births ≡ (S.books seat.old).births }
    ensures ready { IsErr result → S.is_ready seat.new }
    ensures goes { IsErr result → (drawn : ℕ) × S.makes_steps seat.old (draws drawn) seat.new
        × Draws (IsNextTicket S.makes_steps S.has_budget seat.old)
        (S.books seat.old).ticket (S.books seat.new).ticket drawn }
    ensures spent { IsErr result
        → IsSpent (S.allocates_in seat.old size) (S.has_no_room seat.old size) }
    ensures cause { IfErr result (λ t. IsCause (S.books seat.new) (S.has_no_room seat.new size)
        size (NeedCause.Budget t)) }
{
    if seat.overflows(size) {
        return find_overflow(seat, size);
    }
    if seat.take_own_hole(size) {
        return Ok(());
    }
    if take_some_hole(seat, size) {
        return Ok(());
    }
    take_free_block(seat, size)
}

/// Allocates an object for which no region has room, after a search for room. It is inlined, as its
/// caller is, so that the answer stays in registers.
#[inline(always)]
fn allocate_elsewhere<S: AllocationSteps>(seat: &mut S, d: u32, refs: u32, nums: u32) -> Allocated
    requires ready { S.is_ready seat.old }
    requires register { d < REGISTERS }
    requires refs { refs ≤ MAX_REFS }
    requires nums { nums ≤ MAX_NUMS }
    requires small { size_of refs nums ≤ MAX_MEDIUM_WORDS }
    requires full { S.is_full seat.old (size_of refs nums) }
    requires births { (S.books seat.old).births + 1 < 2 ^ 32 }
    ensures ready { S.is_ready seat.new }
    ensures answer { AnswersAllocation (allocation_reads S.makes_steps S.has_no_room S.is_used
        S.allocates_in S.is_full S.is_overflow S.keeps_hole S.offers_room S.places S.has_budget
        S.books) seat.old d refs nums result seat.new }
{
    let shape = Shape { refs, nums };
    match find_room(seat, size_words(&shape)) {
        Ok(()) => Allocated::Made(seat.publish(d, &shape)),
        Err(ticket) => stop(d, &shape, NeedCause::Budget(ticket)),
    }
}

/// Allocates an object with `refs` nil references and `nums` zeros, and stores its address in
/// register `d`: in a region of the seat if one has room, else in a hole, else in a Free block. In
/// overflow allocation a Free block comes before a hole.
///
/// The answer is `Stop` if the object is large, or if no block has room that the mutator may fill
/// and no Free block may be taken. No region changes then.
#[inline(always)]
pub fn new_object<S: AllocationSteps>(seat: &mut S, d: u32, refs: u32, nums: u32) -> Allocated
    requires ready { S.is_ready seat.old }
    requires register { d < REGISTERS }
    requires refs { refs ≤ MAX_REFS }
    requires nums { nums ≤ MAX_NUMS }
    requires births { (S.books seat.old).births + 1 < 2 ^ 32 }
    ensures ready { S.is_ready seat.new }
    ensures answer { AnswersAllocation (allocation_reads S.makes_steps S.has_no_room S.is_used
        S.allocates_in S.is_full S.is_overflow S.keeps_hole S.offers_room S.places S.has_budget
        S.books) seat.old d refs nums result seat.new }
{
    let shape = Shape { refs, nums };
    let size = size_words(&shape);
    if size > MAX_MEDIUM_WORDS {
        return stop(d, &shape, NeedCause::Large);
    }
    if let Some(name) = seat.allocate_here(d, &shape) {
        return Allocated::Made(name);
    }
    allocate_elsewhere(seat, d, refs, nums)
}

/// The answer to an allocation that is left to the stop.
fn stop(register: u32, shape: &Shape, cause: NeedCause) -> Allocated
    ensures { result ≡ Allocated.Stop (record {
      register = register;
      refs = shape.now.refs;
      nums = shape.now.nums;
      cause = cause;
    }) }
{
    Allocated::Stop(Need {
        register,
        refs: shape.refs,
        nums: shape.nums,
        cause,
    })
}
