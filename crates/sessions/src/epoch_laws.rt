//! Laws of the part of an epoch: why it ends, what it adds, and the heap that it leaves.

ghost use Rattle.std.specs.Prelude.{◌≡◌, ◌≢◌, ◌↔◌, ◌⊎◌, ℕ, ◌+◌, ◌*◌, ◌-◌, ◌/◌, ◌%◌, ◌<◌, ◌≤◌, true, false, List, [], ◌∷◌, ◌++◌, map, length, count_by, nat_lt, None, Some};
ghost use Rattle.std.specs.List.{AllByRecursion};
ghost use Rattle.sessions.specs.Prelude.{block_at, offset_at, block_start, Kind, Name, Command, is_new, is_gc, is_meet, size_wanted, IdealHeap, Entry, entry, is_full, IsMutator, heap_after_run, HeapState, empty_heap, HasKind, block_word, class_at, line_marked, is_start, is_unlogged, IsHeld, name_at, refs_at, nums_at, size_at, number_at, size_of, cell_words, is_old, MutatorState, Rules, MarkSweep, SemiSpace, GenCopy, Immix, StickyImmix, rules_of, Copies, Headroom, IsTail, HasHole, free_of, used_of, headroom_of, allowance_of, is_logged_under, Setting, Moment, Cause, AtGc, AtMeet, AtEnd, AtNeed, Raised, is_at_gc, is_at_need, next_in, Needs, EndsBy, IsOfPart, LeavesNoGap, IsBirth, StoresInto, Stopped, ExhaustsAllowance, RunsPart, IsSound, part_of_birth, heap_after_birth};
ghost use Rattle.sessions.specs.Prelude.kinds;
ghost use Rattle.sessions.specs.Prelude.c;
ghost use Rattle.sessions.specs.Prelude.r;

use object_model::MAX_MEDIUM_WORDS;

/// Where a part ends, a mutator's next command says why it stopped there, but for a stop that was
/// raised: at `gc`, at `meet`, at the end of its trace, or at a `new`. Before any other command it
/// stopped because some mutator raised a stop. That one is at `gc` or at a `new`, and either may
/// raise a stop.
pub fn causes_follow_the_commands()
    ensures gc { (t : Setting) (before now : Moment) (ends : ℕ → Cause) (m : ℕ)
        → RunsPart t before ends now → IsMutator t.traces m → next_in t now m ≡ Some c.Gc
        → (ends m ≡ AtGc) ⊎ ((by : ℕ) × (ends m ≡ Raised by)) }
    ensures meet { (t : Setting) (before now : Moment) (ends : ℕ → Cause) (m : ℕ)
        → RunsPart t before ends now → IsMutator t.traces m → next_in t now m ≡ Some c.Meet
        → (ends m ≡ AtMeet) ⊎ ((by : ℕ) × (ends m ≡ Raised by)) }
    ensures end { (t : Setting) (before now : Moment) (ends : ℕ → Cause) (m : ℕ)
        → RunsPart t before ends now → IsMutator t.traces m → next_in t now m ≡ None
        → ends m ≡ AtEnd }
    ensures need { (t : Setting) (before now : Moment) (ends : ℕ → Cause) (m d refs nums : ℕ)
        → RunsPart t before ends now → IsMutator t.traces m
        → next_in t now m ≡ Some (c.New d refs nums)
        → (ends m ≡ AtNeed) ⊎ ((by : ℕ) × (ends m ≡ Raised by)) }
    ensures others { (t : Setting) (before now : Moment) (ends : ℕ → Cause) (m : ℕ)
        (command : Command) → RunsPart t before ends now → IsMutator t.traces m
        → next_in t now m ≡ Some command → is_gc command ≡ false
        → is_meet command ≡ false
        → is_new command ≡ false → (by : ℕ) × (ends m ≡ Raised by) }
    ensures raised { (t : Setting) (before now : Moment) (ends : ℕ → Cause) (m by : ℕ)
        → RunsPart t before ends now → IsMutator t.traces m → ends m ≡ Raised by
        → IsMutator t.traces by × ((next_in t now by ≡ Some c.Gc) ⊎ ((d : ℕ)
        × (refs : ℕ)
        × (nums : ℕ) × (next_in t now by ≡ Some (c.New d refs nums)))) }
    ensures raises { (t : Setting) (now : Moment) (ends : ℕ → Cause) (m by : ℕ)
        → next_in t now m ≢ None → IsMutator t.traces by
        → (ends by ≡ AtGc) ⊎ (ends by ≡ AtNeed) → EndsBy t now ends m (Raised by) }
    ensures at_gc { map is_at_gc (AtGc ∷ AtMeet ∷ AtEnd ∷ AtNeed ∷ Raised 1 ∷ [])
        ≡ true ∷ false ∷ false ∷ false ∷ false ∷ [] }
    ensures at_need { map is_at_need (AtGc ∷ AtMeet ∷ AtEnd ∷ AtNeed ∷ Raised 1 ∷ [])
        ≡ false ∷ false ∷ false ∷ true ∷ false ∷ [] }
{}

/// In a part no `gc`, no `meet` and no `new` of a large object gets its reply, and no `new` is
/// refused. A `new` of `MAX_MEDIUM_WORDS` words may be among its entries.
pub fn parts_have_plain_entries()
    ensures gcs { (t : Setting) (before now : Moment) (ends : ℕ → Cause)
        → RunsPart t before ends now → count_by (λ e. is_gc e.command) now.done
        ≡ count_by (λ e. is_gc e.command) before.done }
    ensures meets { (t : Setting) (before now : Moment) (ends : ℕ → Cause)
        → RunsPart t before ends now → count_by (λ e. is_meet e.command) now.done
        ≡ count_by (λ e. is_meet e.command) before.done }
    ensures refusals { (t : Setting) (before now : Moment) (ends : ℕ → Cause)
        → RunsPart t before ends now → count_by (λ e. is_full e.reply) now.done
        ≡ count_by (λ e. is_full e.reply) before.done }
    ensures large { (t : Setting) (before now : Moment) (ends : ℕ → Cause)
        → RunsPart t before ends now
        → count_by (λ e. nat_lt MAX_MEDIUM_WORDS (size_wanted e.command)) now.done
        ≡ count_by (λ e. nat_lt MAX_MEDIUM_WORDS (size_wanted e.command)) before.done }
    ensures medium { (m d refs nums : ℕ) (n : Name) → size_of refs nums ≤ MAX_MEDIUM_WORDS
        → IsOfPart (entry m (c.New d refs nums) (r.New n)) }
{}

/// In a part each object stays, with its name, its size and the number of the collection that it
/// survived. A `new` allocates one object, of its name and shape, which is young and not unlogged;
/// nothing else does. Mutators leave the headroom, and room for copies of all blocks in use. They
/// change no block that was not Free, and a Free block that they took contains an object.
pub fn parts_keep_the_heap()
    ensures held { (rules : Rules) (numbers : List ℕ) (old : HeapState) (h : IdealHeap)
        (part : List Entry) (new : HeapState) (ms : List MutatorState)
        → Stopped rules numbers old h part new ms → (a : ℕ) → IsHeld old a
        → IsHeld new a }
    ensures header { (rules : Rules) (numbers : List ℕ) (old : HeapState) (h : IdealHeap)
        (part : List Entry) (new : HeapState) (ms : List MutatorState)
        → Stopped rules numbers old h part new ms → (a : ℕ) → IsHeld old a
        → (name_at new a ≡ name_at old a) × (size_at new a ≡ size_at old a)
        × (number_at new a ≡ number_at old a) }
    ensures none_born { (rules : Rules) (numbers : List ℕ) (old : HeapState) (h : IdealHeap)
        (part : List Entry) (new : HeapState) (ms : List MutatorState)
        → Stopped rules numbers old h part new ms
        → AllByRecursion (λ e. is_new e.command ≡ false) part → (a : ℕ) → IsHeld new a
        → IsHeld old a }
    ensures one_born { (rules : Rules) (numbers : List ℕ) (old : HeapState) (h : IdealHeap)
        (new : HeapState) (ms : List MutatorState) (m d refs nums : ℕ) (n : Name)
        → Stopped rules numbers old h (entry m (c.New d refs nums) (r.New n) ∷ []) new ms
        → (a : ℕ) → IsHeld new a → (IsHeld old a → ⊥)
        → (name_at new a ≡ n) × (refs_at new a ≡ refs) × (nums_at new a ≡ nums) }
    ensures born_held { (rules : Rules) (numbers : List ℕ) (old : HeapState) (h : IdealHeap)
        (new : HeapState) (ms : List MutatorState) (e : Entry) (rest : List Entry) (n : Name)
        → e.reply ≡ r.New n → Stopped rules numbers old h (e ∷ rest) new ms
        → (a : ℕ) × IsHeld new a × (name_at new a ≡ n) }
    ensures young { (rules : Rules) (numbers : List ℕ) (old : HeapState) (h : IdealHeap)
        (part : List Entry) (new : HeapState) (ms : List MutatorState)
        → Stopped rules numbers old h part new ms → (a : ℕ) → IsHeld new a → (IsHeld old a
        → ⊥)
        → (is_old new a ≡ false) × (is_unlogged new a ≡ false) }
    ensures headroom { (rules : Rules) (numbers : List ℕ) (old : HeapState) (h : IdealHeap)
        (part : List Entry) (new : HeapState) (ms : List MutatorState)
        → Stopped rules numbers old h part new ms → rules.reserve ≡ Headroom
        → headroom_of old ≤ free_of old → headroom_of old ≤ free_of new }
    ensures copies { (rules : Rules) (numbers : List ℕ) (old : HeapState) (h : IdealHeap)
        (part : List Entry) (new : HeapState) (ms : List MutatorState)
        → Stopped rules numbers old h part new ms → rules.reserve ≡ Copies
        → used_of old ≤ free_of old
        → used_of old + (free_of old - free_of new) ≤ free_of new }
    ensures words { (rules : Rules) (numbers : List ℕ) (old : HeapState) (h : IdealHeap)
        (part : List Entry) (new : HeapState) (ms : List MutatorState)
        → Stopped rules numbers old h part new ms → (k : ℕ) (kind : Kind)
        → HasKind old k kind
        → kind ≢ kinds.Free → block_word new k ≡ block_word old k }
    ensures taken { (rules : Rules) (numbers : List ℕ) (old : HeapState) (h : IdealHeap)
        (part : List Entry) (new : HeapState) (ms : List MutatorState)
        → Stopped rules numbers old h part new ms → (k : ℕ) → HasKind old k kinds.Free
        → HasKind new k kinds.Free ⊎ HasKind new k rules.fill }
    ensures used { (rules : Rules) (numbers : List ℕ) (old : HeapState) (h : IdealHeap)
        (part : List Entry) (new : HeapState) (ms : List MutatorState)
        → Stopped rules numbers old h part new ms → (k : ℕ) → HasKind old k kinds.Free
        → HasKind new k rules.fill → rules.fill ≢ kinds.Free
        → (a : ℕ) × IsHeld new a × (block_at new.blocks a ≡ k) }
{}

/// An object that a part allocates lies in a block that was Free or that mutators fill: behind all
/// objects that a Bump block had, in clear lines of an Immix block, or in a free cell. In cells, an
/// object of 5 words takes one of 6 words.
pub fn births_lie_in_holes()
    ensures kind { (rules : Rules) (old : HeapState) (part : List Entry) (new : HeapState) (a : ℕ)
        → IsBirth rules old part new a → HasKind old (block_at new.blocks a) kinds.Free
        ⊎ HasKind old (block_at new.blocks a) rules.fill }
    ensures behind { (rules : Rules) (old : HeapState) (part : List Entry) (new : HeapState)
        (a : ℕ) → IsBirth rules old part new a → rules.fill ≡ kinds.Bump
        → HasKind old (block_at new.blocks a) kinds.Bump → (x : ℕ) → IsHeld old x
        → block_at old.blocks x ≡ block_at new.blocks a
        → offset_at old.blocks x + size_at old x ≤ offset_at new.blocks a }
    ensures lines { (rules : Rules) (old : HeapState) (part : List Entry) (new : HeapState)
        (a : ℕ)
        → IsBirth rules old part new a → rules.fill ≡ kinds.Immix
        → HasKind old (block_at new.blocks a) kinds.Immix → (line : ℕ)
        → 16 * line < offset_at new.blocks a + size_at new a
        → offset_at new.blocks a < 16 * (line + 1)
        → line_marked old (block_at new.blocks a) line ≡ true → ⊥ }
    ensures cell { (rules : Rules) (old : HeapState) (part : List Entry) (new : HeapState) (a : ℕ)
        → IsBirth rules old part new a → rules.fill ≡ kinds.Cells
        → HasKind old (block_at new.blocks a) kinds.Cells
        → is_start old (block_start old.blocks (block_at new.blocks a)
        + offset_at new.blocks a) ≡ true → ⊥ }
    ensures five { (rules : Rules) (old : HeapState) (part : List Entry) (new : HeapState) (a : ℕ)
        → IsBirth rules old part new a → rules.fill ≡ kinds.Cells → size_at new a ≡ 5
        → (cell_words (class_at new (block_at new.blocks a)) ≡ 6)
        × (offset_at new.blocks a % 6 ≡ 0) }
{}

/// Allocation leaves no gap before an object. In a Bump block it begins at the tail, in a block
/// that was Free at the block's start, in an Immix block at a hole's first line, or it directly
/// follows another object of the block. Each of these ways is allowed, and in cells any cell.
pub fn births_are_packed()
    ensures tail { (rules : Rules) (old : HeapState) (part : List Entry) (new : HeapState)
        (a : ℕ) → IsBirth rules old part new a → rules.fill ≡ kinds.Bump
        → HasKind old (block_at new.blocks a) kinds.Bump → (at : ℕ)
        → IsTail old (block_at new.blocks a) at → (offset_at new.blocks a ≡ at)
        ⊎ ((x : ℕ) × IsHeld new x × (block_at new.blocks x ≡ block_at new.blocks a)
        × (x + size_at new x ≡ a)) }
    ensures free { (rules : Rules) (old : HeapState) (part : List Entry) (new : HeapState)
        (a : ℕ) → IsBirth rules old part new a → rules.fill ≢ kinds.Cells
        → HasKind old (block_at new.blocks a) kinds.Free
        → (offset_at new.blocks a ≡ 0)
        ⊎ ((x : ℕ) × IsHeld new x × (block_at new.blocks x ≡ block_at new.blocks a)
        × (x + size_at new x ≡ a)) }
    ensures lines { (rules : Rules) (old : HeapState) (part : List Entry) (new : HeapState)
        (a : ℕ) → IsBirth rules old part new a → rules.fill ≡ kinds.Immix
        → HasKind old (block_at new.blocks a) kinds.Immix
        → ((offset_at new.blocks a % 16 ≡ 0) × (0 < offset_at new.blocks a
        → line_marked old (block_at new.blocks a) (offset_at new.blocks a / 16 - 1) ≡ true))
        ⊎ ((x : ℕ) × IsHeld new x × (block_at new.blocks x ≡ block_at new.blocks a)
        × (x + size_at new x ≡ a)) }
    ensures cells { (old new : HeapState) (a : ℕ) → LeavesNoGap kinds.Cells old new a }
    ensures hole { (fill : Kind) (old new : HeapState) (a : ℕ)
        → HasHole fill old (block_at new.blocks a) (offset_at new.blocks a) (size_at new a)
        → LeavesNoGap fill old new a }
    ensures start { (fill : Kind) (old new : HeapState) (a : ℕ)
        → HasKind old (block_at new.blocks a) kinds.Free → offset_at new.blocks a ≡ 0
        → LeavesNoGap fill old new a }
    ensures next { (fill : Kind) (old new : HeapState) (a x : ℕ) → IsHeld new x
        → block_at new.blocks x ≡ block_at new.blocks a → x + size_at new x ≡ a
        → LeavesNoGap fill old new a }
{}

/// A part without a `put`, or without a reply `ok`, logs no object. A `put` that gets `ok` logs the
/// object that its register referred to when it ran.
pub fn stores_are_logged()
    ensures no_put { (rules : Rules) (numbers : List ℕ) (old : HeapState) (h : IdealHeap)
        (part : List Entry) (new : HeapState) (ms : List MutatorState)
        → Stopped rules numbers old h part new ms
        → AllByRecursion (λ e. (s i v : ℕ) → e.command ≢ c.Put s i v) part → (a : ℕ)
        → is_logged_under rules new a ≡ true → is_logged_under rules old a ≡ true }
    ensures no_ok { (rules : Rules) (numbers : List ℕ) (old : HeapState) (h : IdealHeap)
        (part : List Entry) (new : HeapState) (ms : List MutatorState)
        → Stopped rules numbers old h part new ms
        → AllByRecursion (λ e. e.reply ≢ r.Done) part → (a : ℕ)
        → is_logged_under rules new a ≡ true → is_logged_under rules old a ≡ true }
    ensures second { (rules : Rules) (numbers : List ℕ) (old : HeapState) (h : IdealHeap)
        (new : HeapState) (ms : List MutatorState) (first : Entry) (m s i v : ℕ)
        → ((s' i' v' : ℕ) → first.command ≢ c.Put s' i' v')
        → Stopped rules numbers old h (first ∷ entry m (c.Put s i v) r.Done ∷ []) new ms
        → (a : ℕ) → is_logged_under rules new a ≡ true
        → (is_logged_under rules old a ≡ true)
        ⊎ ((heap_after_run h (first ∷ [])).registers m s ≡ Some (name_at new a)) }
    ensures stores { (h : IdealHeap) (prefix rest : List Entry) (m s i v : ℕ) (n : Name)
        → (heap_after_run h prefix).registers m s ≡ Some n
        → StoresInto h (prefix ++ entry m (c.Put s i v) r.Done ∷ rest) n }
{}

/// A small need ends a part only if no Free block is left, or fewer blocks of the allowance than
/// there are mutators. A mutator alone has then taken all blocks of the allowance. A large need
/// ends a part with nothing taken, so a part may be empty.
pub fn needs_exhaust_the_allowance()
    ensures fewer { (t : Setting) (old new : HeapState) → free_of new ≤ free_of old
        → ExhaustsAllowance t old new ↔ ((free_of new ≡ 0)
        ⊎ (allowance_of t.rules.reserve old
        < (free_of old - free_of new) + length t.traces)) }
    ensures alone { (t : Setting) (before now : Moment) (ends : ℕ → Cause) (d refs nums : ℕ)
        → RunsPart t before ends now → length t.traces ≡ 1 → ends 1 ≡ AtNeed
        → next_in t now 1 ≡ Some (c.New d refs nums) → size_of refs nums ≤ MAX_MEDIUM_WORDS
        → (free_of now.heap ≡ 0) ⊎ (free_of before.heap
        ≡ free_of now.heap + allowance_of t.rules.reserve before.heap) }
    ensures empty { (t : Setting) (now : Moment) (ends : ℕ → Cause) → IsSound t now
        → ((m : ℕ) → IsMutator t.traces m → EndsBy t now ends m (ends m))
        → ((m d refs nums : ℕ) → IsMutator t.traces m → ends m ≡ AtNeed
        → Needs t now m d refs nums → MAX_MEDIUM_WORDS < size_of refs nums)
        → RunsPart t now ends now }
{}

/// Under each plan that reclaims, the first object may be allocated at the start of a Free block,
/// which gets the kind that mutators fill. In cells it is one of cells that are large enough.
pub fn births_use_free_blocks()
    ensures marksweep { IsBirth (rules_of MarkSweep) (empty_heap 4) part_of_birth
        (heap_after_birth kinds.Cells 1) 806 }
    ensures semispace { IsBirth (rules_of SemiSpace) (empty_heap 4) part_of_birth
        (heap_after_birth kinds.Bump 0) 806 }
    ensures gencopy { IsBirth (rules_of GenCopy) (empty_heap 4) part_of_birth
        (heap_after_birth kinds.Young 0) 806 }
    ensures immix { IsBirth (rules_of Immix) (empty_heap 4) part_of_birth
        (heap_after_birth kinds.Immix 0) 806 }
    ensures stickyimmix { IsBirth (rules_of StickyImmix) (empty_heap 4) part_of_birth
        (heap_after_birth kinds.Immix 0) 806 }
{}
