//! Laws of the mutator machine. Each holds after every log of an epoch, in any order of steps.

ghost use Rattle.std.specs.Prelude.{◌≡◌, ◌≢◌, ◌⊎◌, ℕ, ◌<◌, ◌≤◌, ◌+◌, ◌%◌, ◌^◌, Some, None, List, [], ◌∷◌, ◌++◌, IsTrue, true, false, if◌then◌else◌, slice_set};
ghost use Rattle.std.specs.List.{Contains, AllByRecursion};
ghost use Rattle.mutator_core.specs.Prelude.{StartBits, Globals, first, block_at, IsAddress, Command, IdealHeap, entry, IsRun, heap_after_run, HeapState, HasKind, with_words, size_of, IsHeld, IsInExtent, is_pinned, is_unlogged, name_at, refs_at, nums_at, ref_at, num_at, global_at, word_at, owner_at, IsWellFormed, FreeBlockIsClear, LineBitsAreExact, MutatorState, Represents, register_at, with_register, ObjectsStay, SetsPin, ClearsUnlog, TakesStep, Remembers, free_of, IsOfPart, Event, LogEntry, OwnedBlock, Extent, Loaded, Epoch, bit_word, allowance, HasTicket, IsPlaceOfMutator, BeginsRegion, history, entry_of, entries_of, reply_in, IsSeen, HasSeenUsed, IsLoaded, tickets_below, taken_by, drawn_by, allowed_to, smaller, GivesBack, IsEpochLog, machine_after, heap_after, mutators_after, local_after_log, history_of, IsUnpublishedWord, HasAvailable, IsUntaken, IsTaken, IsOwnedBy, IsListed, sum_after, HasRaisedStop, AreBetweenCalls, IsStoppedAfter};
ghost use Rattle.mutator_core.specs.Prelude.kinds;
ghost use Rattle.mutator_core.specs.Prelude.commands;
ghost use Rattle.mutator_core.specs.Prelude.replies;
ghost use Rattle.mutator_core.specs.Prelude.event;

use heap_layout::{BUDGET_WORD, GLOBALS, STOP_WORD};
use ideal_heap::REGISTERS;
use object_model::{HEADER_WORDS, SHAPE_OFFSET};

/// The step of a command makes one entry, of that command, whether the command has an effect or
/// not. Every other step makes none.
pub fn entries_are_made_at_one_step()
    ensures perform { (command : Command) → entry_of (event.Perform command) ≡ Some command }
    ensures miss { (command : Command) → entry_of (event.Miss command) ≡ Some command }
    ensures only { (x : Event) (command : Command) → entry_of x ≡ Some command
        → (x ≡ event.Perform command) ⊎ (x ≡ event.Miss command) }
    ensures one { (s : HeapState) (x : LogEntry) (command : Command)
        → entry_of x.event ≡ Some command
        → entries_of s x ≡ entry x.mutator command (reply_in s x.answer) ∷ [] }
    ensures none { (s : HeapState) (x : LogEntry) → entry_of x.event ≡ None
        → entries_of s x ≡ [] }
{}

/// A command on registers and globals takes a step of its mutator, in any heap.
pub fn registers_take_steps()
    ensures move_register { (s : HeapState) (m : MutatorState) (d e : ℕ) → d < REGISTERS
        → e < REGISTERS → TakesStep s m (commands.Move d e) replies.Done s
        (with_register m d (register_at m e)) }
    ensures drop_register { (s : HeapState) (m : MutatorState) (e : ℕ) → e < REGISTERS
        → TakesStep s m (commands.DropReg e) replies.Done s (with_register m e 0) }
    ensures load_nil { (s : HeapState) (m : MutatorState) (d g : ℕ) → d < REGISTERS
        → g < GLOBALS → global_at s g ≡ 0
        → TakesStep s m (commands.Load d g) replies.Nil s (with_register m d 0) }
    ensures load { (s : HeapState) (m : MutatorState) (d g : ℕ) → d < REGISTERS
        → g < GLOBALS → global_at s g ≢ 0
        → TakesStep s m (commands.Load d g) (replies.Ref (name_at s (global_at s g))) s
        (with_register m d (global_at s g)) }
    ensures share { (s : HeapState) (m : MutatorState) (g e : ℕ) → g < GLOBALS → e < REGISTERS
        → TakesStep s m (commands.Share g e) replies.Done
        (with_words s (slice_set s.words (first s.blocks Globals + g) (register_at m e))) m }
{}

/// A command that reads an object of a register takes a step of its mutator, in any heap, and so
/// does a `swap` that finds another number.
pub fn reads_take_steps()
    ensures get_nil { (s : HeapState) (m : MutatorState) (d e i : ℕ) → d < REGISTERS
        → e < REGISTERS → register_at m e ≢ 0 → i < refs_at s (register_at m e)
        → ref_at s (register_at m e) i ≡ 0
        → TakesStep s m (commands.Get d e i) replies.Nil s (with_register m d 0) }
    ensures get { (s : HeapState) (m : MutatorState) (d e i : ℕ) → d < REGISTERS
        → e < REGISTERS → register_at m e ≢ 0 → i < refs_at s (register_at m e)
        → ref_at s (register_at m e) i ≢ 0
        → TakesStep s m (commands.Get d e i)
        (replies.Ref (name_at s (ref_at s (register_at m e) i))) s
        (with_register m d (ref_at s (register_at m e) i)) }
    ensures read { (s : HeapState) (m : MutatorState) (e j : ℕ) → e < REGISTERS
        → register_at m e ≢ 0 → j < nums_at s (register_at m e)
        → TakesStep s m (commands.Read e j) (replies.Num (num_at s (register_at m e) j)) s m }
    ensures swap_no { (s : HeapState) (m : MutatorState) (e j was next : ℕ) → e < REGISTERS
        → register_at m e ≢ 0 → j < nums_at s (register_at m e)
        → num_at s (register_at m e) j ≢ was
        → TakesStep s m (commands.Swap e j was next) replies.No s m }
{}

/// A command that changes an object takes a step of its mutator, in any well-formed heap; a pin may
/// change in any heap. Clearing an unlog bit leaves the objects where they are.
pub fn commands_take_steps()
    ensures write { (s : HeapState) (m : MutatorState) (e j v : ℕ) → IsWellFormed s
        → IsHeld s (register_at m e) → e < REGISTERS → register_at m e ≢ 0
        → j < nums_at s (register_at m e) → v < 2 ^ 64
        → TakesStep s m (commands.Write e j v) replies.Done (with_words s (slice_set s.words
        (register_at m e + HEADER_WORDS + refs_at s (register_at m e) + j) v)) m }
    ensures put { (s : HeapState) (m : MutatorState) (e i q : ℕ) → IsWellFormed s
        → IsHeld s (register_at m e) → e < REGISTERS → q < REGISTERS → register_at m e ≢ 0
        → i < refs_at s (register_at m e)
        → TakesStep s m (commands.Put e i q) replies.Done (with_words s (slice_set s.words
        (register_at m e + HEADER_WORDS + i) (register_at m q))) m }
    ensures add { (s : HeapState) (m : MutatorState) (e j n : ℕ) → IsWellFormed s
        → IsHeld s (register_at m e) → e < REGISTERS → register_at m e ≢ 0
        → j < nums_at s (register_at m e)
        → TakesStep s m (commands.Add e j n) (replies.Num (num_at s (register_at m e) j))
        (with_words s (slice_set s.words (register_at m e + HEADER_WORDS
        + refs_at s (register_at m e) + j) ((num_at s (register_at m e) j + n) % 2 ^ 64))) m }
    ensures swap { (s : HeapState) (m : MutatorState) (e j was next : ℕ) → IsWellFormed s
        → IsHeld s (register_at m e) → e < REGISTERS → register_at m e ≢ 0
        → j < nums_at s (register_at m e) → num_at s (register_at m e) j ≡ was
        → next < 2 ^ 64
        → TakesStep s m (commands.Swap e j was next) replies.Yes (with_words s
        (slice_set s.words (register_at m e + HEADER_WORDS + refs_at s (register_at m e) + j)
        next)) m }
    ensures pin { (s new : HeapState) (m : MutatorState) (e : ℕ) → e < REGISTERS
        → register_at m e ≢ 0 → SetsPin s new (register_at m e) true
        → TakesStep s m (commands.Pin e)
        (if is_pinned s (register_at m e) then replies.No else replies.Yes) new m }
    ensures unpin { (s new : HeapState) (m : MutatorState) (e : ℕ) → e < REGISTERS
        → register_at m e ≢ 0 → SetsPin s new (register_at m e) false
        → TakesStep s m (commands.Unpin e)
        (if is_pinned s (register_at m e) then replies.Yes else replies.No) new m }
    ensures log { (s : HeapState) (words : List ℕ) (a : ℕ)
        → ClearsUnlog s (with_words s words) a → ObjectsStay s (with_words s words) }
{}

/// Each entry of the history is one that an epoch of a session may have: it is no `gc` and no
/// `meet`, its reply is not `full`, and it allocates no large object.
pub fn entries_belong_to_epochs()
    ensures { (p : Epoch) (i : IdealHeap) (log : List LogEntry) → IsEpochLog p i log
        → AllByRecursion IsOfPart (history_of p log) }
{}

/// At every step the heap is well formed, Free blocks are clear, and an old object whose unlog bit
/// is set has no reference to a young object.
pub fn heaps_stay_in_order()
    ensures order { (p : Epoch) (i : IdealHeap) (log : List LogEntry) → IsEpochLog p i log
        → IsWellFormed (heap_after p log) }
    ensures free { (p : Epoch) (i : IdealHeap) (log : List LogEntry) → IsEpochLog p i log
        → (k : ℕ) → FreeBlockIsClear (heap_after p log) k }
    ensures remembers { (p : Epoch) (i : IdealHeap) (log : List LogEntry) → IsEpochLog p i log
        → Remembers p.rules (heap_after p log) }
{}

/// At every step a block has no owner or one. A block without an owner has the block word that it
/// had as the epoch began; if it is an Immix block, its line bits are those of the lines that
/// objects touch. The blocks that a mutator took are those that have it as owner, with the kind
/// that mutators fill and the class that each was taken for.
pub fn blocks_have_one_owner()
    ensures owner { (p : Epoch) (i : IdealHeap) (log : List LogEntry) → IsEpochLog p i log
        → (k : ℕ) → k < p.before.blocks → IsUntaken p (heap_after p log) k
        ⊎ IsTaken p (heap_after p log) k }
    ensures lines { (p : Epoch) (i : IdealHeap) (log : List LogEntry) → IsEpochLog p i log
        → (k : ℕ) → owner_at (heap_after p log) k ≡ 0
        → LineBitsAreExact (heap_after p log) k }
    ensures apart { (p : Epoch) (i : IdealHeap) (log : List LogEntry) → IsEpochLog p i log
        → (m n : ℕ) (o q : OwnedBlock) → Contains (local_after_log p log m).owned o
        → Contains (local_after_log p log n).owned q → o.block ≡ q.block → m ≡ n }
    ensures listed { (p : Epoch) (i : IdealHeap) (log : List LogEntry) → IsEpochLog p i log
        → (m : ℕ) (o : OwnedBlock) → Contains (local_after_log p log m).owned o
        → IsOwnedBy p (heap_after p log) m o }
    ensures all { (p : Epoch) (i : IdealHeap) (log : List LogEntry) → IsEpochLog p i log
        → (k : ℕ) → k < p.before.blocks → 0 < owner_at (heap_after p log) k
        → IsListed (local_after_log p log (owner_at (heap_after p log) k)) k }
{}

/// At every step the words of an unpublished object belong to no held object, and to no other
/// mutator's unpublished object. They lie in a block that the mutator owns, and in no block that
/// another mutator owns.
pub fn unpublished_objects_are_apart()
    ensures clear { (p : Epoch) (i : IdealHeap) (log : List LogEntry) → IsEpochLog p i log
        → (m x w : ℕ) → IsUnpublishedWord (local_after_log p log m) w
        → IsHeld (heap_after p log) x → IsInExtent (heap_after p log) x w → ⊥ }
    ensures apart { (p : Epoch) (i : IdealHeap) (log : List LogEntry) → IsEpochLog p i log
        → (m n w : ℕ) → IsUnpublishedWord (local_after_log p log m) w
        → IsUnpublishedWord (local_after_log p log n) w → m ≡ n }
    ensures owner { (p : Epoch) (i : IdealHeap) (log : List LogEntry) → IsEpochLog p i log
        → (m w : ℕ) → IsUnpublishedWord (local_after_log p log m) w
        → owner_at (heap_after p log) (block_at p.before.blocks w) ≡ m }
    ensures alone { (p : Epoch) (i : IdealHeap) (log : List LogEntry) → IsEpochLog p i log
        → (m n w : ℕ) (o : OwnedBlock) → IsUnpublishedWord (local_after_log p log m) w
        → Contains (local_after_log p log n).owned o → o.block ≡ block_at p.before.blocks w
        → m ≡ n }
{}

/// Each object that a mutator allocated, and its unpublished object, lies in a block that the
/// mutator took: in a block that was Free as the epoch began, or in a hole that the block had
/// then. In blocks of cells it begins at the start of a cell of its class. The unpublished object
/// overlaps no object that the mutator allocated.
pub fn objects_lie_in_holes()
    ensures made { (p : Epoch) (i : IdealHeap) (log : List LogEntry) → IsEpochLog p i log
        → (m : ℕ) (x : Extent) → Contains (local_after_log p log m).made x
        → IsPlaceOfMutator p (local_after_log p log m).owned x.address x.size }
    ensures unpublished { (p : Epoch) (i : IdealHeap) (log : List LogEntry) → IsEpochLog p i log
        → (m : ℕ) → 0 < (local_after_log p log m).unpublished.address
        → HasAvailable p (local_after_log p log m) }
{}

/// A mutator stores the first word of an object at the start of a hole of the beginning of the
/// epoch, at the start of a block that was Free, or directly after an object that it allocated in
/// the block.
pub fn regions_begin_at_fronts()
    ensures { (p : Epoch) (i : IdealHeap) (log : List LogEntry) (x : LogEntry) (a refs nums : ℕ)
        → IsEpochLog p i (log ++ x ∷ []) → x.event ≡ event.Initialize a refs nums 0
        → BeginsRegion p (local_after_log p log x.mutator).made a (size_of refs nums) }
{}

/// An object that is held at one step is held at each later step, with the same name, shape and
/// collector word. A longer log only adds entries to the history.
pub fn objects_stay()
    ensures held { (p : Epoch) (i : IdealHeap) (log more : List LogEntry)
        → IsEpochLog p i (log ++ more)
        → (a : ℕ) → IsHeld (heap_after p log) a → IsHeld (heap_after p (log ++ more)) a }
    ensures header { (p : Epoch) (i : IdealHeap) (log more : List LogEntry)
        → IsEpochLog p i (log ++ more)
        → (a j : ℕ) → IsHeld (heap_after p log) a → j < 3
        → word_at (heap_after p (log ++ more)) (a + j) ≡ word_at (heap_after p log) (a + j) }
    ensures name { (p : Epoch) (i : IdealHeap) (log more : List LogEntry)
        → IsEpochLog p i (log ++ more)
        → (a : ℕ) → IsHeld (heap_after p log) a
        → name_at (heap_after p (log ++ more)) a ≡ name_at (heap_after p log) a }
    ensures history { (p : Epoch) (log more : List LogEntry)
        → history_of p (log ++ more) ≡ history_of p log
        ++ history p (machine_after p log) more }
{}

/// At every step the history is a run of the ideal heap that the epoch began with, and the heap
/// with its mutators represents the ideal heap after that run.
pub fn histories_are_runs()
    ensures run { (p : Epoch) (i : IdealHeap) (log : List LogEntry) → IsEpochLog p i log
        → IsRun i (history_of p log) }
    ensures represents { (p : Epoch) (i : IdealHeap) (log : List LogEntry) → IsEpochLog p i log
        → Represents (heap_after p log) (mutators_after p log) (heap_after_run i
        (history_of p log)) }
{}

/// The shape word and the collector word that a mutator loaded have not changed. An unlog bit that
/// it found clear is still clear.
pub fn loaded_headers_stay()
    ensures shape { (p : Epoch) (i : IdealHeap) (log : List LogEntry) → IsEpochLog p i log
        → (m : ℕ) → 0 < (local_after_log p log m).shape.at
        → word_at (heap_after p log) ((local_after_log p log m).shape.at + SHAPE_OFFSET)
        ≡ (local_after_log p log m).shape.word }
    ensures collector { (p : Epoch) (i : IdealHeap) (log : List LogEntry) → IsEpochLog p i log
        → (m : ℕ) → 0 < (local_after_log p log m).collector.at
        → word_at (heap_after p log) ((local_after_log p log m).collector.at + 2)
        ≡ (local_after_log p log m).collector.word }
    ensures logged { (p : Epoch) (i : IdealHeap) (log : List LogEntry) → IsEpochLog p i log
        → (m : ℕ) → 0 < (local_after_log p log m).logged
        → IsTrue (is_unlogged (heap_after p log) (local_after_log p log m).logged) → ⊥ }
{}

/// The stop word is 0, or the number of a mutator that raised a stop. Once a mutator loads a stop
/// word other than 0, the word does not change. A block whose loaded word is not that of a Free
/// block is not Free, and a block whose loaded word has an owner has one.
pub fn seen_words_stay()
    ensures stop { (p : Epoch) (i : IdealHeap) (log : List LogEntry) → IsEpochLog p i log
        → (word_at (heap_after p log) STOP_WORD ≡ 0)
        ⊎ HasRaisedStop p log (word_at (heap_after p log) STOP_WORD) }
    ensures polled { (p : Epoch) (i : IdealHeap) (log : List LogEntry) → IsEpochLog p i log
        → (m : ℕ) → 0 < (local_after_log p log m).stop
        → word_at (heap_after p log) STOP_WORD ≡ (local_after_log p log m).stop }
    ensures blocks { (p : Epoch) (i : IdealHeap) (log : List LogEntry) → IsEpochLog p i log
        → (m : ℕ) (x : Loaded) → Contains (local_after_log p log m).blocks x
        → (x.at < p.before.blocks) × IsSeen (heap_after p log) x }
{}

/// A line word that a mutator loaded has not changed since the epoch began. A start word that it
/// loaded has all bits of the word as the epoch began, and the present word has all bits of the
/// loaded one. A header word that it loaded has not changed, and its object is held.
///
/// So a mutator may search a block before it takes it: while the block has no owner, the start
/// words loaded from it are those of the beginning of the epoch.
pub fn loaded_words_stay()
    ensures words { (p : Epoch) (i : IdealHeap) (log : List LogEntry) → IsEpochLog p i log
        → (m : ℕ) (x : Loaded) → Contains (local_after_log p log m).loaded x
        → IsLoaded p (heap_after p log) x }
    ensures unowned { (p : Epoch) (i : IdealHeap) (log : List LogEntry) → IsEpochLog p i log
        → (m a : ℕ) (x : Loaded) → Contains (local_after_log p log m).loaded x
        → IsAddress p.before.blocks a
        → x.at ≡ bit_word p.before.blocks StartBits a
        → owner_at (heap_after p log) (block_at p.before.blocks a) ≡ 0
        → x.word ≡ word_at p.before x.at }
{}

/// The budget word is the number of tickets drawn. Each ticket below the allowance is used for a
/// Free block, or unused. The number of Free blocks has fallen by the number of those taken. An
/// unused ticket is below the budget word, and no two mutators have the same one.
pub fn tickets_are_counted()
    ensures budget { (p : Epoch) (i : IdealHeap) (log : List LogEntry) → IsEpochLog p i log
        → sum_after drawn_by p log ≡ word_at (heap_after p log) BUDGET_WORD }
    ensures allowed { (p : Epoch) (i : IdealHeap) (log : List LogEntry) → IsEpochLog p i log
        → sum_after (allowed_to (allowance p)) p log
        ≡ smaller (word_at (heap_after p log) BUDGET_WORD) (allowance p) }
    ensures free { (p : Epoch) (i : IdealHeap) (log : List LogEntry) → IsEpochLog p i log
        → free_of p.before ≡ free_of (heap_after p log) + sum_after taken_by p log }
    ensures drawn { (p : Epoch) (i : IdealHeap) (log : List LogEntry) → IsEpochLog p i log
        → (m t : ℕ) → (local_after_log p log m).ticket ≡ Some t
        → t < word_at (heap_after p log) BUDGET_WORD }
    ensures distinct { (p : Epoch) (i : IdealHeap) (log : List LogEntry) → IsEpochLog p i log
        → (m n t : ℕ) → (local_after_log p log m).ticket ≡ Some t
        → (local_after_log p log n).ticket ≡ Some t → m ≡ n }
{}

/// There are at least as many Free blocks as unused tickets below the allowance. So while a mutator
/// has such a ticket, some block is Free, and no mutator has seen that each block is not Free: a
/// search for a Free block with such a ticket is not in vain.
pub fn tickets_leave_free_blocks()
    ensures enough { (p : Epoch) (i : IdealHeap) (log : List LogEntry) → IsEpochLog p i log
        → sum_after (λ l. tickets_below (allowance p) l.ticket) p log
        ≤ free_of (heap_after p log) }
    ensures left { (p : Epoch) (i : IdealHeap) (log : List LogEntry) → IsEpochLog p i log
        → (m : ℕ) → HasTicket p (local_after_log p log m)
        → (k : ℕ) × HasKind (heap_after p log) k kinds.Free }
    ensures seen { (p : Epoch) (i : IdealHeap) (log : List LogEntry) → IsEpochLog p i log
        → (m n : ℕ) → HasTicket p (local_after_log p log m)
        → ((k : ℕ) → k < p.before.blocks → HasSeenUsed (local_after_log p log n) k)
        → ⊥ }
{}

/// If each mutator of the epoch is between two calls and the mutators give back their blocks, the
/// heap is a stopped heap.
pub fn epochs_end_in_stopped_heaps()
    ensures { (p : Epoch) (i : IdealHeap) (log : List LogEntry) (new : HeapState)
        → IsEpochLog p i log
        → AreBetweenCalls p log → GivesBack (heap_after p log) new
        → IsStoppedAfter p i log new }
{}
