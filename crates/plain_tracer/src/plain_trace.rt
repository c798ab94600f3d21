//! The tracer for one worker: how a tracing begins and ends, and blocks to copy into.
//! `collector` calls `begin`, `take_globals` and `close`; `claiming.rt` calls `take_block`.
//! `block`, `room` and `next_block` change together, in `take_block`. `run` never changes.
//! Of the row it writes block words, and at `begin` line bits and unlog bits: no word of an object.

ghost use Rattle.std.specs.Prelude.{◌≡◌, ◌≢◌, ◌+◌, ◌<◌, ◌≤◌, ◌↔◌, ℕ, IsTrue, length, true, false, List, [], ◌∷◌, ◌++◌, map, take, if◌then◌else◌, All, IfOk, IfErr, IfSome, IfNone};
ghost use Rattle.std.specs.List.{range_with_len};
ghost use Rattle.plain_tracer.specs.Prelude.{row_words, IsRowOf, IsAddress, GLOBALS, heap_state, HasKind, state_of, Setup, Event, TakeBlock, IsFinished, machine_after, View, NothingIsLeft, first_view, taken_view, left_view, Tracks, TracerHolds, IsTraced, TakesCopyBlock, FindsNone, KeepsRun, MayRun, setup_of, without_lines, without_unlogs, with_unlogs, HoldsLogged, Full, times, IsGrey, logged_token, NoneFree};
ghost use Rattle.plain_tracer.specs.Prelude.kinds;

use crate::tokens::{GlobalRoot, Grey};
use heap_layout::{BLOCK_WORDS, BlockWord, CLASS_UNIT, FIRST_WORKER_OWNER, GLOBALS, Kind, Region};
use object_model::{Collect, Heap, Row};
use side_meta::BITS_PER_WORD;
use std::alloc::{AllocError, Global};
use trace_core::{TraceRun, Traced};

/// The tracer for one worker. It finds what is reachable and moves it, and makes the events of the
/// tracing machine.
///
/// Its clauses speak of every setup, list of events and view that it tracks.
#[derive(Debug, Drop)]
pub struct PlainTrace {
    pub(crate) row: Row,
    pub(crate) run: TraceRun,
    // The block that was taken last to copy into, and its free words.
    pub(crate) block: u32,
    pub(crate) room: Region,
    // No block before it is Free.
    pub(crate) next_block: u32,
    pub(crate) globals_taken: bool,
    pub(crate) logged_taken: bool,
}

impl PlainTrace {
    /// Begins a tracing of a heap. A full collection clears all unlog bits, and under a plan with
    /// lines all line bits. A nursery collection sets the unlog bits of the logged objects.
    ///
    /// It takes no memory.
    pub fn begin(heap: Heap, run: TraceRun) -> Result<PlainTrace, AllocError>
        requires { MayRun (heap_state heap) run }
        ensures tracks { IfOk result (λ t.
            Tracks (setup_of (heap_state heap) run 1) [] t (first_view run)) }
        ensures run { IfOk result (λ t. t.run ≡ run) }
        ensures globals { IfOk result (λ t. t.globals_taken ≡ false) }
        ensures logged { IfOk result (λ t. t.logged_taken ≡ false) }
        ensures never_fails { IfErr result (λ e. ⊥) }
    {
        let mut row = heap.into_row();
        if run.collect == Collect::Full {
            clear_bits(&mut row, run.lines);
        } else {
            set_unlogs(&mut row, &run.logged);
        }
        Ok(PlainTrace {
            row,
            run,
            block: 0,
            room: Region { next: 0, end: 0 },
            next_block: 0,
            globals_taken: false,
            logged_taken: false,
        })
    }

    /// The row after the tracing, and what `begin` was given. Blocks that `take_copy_block` made it
    /// leave may have few words of targets.
    pub fn close(self) -> Traced
        ensures run { result.run ≡ self.run }
        ensures traced { (p : Setup) (es : List Event) (v : View) → Tracks p es self v
            → IsTraced p es v result }
        ensures finished { (p : Setup) (es : List Event) (v : View) → Tracks p es self v
            → NothingIsLeft p v → IsFinished p (machine_after p es) }
    {
        Traced {
            row: self.row,
            run: self.run,
        }
    }

    /// Takes the lowest Free block to copy into, and gives up the rest of the last one. `None` if
    /// no block is Free.
    pub fn take_copy_block(&mut self) -> Option<u32>
        requires tracing { TracerHolds self.old (λ p es v. Unit {0}) }
        requires copies { self.old.run.copy_kind ≢ kinds.Free }
        ensures free { IfSome result (λ b. HasKind (state_of self.old.row) b kinds.Free) }
        ensures lowest { IfSome result (λ b. (c : ℕ) → c < b
            → HasKind (state_of self.old.row) c kinds.Free → ⊥) }
        ensures some { IfSome result (λ b. (p : Setup) (es : List Event) (v : View)
            → Tracks p es self.old v
            → Tracks p (es ++ TakeBlock b 1 ∷ []) self.new (left_view b v)) }
        ensures none { IfNone result (NoneFree (state_of self.old.row)) }
        ensures same { IfNone result ((p : Setup) (es : List Event) (v : View)
            → Tracks p es self.old v → Tracks p es self.new v) }
        ensures keeps { KeepsRun self.old self.new }
    {
        self.take_block()
    }

    /// The tokens of all globals, in order, at the first `Ok`. Then none.
    ///
    /// Fails if memory runs out.
    pub fn take_globals(&mut self, alloc: Global) -> Result<Vec<GlobalRoot>, AllocError>
        ensures first { IfOk result (λ tokens. self.old.globals_taken ≡ false
            → map (λ token. token.global) tokens.items ≡ range_with_len 0 GLOBALS) }
        ensures later { IfOk result (λ tokens. self.old.globals_taken ≡ true
            → tokens.items ≡ []) }
        ensures taken { IfOk result (λ tokens. self.new.globals_taken ≡ true) }
        ensures failed { IfErr result (λ e. self.new.globals_taken ≡ self.old.globals_taken) }
        ensures run { self.new.run ≡ self.old.run }
        ensures logged { self.new.logged_taken ≡ self.old.logged_taken }
        ensures same { (p : Setup) (es : List Event) (v : View) → Tracks p es self.old v
            → Tracks p es self.new v }
    {
        if self.globals_taken {
            return Ok(Vec::new(alloc));
        }
        let mut tokens = Vec::with_capacity(alloc, GLOBALS as usize)?;
        for global in 0..GLOBALS {
            tokens.push_reserved(GlobalRoot { global });
        }
        self.globals_taken = true;
        Ok(tokens)
    }

    /// The tokens of the logged objects, by address, at the first `Ok`. Then none, and in a full
    /// collection none.
    ///
    /// Fails if memory runs out.
    pub fn take_logged(&mut self, alloc: Global) -> Result<Vec<Grey>, AllocError>
        requires { TracerHolds self.old (λ p es v. Unit {0}) }
        ensures first { IfOk result (λ tokens. self.old.logged_taken ≡ false
            → map (λ token. token.object) tokens.items ≡ self.old.run.logged.items) }
        ensures rights { IfOk result (λ tokens. (p : Setup) (es : List Event) (v : View)
            → Tracks p es self.old v → HoldsLogged p v → All (IsGrey p v) tokens.items) }
        ensures later { IfOk result (λ tokens. self.old.logged_taken ≡ true
            → tokens.items ≡ []) }
        ensures full { IfOk result (λ tokens. self.old.run.collect ≡ Full
            → tokens.items ≡ []) }
        ensures taken { IfOk result (λ tokens. self.new.logged_taken ≡ true) }
        ensures failed { IfErr result (λ e. self.new.logged_taken ≡ self.old.logged_taken) }
        ensures run { self.new.run ≡ self.old.run }
        ensures globals { self.new.globals_taken ≡ self.old.globals_taken }
        ensures same { (p : Setup) (es : List Event) (v : View) → Tracks p es self.old v
            → Tracks p es self.new v }
    {
        if self.logged_taken {
            return Ok(Vec::new(alloc));
        }
        let tokens = self.logged_tokens(alloc)?;
        self.logged_taken = true;
        Ok(tokens)
    }

    /// The token of each logged object.
    fn logged_tokens(&self, alloc: Global) -> Result<Vec<Grey>, AllocError>
        requires { TracerHolds self.now (λ p es v. Unit {0}) }
        ensures { IfOk result (λ tokens. (p : Setup) (es : List Event) (v : View)
            → Tracks p es self.now v
            → tokens.items ≡ map (logged_token p) self.now.run.logged.items) }
    {
        let count = self.run.logged.len();
        let mut tokens = Vec::with_capacity(alloc, count)?;
        for place in 0..count {
            let object = self.run.logged[place];
            tokens.push_reserved(self.with_shape(object, object));
        }
        Ok(tokens)
    }

    /// Takes the first Free block from the next one on.
    pub(crate) fn take_block(&mut self) -> Option<u32>
        requires tracing { TracerHolds self.old (λ p es v. Unit {0}) }
        requires copies { self.old.run.copy_kind ≢ kinds.Free }
        ensures some { IfSome result (λ b. TakesCopyBlock self.old self.new b) }
        ensures none { IfNone result (FindsNone self.old self.new) }
    {
        let Some(block) = self.next_free() else {
            self.next_block = self.row.layout.blocks();
            return None;
        };
        let word = BlockWord {
            kind: self.run.copy_kind,
            class: 0,
            owner: FIRST_WORKER_OWNER,
        };
        self.row.set_block(block, &word);
        self.block = block;
        self.room = Region {
            next: 0,
            end: BLOCK_WORDS,
        };
        self.next_block = block + 1;
        Some(block)
    }

    /// The first Free block from the next one on.
    fn next_free(&self) -> Option<u32>
        requires { TracerHolds self.now (λ p es v. Unit {0}) }
        ensures some { IfSome result (λ b. (self.now.next_block ≤ b)
            × HasKind (state_of self.now.row) b kinds.Free
            × ((c : ℕ) → self.now.next_block ≤ c → c < b
            → HasKind (state_of self.now.row) c kinds.Free → ⊥)) }
        ensures none { IfNone result ((c : ℕ) → self.now.next_block ≤ c
            → HasKind (state_of self.now.row) c kinds.Free → ⊥) }
    {
        for block in self.next_block..self.row.layout.blocks() {
            if self.is_free(block) {
                return Some(block);
            }
        }
        None
    }

    /// Whether a block is Free.
    fn is_free(&self, block: u32) -> bool
        requires extent { IsRowOf self.now.row.layout self.now.row.words }
        requires block { block < self.now.row.layout.blocks }
        ensures { IsTrue result ↔ HasKind (state_of self.now.row) block kinds.Free }
    {
        let word = self.row.words.get(self.row.layout.block_at(block) as usize);
        word % CLASS_UNIT == Kind::Free as u64
    }
}

/// Sets the unlog bits of these objects.
fn set_unlogs(row: &mut Row, objects: &[u32])
    requires extent { length row.old.words ≡ row_words row.old.layout.blocks }
    requires objects { (a : ℕ) → 0 < times a objects.now
        → IsAddress row.old.layout.blocks a }
    ensures { state_of row.new ≡ with_unlogs (state_of row.old) objects.now }
{
    for place in 0..objects.len() {
        let object = objects[place];
        set_unlog(row, object);
    }
}

/// Sets the unlog bit of an address.
fn set_unlog(row: &mut Row, address: u32)
    requires extent { length row.old.words ≡ row_words row.old.layout.blocks }
    requires address { IsAddress row.old.layout.blocks address }
    ensures { state_of row.new ≡ with_unlogs (state_of row.old) (address ∷ []) }
{
    let index = address - row.layout.heap_base();
    let word = row.layout.unlog_base() + index / BITS_PER_WORD;
    side_meta::set_bit(&mut row.words, word, index % BITS_PER_WORD);
}

/// Clears all unlog bits, and if `lines` all line bits.
fn clear_bits(row: &mut Row, lines: bool)
    requires { length row.old.words ≡ row_words row.old.layout.blocks }
    ensures { state_of row.new ≡ without_unlogs (if lines then without_lines (state_of row.old)
        else state_of row.old) }
{
    if lines {
        clear_lines(row);
    }
    let from = row.layout.unlog_base() as usize;
    let to = row.layout.heap_base() as usize;
    row.words.fill(from, to);
}

/// Clears all line bits.
fn clear_lines(row: &mut Row)
    requires { length row.old.words ≡ row_words row.old.layout.blocks }
    ensures { state_of row.new ≡ without_lines (state_of row.old) }
{
    let from = row.layout.line_at(0) as usize;
    let to = row.layout.start_base() as usize;
    row.words.fill(from, to);
}
