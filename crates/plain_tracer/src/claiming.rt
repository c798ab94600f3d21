//! Claims: each object gets its target once.
//! `collector` calls `claim`, for registers; scans call the others, for fields and globals.
//! Writes the object's collector word and `room`: a collector word that gives away the front of the
//! room and the room's next word change together (`win_moved`).
//! Never writes another word of an object, nor a bit.

ghost use Rattle.std.specs.Prelude.{◌≡◌, ◌≢◌, ◌+◌, ◌<◌, ◌≤◌, ℕ, List, [], ◌∷◌, ◌++◌, Option, Some, None, IfSome, IfNone, IsTrue};
ghost use Rattle.plain_tracer.specs.Prelude.{block_start, MAX_MEDIUM_WORDS, IsHeld, size_of, Setup, blocks, may_be_moved, size_before, Event, ClaimCause, ByRoot, ClaimEvent, IsAskedBy, NoneIsFree, machine_after, target_of, View, claimed_view, Tracks, TracerHolds, ClaimsRoot, Claims, Fronts, Wins, KeepsRun, WasHeld, IsWaiting};
ghost use Rattle.plain_tracer.specs.Prelude.kinds;

use crate::plain_trace::PlainTrace;
use crate::tokens::{Claim, Won};
use forward_word::{claimed, encode, is_old};
use heap_layout::{Layout, block_of};
use object_model::{MAX_MEDIUM_WORDS, Shape, size_words};

impl PlainTrace {
    /// Claims the object at `x` for a root: a register. The root is set once this call has
    /// answered, or once its `Won` is copied. The caller keeps the target.
    ///
    /// The target is `x` itself if the object may not move, or does not fit the worker's room and
    /// no block is Free. Else it is the front of the room (Immix's opportunistic evacuation). A
    /// block is taken only for an object that does not fit the room: the lowest Free one.
    pub fn claim(&mut self, x: u32) -> Claim
        requires { TracerHolds self.old (WasHeld x) }
        ensures claims { (p : Setup) (es : List Event) (v : View) → Tracks p es self.old v
            → IsHeld p.before x → ClaimsRoot p es v self.old self.new x
            result }
        ensures keeps { KeepsRun self.old self.new }
    {
        let layout = self.row.layout;
        self.claim_object(layout, x)
    }

    /// Claims the object at `x`, which something asks for.
    pub(crate) fn claim_object(&mut self, layout: Layout, x: u32) -> Claim
        requires tracing { TracerHolds self.old (WasHeld x) }
        requires layout { layout.blocks ≡ self.old.row.layout.blocks }
        ensures claims { (p : Setup) (es : List Event) (v : View) (cause : ClaimCause)
            → Tracks p es self.old v → IsHeld p.before x
            → IsAskedBy p (machine_after p es) x cause → Claims p es v self.old self.new x cause
            result }
        ensures keeps { KeepsRun self.old self.new }
    {
        let word = self.row.words.get(x as usize + 2);
        if let Some(target) = claimed(word, self.run.number) {
            return Claim::Seen(target);
        }
        if is_old(word, self.run.base) {
            return Claim::Old;
        }
        let shape = self.row.shape_at(x);
        Claim::Won(self.win(layout, x, &shape))
    }

    /// Gives the object at `x` its target.
    fn win(&mut self, layout: Layout, x: u32, shape: &Shape) -> Won
        requires tracing { TracerHolds self.old (λ p es v. IsWaiting p es x shape.now) }
        requires layout { layout.blocks ≡ self.old.row.layout.blocks }
        ensures wins { (p : Setup) (es : List Event) (v : View) (cause : ClaimCause)
            → Tracks p es self.old v → IsWaiting p es x shape.now
            → IsAskedBy p (machine_after p es) x cause
            → (taken : Option ℕ) × Wins p es v self.old self.new taken x cause result }
        ensures keeps { KeepsRun self.old self.new }
    {
        if !self.may_move(layout, x, size_words(shape)) {
            return self.win_in_place(x, shape);
        }
        match self.front(layout, size_words(shape)) {
            Some(front) => self.win_moved(x, front, shape),
            None => self.win_in_place(x, shape),
        }
    }

    /// Whether the object at `x`, of this size, may move.
    fn may_move(&self, layout: Layout, x: u32, size: u32) -> bool
        requires tracing { TracerHolds self.now (WasHeld x) }
        requires layout { layout.blocks ≡ self.now.row.layout.blocks }
        ensures { (p : Setup) (es : List Event) (v : View) → Tracks p es self.now v
            → IsHeld p.before x → size ≡ size_before p x → result ≡ may_be_moved p x }
    {
        let leaves = self.run.from[block_of(&layout, x) as usize];
        if !leaves {
            return false;
        }
        let pinned = self.has_bit(layout, layout.pin_base(), x);
        if pinned {
            return false;
        }
        size <= MAX_MEDIUM_WORDS
    }

    /// The front of room for `size` words. Takes a Free block if the room is too small. `None` if
    /// no block is Free.
    fn front(&mut self, layout: Layout, size: u32) -> Option<u32>
        requires layout { layout.blocks ≡ self.old.row.layout.blocks }
        requires tracing { TracerHolds self.old (λ p es v. p.copy ≢ kinds.Free) }
        requires size { size ≤ MAX_MEDIUM_WORDS }
        requires some { 0 < size }
        ensures some { IfSome result (λ front. (p : Setup) (es : List Event) (v : View)
            → Tracks p es self.old v → Fronts p es v self.old self.new size front) }
        ensures none { IfNone result ((p : Setup) (es : List Event) (v : View)
            → Tracks p es self.old v
            → Tracks p es self.new v × NoneIsFree p (machine_after p es).taken
            × (self.new.room.end < self.new.room.next + size)) }
        ensures keeps { KeepsRun self.old self.new }
    {
        if self.room.end - self.room.next >= size {
            return Some(layout.address(self.block, self.room.next));
        }
        let block = self.take_block()?;
        Some(self.row.layout.address(block, 0))
    }

    /// Claims the object at `x`, which moves to the front of the room.
    fn win_moved(&mut self, x: u32, front: u32, shape: &Shape) -> Won
        requires tracing { TracerHolds self.old (λ p es v. IsWaiting p es x shape.now
            × IsTrue (may_be_moved p x) × (front ≡ block_start (blocks p) self.old.block
            + self.old.room.next)) }
        requires room { self.old.room.next + size_of shape.now.refs shape.now.nums
            ≤ self.old.room.end }
        ensures target { result.target ≡ front }
        ensures wins { (p : Setup) (es : List Event) (v : View) (cause : ClaimCause)
            → Tracks p es self.old v → IsWaiting p es x shape.now → IsTrue (may_be_moved p x)
            → front ≡ block_start (blocks p) self.old.block + self.old.room.next
            → IsAskedBy p (machine_after p es) x cause
            → Wins p es v self.old self.new None x cause result }
        ensures keeps { KeepsRun self.old self.new }
    {
        let size = size_words(shape);
        self.row
            .words
            .set(x as usize + 2, encode(self.run.number, front));
        self.room.next += size;
        Won {
            object: x,
            target: front,
            size,
            refs: shape.refs,
        }
    }

    /// Claims the object at `x`, which stays in place.
    fn win_in_place(&mut self, x: u32, shape: &Shape) -> Won
        requires { TracerHolds self.old (λ p es v. IsWaiting p es x shape.now) }
        ensures target { result.target ≡ x }
        ensures wins { (p : Setup) (es : List Event) (v : View) (cause : ClaimCause)
            → Tracks p es self.old v → IsWaiting p es x shape.now
            → (IsTrue (may_be_moved p x) → NoneIsFree p (machine_after p es).taken
            × (self.old.room.end < self.old.room.next + size_before p x))
            → IsAskedBy p (machine_after p es) x cause
            → Wins p es v self.old self.new None x cause result }
        ensures keeps { KeepsRun self.old self.new }
    {
        self.claim_in_place(x);
        Won {
            object: x,
            target: x,
            size: size_words(shape),
            refs: shape.refs,
        }
    }

    /// Stores into the object at `x` that it was claimed and stays. None of its words is read.
    pub(crate) fn claim_in_place(&mut self, x: u32)
        requires { TracerHolds self.old (WasHeld x) }
        ensures claims { (p : Setup) (es : List Event) (v : View) (cause : ClaimCause)
            → Tracks p es self.old v → IsHeld p.before x → target_of p es x ≡ None
            → (IsTrue (may_be_moved p x) → NoneIsFree p (machine_after p es).taken
            × (self.old.room.end < self.old.room.next + size_before p x))
            → IsAskedBy p (machine_after p es) x cause
            → Tracks p (es ++ ClaimEvent x x cause ∷ []) self.new (claimed_view p x x cause v) }
        ensures layout { self.new.row.layout ≡ self.old.row.layout }
        ensures keeps { KeepsRun self.old self.new }
    {
        self.row
            .words
            .set(x as usize + 2, encode(self.run.number, x));
    }
}
