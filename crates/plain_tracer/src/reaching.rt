//! Scans as the collector makes them: an object that stays in place is claimed by its unlog bit.
//! `collector` calls `grey`, `reach_fields` and `reach_global`, for each object and global.
//! Writes fields and globals, and by claims and copies what those write.
//! Collector word and unlog bit of an object that stays change together (`reach_in_place`).
//! Never reads a word of such an object before its turn to be scanned comes (`grey`).

ghost use Rattle.std.specs.Prelude.{◌≡◌, ◌≢◌, ◌+◌, ◌<◌, ◌≤◌, ◌++◌, ◌∷◌, ℕ, List, [], IsTrue, false, map, vec_len, vec_capacity};
ghost use Rattle.plain_tracer.specs.Prelude.{bit_of, LineWords, IsHeld, TouchesLine, Setup, blocks, may_be_moved, Event, ClaimCause, IsAskedBy, machine_after, View, times, IsGrey, IsReached, grey_of, Tracks, TracerHolds, Forwards, ScansField, ScansFields, SetsGlobal, KeepsRun, WasHeld, StaysHere, IsReferred, IsNoRoot, IsNextField};

use crate::plain_trace::PlainTrace;
use crate::tokens::{Claim, GlobalRoot, Grey, Reached};
use heap_layout::{Layout, block_of};
use object_model::{HEADER_WORDS, size_words};

impl PlainTrace {
    /// The token with the shape of its object.
    pub fn grey(&self, reached: Reached) -> Grey
        requires { TracerHolds self.now (λ p es v. IsReached p v reached) }
        ensures { (p : Setup) (es : List Event) (v : View) → Tracks p es self.now v
            → IsReached p v reached → result ≡ grey_of p reached }
    {
        self.with_shape(reached.object, reached.target)
    }

    /// The token of an object with its shape, which is read where the object was.
    pub(crate) fn with_shape(&self, object: u32, target: u32) -> Grey
        requires { TracerHolds self.now (WasHeld object) }
        ensures { (p : Setup) (es : List Event) (v : View) → Tracks p es self.now v
            → IsHeld p.before object
            → result ≡ grey_of p (record { object = object; target = target }) }
    {
        let shape = self.row.shape_at(object);
        Grey {
            object,
            target,
            size: size_words(&shape),
            refs: shape.refs,
        }
    }

    /// Scans the fields of an object, as `scan_object`. An object that lies in a block whose
    /// objects stay is claimed by its unlog bit, and its words are written and not read.
    ///
    /// It takes no memory: `out` has room for as many tokens as the object has references.
    pub fn reach_fields(&mut self, grey: Grey, out: &mut Vec<Reached>)
        requires tracing { TracerHolds self.old (λ p es v. IsGrey p v grey × (v.won ≡ [])) }
        requires room { vec_len out.old + grey.refs ≤ vec_capacity out.old }
        ensures scans { (p : Setup) (es : List Event) (v : View) → Tracks p es self.old v
            → IsGrey p v grey → v.won ≡ []
            → ScansFields p es v self.new self.old.run.lines grey grey.refs
            (map (grey_of p) out.old.items) (map (grey_of p) out.new.items) }
        ensures lines { IsTrue self.old.run.lines → (p : Setup) (es : List Event) (v : View)
            → Tracks p es self.old v → IsGrey p v grey → v.won ≡ [] → (k : ℕ)
            → TouchesLine (blocks p) grey.target grey.size k
            → IsTrue (bit_of (blocks p) LineWords self.new.row.words k) }
        ensures capacity { vec_capacity out.new ≡ vec_capacity out.old }
        ensures keeps { KeepsRun self.old self.new }
    {
        let lines = self.run.lines;
        self.reach_each(&grey, out);
        if lines {
            self.mark_lines(&grey);
        }
    }

    /// Scans the fields of an object.
    fn reach_each(&mut self, grey: &Grey, out: &mut Vec<Reached>)
        requires tracing { TracerHolds self.old (λ p es v. IsGrey p v grey.now × (v.won ≡ [])) }
        requires room { vec_len out.old + grey.now.refs ≤ vec_capacity out.old }
        ensures scans { (p : Setup) (es : List Event) (v : View) → Tracks p es self.old v
            → IsGrey p v grey.now → v.won ≡ []
            → ScansFields p es v self.new false grey.now grey.now.refs
            (map (grey_of p) out.old.items) (map (grey_of p) out.new.items) }
        ensures capacity { vec_capacity out.new ≡ vec_capacity out.old }
        ensures keeps { KeepsRun self.old self.new }
    {
        for field in 0..grey.refs {
            self.reach_field(grey, field, out);
        }
    }

    /// Scans one field of an object, whose earlier fields are scanned. A field whose reference
    /// stays is not written, so its cache line stays clean.
    fn reach_field(&mut self, grey: &Grey, field: u32, out: &mut Vec<Reached>)
        requires tracing { TracerHolds self.old
            (λ p es v. IsNextField p v grey.now field × (v.won ≡ [])) }
        requires room { vec_len out.old < vec_capacity out.old }
        ensures scans { (p : Setup) (es : List Event) (v : View) → Tracks p es self.old v
            → IsNextField p v grey.now field → v.won ≡ []
            → ScansField p es v self.new grey.now field (map (grey_of p) out.old.items)
            (map (grey_of p) out.new.items) }
        ensures more { vec_len out.new ≤ vec_len out.old + 1 }
        ensures capacity { vec_capacity out.new ≡ vec_capacity out.old }
        ensures keeps { KeepsRun self.old self.new }
    {
        let at = grey.target as usize + HEADER_WORDS as usize + field as usize;
        let reference = self.row.words.get(at) as u32;
        let last = self.reach(reference, out);
        if last != reference {
            self.store(at, last);
        }
    }

    /// Sets a global, as `trace_global`, and claims as `reach_fields` does.
    ///
    /// It takes no memory: `out` has room for one token.
    pub fn reach_global(&mut self, root: GlobalRoot, out: &mut Vec<Reached>)
        requires tracing { TracerHolds self.old
            (λ p es v. (0 < times root.global v.unset) × (v.won ≡ [])) }
        requires room { vec_len out.old < vec_capacity out.old }
        ensures sets { (p : Setup) (es : List Event) (v : View) → Tracks p es self.old v
            → 0 < times root.global v.unset → v.won ≡ []
            → SetsGlobal p es v self.new root.global (map (grey_of p) out.old.items)
            (map (grey_of p) out.new.items) }
        ensures capacity { vec_capacity out.new ≡ vec_capacity out.old }
        ensures keeps { KeepsRun self.old self.new }
    {
        let at = self.row.layout.global_at(root.global) as usize;
        let reference = self.row.words.get(at) as u32;
        let last = self.reach(reference, out);
        if last != reference {
            self.store(at, last);
        }
    }

    /// The last value of a field or global: the target of what it refers to, or nil. Claims and
    /// copies that object, and pushes its token if nothing claimed it before.
    fn reach(&mut self, reference: u32, out: &mut Vec<Reached>) -> u32
        requires tracing { TracerHolds self.old
            (λ p es v. IsReferred reference p es v × (v.won ≡ [])) }
        requires room { vec_len out.old < vec_capacity out.old }
        ensures reaches { (p : Setup) (es : List Event) (v : View) (cause : ClaimCause)
            → Tracks p es self.old v → IsReferred reference p es v → v.won ≡ []
            → IsNoRoot reference cause → IsAskedBy p (machine_after p es) reference cause
            → Forwards p es v self.new reference result cause (map (grey_of p) out.old.items)
            (map (grey_of p) out.new.items) }
        ensures more { vec_len out.new ≤ vec_len out.old + 1 }
        ensures capacity { vec_capacity out.new ≡ vec_capacity out.old }
        ensures keeps { KeepsRun self.old self.new }
    {
        if reference == 0 {
            return 0;
        }
        // Read once: stores to the row do not change it.
        let layout = self.row.layout;
        if self.stays(layout, reference) {
            self.reach_in_place(layout, reference, out);
            return reference;
        }
        match self.claim_object(layout, reference) {
            Claim::Old => reference,
            Claim::Seen(target) => target,
            Claim::Won(won) => {
                let grey = self.copy_with(layout, won);
                let target = grey.at();
                out.push_reserved(grey.reached());
                target
            }
        }
    }

    /// Whether the object at `x` lies in a block whose objects stay.
    fn stays(&self, layout: Layout, x: u32) -> bool
        requires tracing { TracerHolds self.now (WasHeld x) }
        requires layout { layout.blocks ≡ self.now.row.layout.blocks }
        ensures { IsTrue result → (p : Setup) (es : List Event) (v : View)
            → Tracks p es self.now v → IsHeld p.before x → v.won ≡ [] → StaysHere p v x }
    {
        !self.run.from[block_of(&layout, x) as usize]
    }

    /// Claims an object that stays, and pushes its token, if its unlog bit is clear. Its words are
    /// not read, so nothing waits for its cache line.
    fn reach_in_place(&mut self, layout: Layout, x: u32, out: &mut Vec<Reached>)
        requires layout { layout.blocks ≡ self.old.row.layout.blocks }
        requires tracing { TracerHolds self.old (λ p es v. StaysHere p v x) }
        requires some { x ≢ 0 }
        requires room { vec_len out.old < vec_capacity out.old }
        ensures reaches { (p : Setup) (es : List Event) (v : View) (cause : ClaimCause)
            → Tracks p es self.old v → StaysHere p v x → IsNoRoot x cause
            → IsAskedBy p (machine_after p es) x cause
            → Forwards p es v self.new x x cause (map (grey_of p) out.old.items)
            (map (grey_of p) out.new.items) }
        ensures more { vec_len out.new ≤ vec_len out.old + 1 }
        ensures capacity { vec_capacity out.new ≡ vec_capacity out.old }
        ensures keeps { KeepsRun self.old self.new }
    {
        let claimed = self.has_bit(layout, layout.unlog_base(), x);
        if claimed {
            return;
        }
        self.claim_in_place(x);
        self.copy_in_place(layout, x);
        out.push_reserved(Reached {
            object: x,
            target: x,
        });
    }
}
