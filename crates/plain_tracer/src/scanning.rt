//! The plain body of scans, with the calls of the literature: claim, copy, store, object by object.
//! No program calls it: `reaching.rt` does the same faster. Tests call both, beside plain counts.
//! Writes fields and globals, and by claims and copies what those write.
//! What a scan must do changes here and in `reaching.rt` together (`ScansFields`, `SetsGlobal`).
//! Never claims an object by its unlog bit.

ghost use Rattle.std.specs.Prelude.{◌≡◌, ◌+◌, ◌<◌, ◌≤◌, ℕ, List, IsTrue, false, length, slice_set, vec_len, vec_capacity};
ghost use Rattle.plain_tracer.specs.Prelude.{bit_of, LineWords, TouchesLine, Setup, blocks, Event, ClaimCause, IsAskedBy, machine_after, View, times, IsGrey, Tracks, TracerHolds, Forwards, ScansField, ScansFields, SetsGlobal, ChangesWords, KeepsRun, IsReferred, IsNoRoot, IsNextField};

use crate::plain_trace::PlainTrace;
use crate::tokens::{Claim, GlobalRoot, Grey};
use object_model::HEADER_WORDS;

impl PlainTrace {
    /// Scans the fields of an object: claims what each refers to, copies what it won and pushes its
    /// token, and stores the target into the field. Marks the object's lines if the run marks
    /// lines.
    ///
    /// It takes no memory: `out` has room for as many tokens as the object has references.
    pub fn scan_object(&mut self, grey: Grey, out: &mut Vec<Grey>)
        requires tracing { TracerHolds self.old (λ p es v. IsGrey p v grey) }
        requires room { vec_len out.old + grey.refs ≤ vec_capacity out.old }
        ensures scans { (p : Setup) (es : List Event) (v : View) → Tracks p es self.old v
            → IsGrey p v grey
            → ScansFields p es v self.new self.old.run.lines grey grey.refs out.old.items
            out.new.items }
        ensures lines { IsTrue self.old.run.lines → (p : Setup) (es : List Event) (v : View)
            → Tracks p es self.old v → IsGrey p v grey → (k : ℕ)
            → TouchesLine (blocks p) grey.target grey.size k
            → IsTrue (bit_of (blocks p) LineWords self.new.row.words k) }
        ensures capacity { vec_capacity out.new ≡ vec_capacity out.old }
        ensures keeps { KeepsRun self.old self.new }
    {
        let lines = self.run.lines;
        self.scan_fields(&grey, out);
        if lines {
            self.mark_lines(&grey);
        }
    }

    /// Scans the fields of an object.
    fn scan_fields(&mut self, grey: &Grey, out: &mut Vec<Grey>)
        requires tracing { TracerHolds self.old (λ p es v. IsGrey p v grey.now) }
        requires room { vec_len out.old + grey.now.refs ≤ vec_capacity out.old }
        ensures scans { (p : Setup) (es : List Event) (v : View) → Tracks p es self.old v
            → IsGrey p v grey.now
            → ScansFields p es v self.new false grey.now grey.now.refs out.old.items
            out.new.items }
        ensures capacity { vec_capacity out.new ≡ vec_capacity out.old }
        ensures keeps { KeepsRun self.old self.new }
    {
        for field in 0..grey.refs {
            self.scan_field(grey, field, out);
        }
    }

    /// Scans one field of an object, whose earlier fields are scanned. A field whose reference
    /// stays is not written, so its cache line stays clean.
    fn scan_field(&mut self, grey: &Grey, field: u32, out: &mut Vec<Grey>)
        requires tracing { TracerHolds self.old (λ p es v. IsNextField p v grey.now field) }
        requires room { vec_len out.old < vec_capacity out.old }
        ensures scans { (p : Setup) (es : List Event) (v : View) → Tracks p es self.old v
            → IsNextField p v grey.now field
            → ScansField p es v self.new grey.now field out.old.items out.new.items }
        ensures capacity { vec_capacity out.new ≡ vec_capacity out.old }
        ensures keeps { KeepsRun self.old self.new }
    {
        let at = grey.target as usize + HEADER_WORDS as usize + field as usize;
        let reference = self.row.words.get(at) as u32;
        let last = self.follow(reference, out);
        if last != reference {
            self.store(at, last);
        }
    }

    /// Sets a global: claims what it refers to, copies that and pushes its token if it won, and
    /// stores the target into the global.
    ///
    /// It takes no memory: `out` has room for one token.
    pub fn trace_global(&mut self, root: GlobalRoot, out: &mut Vec<Grey>)
        requires tracing { TracerHolds self.old (λ p es v. 0 < times root.global v.unset) }
        requires room { vec_len out.old < vec_capacity out.old }
        ensures sets { (p : Setup) (es : List Event) (v : View) → Tracks p es self.old v
            → 0 < times root.global v.unset
            → SetsGlobal p es v self.new root.global out.old.items out.new.items }
        ensures capacity { vec_capacity out.new ≡ vec_capacity out.old }
        ensures keeps { KeepsRun self.old self.new }
    {
        let at = self.row.layout.global_at(root.global) as usize;
        let reference = self.row.words.get(at) as u32;
        let last = self.follow(reference, out);
        if last != reference {
            self.store(at, last);
        }
    }

    /// Stores a word of the row.
    pub(crate) fn store(&mut self, at: usize, value: u32)
        requires { at < length self.old.row.words }
        ensures { ChangesWords self.old self.new (slice_set self.old.row.words at value) }
    {
        self.row.words.set(at, value as u64);
    }

    /// The last value of a field or global: the target of what it refers to, or nil. Claims and
    /// copies that object, and pushes its token if it won.
    fn follow(&mut self, reference: u32, out: &mut Vec<Grey>) -> u32
        requires tracing { TracerHolds self.old (IsReferred reference) }
        requires room { vec_len out.old < vec_capacity out.old }
        ensures follows { (p : Setup) (es : List Event) (v : View) (cause : ClaimCause)
            → Tracks p es self.old v → IsReferred reference p es v → IsNoRoot reference cause
            → IsAskedBy p (machine_after p es) reference cause
            → Forwards p es v self.new reference result cause out.old.items out.new.items }
        ensures capacity { vec_capacity out.new ≡ vec_capacity out.old }
        ensures keeps { KeepsRun self.old self.new }
    {
        if reference == 0 {
            return 0;
        }
        // Read once: stores to the row do not change it.
        let layout = self.row.layout;
        match self.claim_object(layout, reference) {
            Claim::Old => reference,
            Claim::Seen(target) => target,
            Claim::Won(won) => {
                let grey = self.copy_with(layout, won);
                let target = grey.at();
                out.push_reserved(grey);
                target
            }
        }
    }
}
