//! A tracer that serves item by item.
//! The worker (`worker.rt`) calls `serve` for each item of a packet, and `hand_on` after the last.
//! `serve` writes `roots` and adds to `won`. `hand_on` takes `won` apart: as a token leaves it,
//! `tally` counts its object, so the two change together. `spare` holds lists between packets.
//! Never writes a word of the row, which is the tracer's.

ghost use Rattle.std.specs.Prelude.{◌≡◌, ◌∷◌, ◌++◌, ◌≤◌, ◌<◌, [], List, All, IfOk, length, map, vec_capacity};
ghost use Rattle.std.specs.List.Sorted.{IsPermutation};
ghost use Rattle.collector.specs.Prelude.{HasItems, MAX_ITEMS, Setup, Event, View, one_if, IsReached, grey_of, Tracks, TracerHolds, Grey, Reached, items_of, tokens_of, IsObject, HasRights, ServesItems, AreShaped, Counts, has_moved};
ghost use Rattle.collector.specs.Prelude.buckets;
ghost use Rattle.collector.specs.Prelude.items;

use crate::item::Item;
use crate::tally::{add, known};
use plain_tracer::{Claim, Grey, PlainTrace, Reached};
use racing_collector::Tally;
use std::alloc::AllocError;
use std::mem;
use work_packets::{Bucket, MAX_ITEMS, Packet};

/// A tracer for one worker, the roots and its counts.
#[derive(Debug, Drop)]
pub struct PacketTracer {
    pub(crate) tracer: PlainTrace,
    // Each root, or its target once it is served.
    pub(crate) roots: Vec<u32>,
    // Of the objects whose tokens were handed on.
    pub(crate) tally: Tally,
    // The tokens that were won and are not handed on yet. Shapes are read as they are handed on,
    // when the words of their objects have come.
    pub(crate) won: Vec<Reached>,
    // Lists of items, to be filled again.
    pub(crate) spare: Vec<Vec<Item>>,
}

impl PacketTracer {
    /// Serves an item. The tokens of the objects that it copied are added to those that were won.
    ///
    /// Fails if memory runs out.
    pub(crate) fn serve(&mut self, item: Item) -> Result<(), AllocError>
        requires { TracerHolds self.old.tracer
            (λ p es v. HasRights p v self.old.roots.items (item ∷ [])) }
        ensures serves { IfOk result (λ _. (p : Setup) (es : List Event) (v : View)
            → Tracks p es self.old.tracer v → HasRights p v self.old.roots.items (item ∷ [])
            → (pushed : List Grey)
            × (map (grey_of p) self.new.won.items ≡ map (grey_of p) self.old.won.items ++ pushed)
            × ServesItems p es v self.old.tracer self.old.roots.items (item ∷ [])
            self.new.tracer self.new.roots.items pushed) }
        ensures tally { IfOk result (λ _. self.new.tally ≡ self.old.tally) }
    {
        match item {
            Item::Register(place) => self.serve_root(place),
            Item::Global(root) => {
                self.won.reserve(1)?;
                self.tracer.reach_global(root, &mut self.won);
                Ok(())
            }
            Item::Object(grey) => {
                self.won.reserve(grey.refs() as usize)?;
                self.tracer.reach_fields(grey, &mut self.won);
                Ok(())
            }
        }
    }

    /// Replaces the root at a place by its target.
    fn serve_root(&mut self, place: u32) -> Result<(), AllocError>
        requires { TracerHolds self.old.tracer
            (λ p es v. HasRights p v self.old.roots.items (items.Register place ∷ [])) }
        ensures serves { IfOk result (λ _. (p : Setup) (es : List Event) (v : View)
            → Tracks p es self.old.tracer v
            → HasRights p v self.old.roots.items (items.Register place ∷ [])
            → (pushed : List Grey)
            × (map (grey_of p) self.new.won.items ≡ map (grey_of p) self.old.won.items ++ pushed)
            × ServesItems p es v self.old.tracer self.old.roots.items (items.Register place ∷ [])
            self.new.tracer self.new.roots.items pushed) }
        ensures tally { IfOk result (λ _. self.new.tally ≡ self.old.tally) }
    {
        let root = self.roots[place as usize];
        if root == 0 {
            return Ok(());
        }
        match self.tracer.claim(root) {
            Claim::Old => {}
            Claim::Seen(target) => self.roots[place as usize] = target,
            Claim::Won(won) => {
                let grey = self.tracer.copy(won);
                self.roots[place as usize] = grey.at();
                self.won.push(grey.reached())?;
            }
        }
        Ok(())
    }

    /// Hands on the tokens that were won, in packets of at most 64, and counts their objects.
    ///
    /// Fails if memory runs out.
    pub(crate) fn hand_on(&mut self, pushed: &mut Vec<Packet<Item>>) -> Result<(), AllocError>
        requires none { pushed.old.items ≡ [] }
        requires tracing { TracerHolds self.old.tracer
            (λ p es v. All (IsReached p v) self.old.won.items) }
        ensures tokens { IfOk result (λ _. (greys : List Grey)
            × AreShaped self.old.tracer self.old.won.items greys
            × IsPermutation greys (tokens_of (items_of pushed.new.items))
            × Counts self.old.tally self.new.tally greys) }
        ensures objects { IfOk result (λ _. All IsObject (items_of pushed.new.items)) }
        ensures bucket { IfOk result
            (λ _. All (λ q. q.bucket ≡ buckets.Closure) pushed.new.items) }
        ensures sizes { IfOk result (λ _. All HasItems pushed.new.items) }
        ensures few { IfOk result
            (λ _. length pushed.new.items ≤ length self.old.won.items) }
        ensures none { IfOk result (λ _. self.new.won.items ≡ []) }
        ensures tracer { IfOk result (λ _. self.new.tracer ≡ self.old.tracer) }
        ensures roots { IfOk result (λ _. self.new.roots ≡ self.old.roots) }
    {
        // Counting no token leaves each count, since it fits its type.
        known(self.tally);
        while !self.won.is_empty() {
            let packet = self.next_packet()?;
            pushed.push(packet)?;
        }
        Ok(())
    }

    /// The next packet of tokens that were won.
    fn next_packet(&mut self) -> Result<Packet<Item>, AllocError>
        requires some { 0 < length self.old.won.items }
        requires tracing { TracerHolds self.old.tracer
            (λ p es v. All (IsReached p v) self.old.won.items) }
        ensures tokens { IfOk result (λ q. (handed : List Reached)
            × (self.old.won.items ≡ self.new.won.items ++ handed)
            × (greys : List Grey) × AreShaped self.old.tracer handed greys
            × IsPermutation greys (tokens_of q.items.items)
            × Counts self.old.tally self.new.tally greys) }
        ensures objects { IfOk result (λ q. All IsObject q.items.items) }
        ensures bucket { IfOk result (λ q. q.bucket ≡ buckets.Closure) }
        ensures sizes { IfOk result (λ q. HasItems q) }
        ensures tracer { IfOk result (λ _. self.new.tracer ≡ self.old.tracer) }
        ensures roots { IfOk result (λ _. self.new.roots ≡ self.old.roots) }
    {
        let alloc = *self.won.allocator();
        let mut items = match self.spare.pop() {
            Some(items) => items,
            None => Vec::with_capacity(alloc, MAX_ITEMS)?,
        };
        items.clear();
        items.reserve(MAX_ITEMS)?;
        // In locals, which the loop keeps in registers.
        let mut won = mem::replace(&mut self.won, Vec::new(alloc));
        let mut tally = self.tally;
        fill(&self.tracer, &mut items, &mut won, &mut tally);
        self.won = won;
        self.tally = tally;
        Ok(Packet {
            bucket: Bucket::Closure,
            items,
        })
    }
}

/// Moves tokens that were won to the items of a packet, with the shapes of their objects, and
/// counts these.
fn fill(tracer: &PlainTrace, items: &mut Vec<Item>, won: &mut Vec<Reached>, tally: &mut Tally)
    requires tracing { TracerHolds tracer.now (λ p es v. All (IsReached p v) won.old.items) }
    requires none { items.old.items ≡ [] }
    requires room { MAX_ITEMS ≤ vec_capacity items.old }
    requires some { 0 < length won.old.items }
    ensures tokens { (handed : List Reached) × (won.old.items ≡ won.new.items ++ handed)
        × (greys : List Grey) × AreShaped tracer.now handed greys
        × IsPermutation greys (tokens_of items.new.items)
        × Counts tally.old tally.new greys }
    ensures objects { All IsObject items.new.items }
    ensures some { 1 ≤ length items.new.items }
    ensures few { length items.new.items ≤ MAX_ITEMS }
{
    let mut moved: u32 = 0;
    let mut words: u64 = 0;
    while items.len() < MAX_ITEMS {
        let Some(reached) = won.pop() else {
            break;
        };
        let grey = tracer.grey(reached);
        moved += moves(&grey);
        words += grey.size() as u64;
        items.push_reserved(Item::Object(grey));
    }
    add(tally, items.len() as u32, moved, words);
}

/// 1 if the object leaves its place, else 0.
fn moves(grey: &Grey) -> u32
    ensures { result ≡ one_if (has_moved grey.now) }
{
    grey.has_moved() as u32
}
