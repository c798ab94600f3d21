//! From epoch to epoch: the world is closed at a stop, and begun again after it.
//!
//! `stop` takes the world, and `go_on` puts the next one there. In between the heap is lost, and a
//! failure there leaves it so: what the next epoch takes is taken before, by `next_seats`.

ghost use Rattle.std.specs.Prelude.{◌≡◌, ◌+◌, ◌≤◌, ◌<◌, ◌^◌, None, replicate, IfSome, IfOk, MatchResult};
ghost use Rattle.managed_value.specs.Prelude.{empty_seat, IsManaged, IsStopped, stopped_count, IsLost, IsUsable, IsAsBeforeOrLost, collections_made, mutators_of_heap, words_used, CollectsAll, CollectsAtStop, EndsWith, BeginsWith};

use crate::managed::ManagedHeap;
use collector::Note;
use forward_word::NUMBER_BITS;
use managed_heap::{LocalSeat, Parts, PlainWorld, StoppedHeap, new_seats};
use object_model::Collect;
use plan_api::Plan;
use pools::{PlainPool, Pool};
use std::alloc::AllocError;
use std::mem::replace;
use std::thread::Threads;
use work_packets::{Gate, OpenGate};

impl<P: Plan> ManagedHeap<P> {
    /// What the mutators have as the next epoch begins.
    ///
    /// Fails if memory runs out.
    pub(crate) fn next_seats(&self) -> Result<Vec<LocalSeat>, AllocError>
        ensures { IfOk result (λ v.
            v.items ≡ replicate (mutators_of_heap self.now) empty_seat) }
    {
        match &self.world {
            Some(world) => new_seats(self.alloc, world.mutators().len()),
            None => Err(AllocError),
        }
    }

    /// Ends the epoch, and hands on the list that collections use for their roots. Takes no memory.
    pub(crate) fn stop(&mut self) -> Option<StoppedHeap<P>>
        requires usable { IsUsable P.rules self.old }
        ensures lost { self.new ≡ record self.old { world = None; roots = self.new.roots } }
        ensures some { result ≡ None → ⊥ }
        ensures ends { IfSome result (λ s. EndsWith P.rules self.old s) }
        ensures roots { IfSome result (λ s. s.roots ≡ self.old.roots) }
    {
        let world = self.world.take()?;
        let (heap, mutators, notes) = world.close_with();
        let roots = replace(&mut self.roots, Vec::new(self.alloc));
        let parts = Parts {
            heap,
            mutators,
            notes,
            roots,
            nursery: self.nursery,
            full: self.full,
            workers: 1,
        };
        Some(StoppedHeap::from_parts(self.alloc, parts))
    }

    /// Begins an epoch. Takes no memory.
    pub(crate) fn go_on(&mut self, stopped: StoppedHeap<P>, seats: Vec<LocalSeat>)
        requires lost { IsLost self.old }
        requires stopped { IsStopped P.rules stopped }
        requires one { stopped.workers ≡ 1 }
        requires some { 1 ≤ stopped_count stopped }
        requires seats { seats.items ≡ replicate (stopped_count stopped) empty_seat }
        ensures begins { BeginsWith P.rules stopped self.new }
        ensures used { words_used self.new ≡ words_used self.old }
        ensures roots { self.new.roots ≡ stopped.roots }
    {
        let Parts {
            heap,
            mutators,
            notes,
            roots,
            nursery,
            full,
            workers: _,
        } = stopped.into_parts();
        let world = PlainWorld::begin_seated(heap, mutators, notes, seats);
        self.world = Some(world);
        self.roots = roots;
        self.nursery = nursery;
        self.full = full;
    }

    /// Makes a full collection, and returns what it kept. One worker runs its packets in `pool`.
    ///
    /// Fails if memory runs out. The heap is as it was then, or lost in the collection.
    pub fn collect_with<Q: Pool, G: Gate, R: Threads + Sync>(
        &mut self,
        rt: &R,
        pool: &Q,
        gate: &G,
    ) -> Result<Note, AllocError>
        requires plan { IsManaged P.rules }
        requires usable { IsUsable P.rules self.old }
        requires collections { collections_made self.old + 1 < 2 ^ NUMBER_BITS }
        ensures made { MatchResult result (λ note. CollectsAll P.rules self.old note self.new)
            (λ _. IsAsBeforeOrLost P.rules self.old self.new) }
        ensures stop { IfOk result (λ note. CollectsAtStop P.rules self.old note self.new) }
    {
        let seats = self.next_seats()?;
        let Some(stopped) = self.stop() else {
            return Err(AllocError);
        };
        let (stopped, note) = stopped.collect(rt, Collect::Full, pool, gate)?;
        self.words = note.kept_words;
        self.go_on(stopped, seats);
        Ok(note)
    }

    /// Makes a full collection as `collect_with` does, in the caller's thread.
    ///
    /// Fails if memory runs out. The heap is as it was then, or lost in the collection.
    pub fn collect<R: Threads + Sync>(&mut self, rt: &R) -> Result<Note, AllocError>
        requires plan { IsManaged P.rules }
        requires usable { IsUsable P.rules self.old }
        requires collections { collections_made self.old + 1 < 2 ^ NUMBER_BITS }
        ensures made { MatchResult result (λ note. CollectsAll P.rules self.old note self.new)
            (λ _. IsAsBeforeOrLost P.rules self.old self.new) }
        ensures stop { IfOk result (λ note. CollectsAtStop P.rules self.old note self.new) }
    {
        self.collect_with(rt, &PlainPool, &OpenGate)
    }
}
