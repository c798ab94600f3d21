//! Allocation of objects of every size.

ghost use Rattle.std.specs.Prelude.{◌≡◌, ◌↔◌, ◌+◌, ◌-◌, ◌≤◌, ◌<◌, ◌^◌, ◌⊎◌, ⊤, IsTrue, IfOk, IfSome, IfNone, MatchResult};
ghost use Rattle.managed_value.specs.Prelude.{size_of, IsNeedOf, MatchAllocated, capped, IsManaged, reply_of, HeapHasPlace, IsAsBeforeOrLost, IsUsable, heap_births_at, AllocatesInEpoch, FindsNoRoom, RepliesFull, Makes, MatchAnswer, MatchRefused, HeapMayAllocate, RunsOut, RunsOutAtStop, ServesAtStop, StopsFor, kept_by, used_with};
ghost use Rattle.managed_value.specs.Prelude.reply;

use crate::managed::ManagedHeap;
use collector::Note;
use forward_word::NUMBER_BITS;
use ideal_heap::{MAX_NUMS, MAX_REFS, Name, REGISTERS};
use managed_heap::{Placed, Scheduler};
use mutator_calls::{Allocated, Need, NeedCause};
use object_model::{Shape, size_words};
use plan_api::Plan;
use pools::{PlainPool, Pool};
use std::alloc::AllocError;
use std::thread::Threads;
use work_packets::{Gate, OpenGate};

/// The most collections of a heap, so that an allocation may make two more.
const MAX_COLLECTIONS: u64 = (1 << NUMBER_BITS) - 3;

/// Why an object was not allocated.
#[derive(Clone, Copy, Debug, PartialEq, Eq)]
pub enum Refused {
    /// After a full collection in this call there is no room for the object.
    Full,
    /// The host's memory ran out at a stop. The heap is as it was, or lost in a collection.
    OutOfMemory,
}

/// Whether two collections may follow so many nursery and full ones.
fn may_collect_twice(nursery: u64, full: u64) -> bool
    ensures { IsTrue result ↔ nursery + full + 2 < 2 ^ NUMBER_BITS }
{
    if nursery > MAX_COLLECTIONS {
        return false;
    }
    full <= MAX_COLLECTIONS - nursery
}

/// The words in use with an object of `size` words more, if they are not too many to be counted.
fn add_words(words: u64, size: u32) -> u64
    ensures { result ≡ capped (2 ^ 64 - 1) (words + size) }
{
    words.saturating_add(u64::from(size))
}

/// The words in use after the last collection, if one was made.
fn kept_words(words: u64, note: &Option<Note>) -> u64
    ensures { result ≡ kept_by note.now words }
{
    match note {
        Some(note) => note.kept_words,
        None => words,
    }
}

/// The words in use after a need of `size` words was served.
fn count_words(words: u64, placed: &Placed, size: u32) -> u64
    ensures { result ≡ used_with placed.now size words }
{
    match *placed {
        Placed::Placed(_) => add_words(words, size),
        Placed::HeapFull { .. } => words,
    }
}

impl<P: Plan> ManagedHeap<P> {
    /// The number of objects that the mutator at place `m` has allocated.
    pub fn births(&self, m: u32) -> u32
        requires usable { IsUsable P.rules self.now }
        requires place { HeapHasPlace self.now m }
        ensures { result ≡ heap_births_at self.now m }
    {
        match &self.world {
            Some(world) => world.births(m),
            None => 0,
        }
    }

    /// Whether the mutator at place `m` may allocate: it has fewer than 4,294,967,295 births, and
    /// the heap has had few enough collections for two more.
    pub fn may_allocate(&self, m: u32) -> bool
        requires usable { IsUsable P.rules self.now }
        requires place { HeapHasPlace self.now m }
        ensures { IsTrue result ↔ HeapMayAllocate self.now m }
    {
        if !may_collect_twice(self.nursery, self.full) {
            return false;
        }
        self.births(m) < u32::MAX
    }

    /// Allocates an object of `refs` nil references and `nums` zeros, into register `d` of the
    /// mutator at place `m`, if the epoch has room for it. Makes no collection, takes no memory.
    ///
    /// The answer is `None` if it has none, or if the object is large.
    pub fn new_object(&mut self, m: u32, d: u32, refs: u32, nums: u32) -> Option<Name>
        requires usable { IsUsable P.rules self.old }
        requires place { HeapHasPlace self.old m }
        requires register { d < REGISTERS }
        requires refs { refs ≤ MAX_REFS }
        requires nums { nums ≤ MAX_NUMS }
        requires births { heap_births_at self.old m + 1 < 2 ^ 32 }
        ensures made { IfSome result (λ n. Makes P.rules self.old m d refs nums n self.new) }
        ensures epoch { IfSome result (λ n. AllocatesInEpoch self.old m d refs nums n self.new) }
        ensures none { IfNone result (FindsNoRoom P.rules self.old m (size_of refs nums) self.new) }
    {
        match self.try_new(m, d, refs, nums) {
            Allocated::Made(name) => Some(name),
            Allocated::Stop(_) => None,
        }
    }

    /// Allocates an object if the epoch has room for it, else says what a stop is to serve.
    #[inline(always)]
    fn try_new(&mut self, m: u32, d: u32, refs: u32, nums: u32) -> Allocated
        requires usable { IsUsable P.rules self.old }
        requires place { HeapHasPlace self.old m }
        requires register { d < REGISTERS }
        requires refs { refs ≤ MAX_REFS }
        requires nums { nums ≤ MAX_NUMS }
        requires births { heap_births_at self.old m + 1 < 2 ^ 32 }
        ensures made { MatchAllocated result (λ n. Makes P.rules self.old m d refs nums n self.new)
            (λ need. FindsNoRoom P.rules self.old m (size_of refs nums) self.new) }
        ensures epoch { MatchAllocated result
            (λ n. AllocatesInEpoch self.old m d refs nums n self.new) (λ need. ⊤) }
        ensures need { MatchAllocated result (λ n. ⊤) (IsNeedOf d refs nums) }
    {
        let Some(world) = &mut self.world else {
            // The heap is not lost.
            return Allocated::Stop(Need {
                register: d,
                refs,
                nums,
                cause: NeedCause::Large,
            });
        };
        match world.new_object(m, d, refs, nums) {
            Allocated::Made(name) => {
                let size = size_words(&Shape { refs, nums });
                self.words = add_words(self.words, size);
                Allocated::Made(name)
            }
            Allocated::Stop(need) => Allocated::Stop(need),
        }
    }

    /// Allocates an object of `refs` nil references and `nums` zeros, into register `d` of the
    /// mutator at place `m`. What the epoch cannot give is placed at a stop: without a collection
    /// if it fits, else after those that the plan asks for, of which the last is a full one. One
    /// worker runs their packets in `pool`.
    ///
    /// Fails if the heap is full then, or if memory runs out.
    pub fn new_or_collect_with<Q: Pool, G: Gate, R: Threads + Sync>(
        &mut self,
        rt: &R,
        m: u32,
        d: u32,
        refs: u32,
        nums: u32,
        pool: &Q,
        gate: &G,
    ) -> Result<Name, Refused>
        requires plan { IsManaged P.rules }
        requires usable { IsUsable P.rules self.old }
        requires place { HeapHasPlace self.old m }
        requires register { d < REGISTERS }
        requires refs { refs ≤ MAX_REFS }
        requires nums { nums ≤ MAX_NUMS }
        requires may { HeapMayAllocate self.old m }
        ensures made { MatchResult result (λ n. Makes P.rules self.old m d refs nums n self.new)
            (MatchRefused (RepliesFull P.rules self.old m d refs nums self.new)
            (IsAsBeforeOrLost P.rules self.old self.new)) }
        ensures stop { MatchResult result (λ n. AllocatesInEpoch self.old m d refs nums n self.new
            ⊎ StopsFor P.rules self.old m d refs nums (reply.New n) self.new)
            (MatchRefused (StopsFor P.rules self.old m d refs nums reply.Full self.new)
            (RunsOut P.rules self.old m refs nums self.new)) }
    {
        match self.try_new(m, d, refs, nums) {
            Allocated::Made(name) => Ok(name),
            Allocated::Stop(need) => self.place_at_stop(&Scheduler { rt, pool, gate }, m, need),
        }
    }

    /// Allocates an object as `new_or_collect_with` does. Collections are made in the caller's
    /// thread.
    ///
    /// Fails if the heap is full after a full collection, or if memory runs out.
    pub fn new_or_collect<R: Threads + Sync>(
        &mut self,
        rt: &R,
        m: u32,
        d: u32,
        refs: u32,
        nums: u32,
    ) -> Result<Name, Refused>
        requires plan { IsManaged P.rules }
        requires usable { IsUsable P.rules self.old }
        requires place { HeapHasPlace self.old m }
        requires register { d < REGISTERS }
        requires refs { refs ≤ MAX_REFS }
        requires nums { nums ≤ MAX_NUMS }
        requires may { HeapMayAllocate self.old m }
        ensures made { MatchResult result (λ n. Makes P.rules self.old m d refs nums n self.new)
            (MatchRefused (RepliesFull P.rules self.old m d refs nums self.new)
            (IsAsBeforeOrLost P.rules self.old self.new)) }
        ensures stop { MatchResult result (λ n. AllocatesInEpoch self.old m d refs nums n self.new
            ⊎ StopsFor P.rules self.old m d refs nums (reply.New n) self.new)
            (MatchRefused (StopsFor P.rules self.old m d refs nums reply.Full self.new)
            (RunsOut P.rules self.old m refs nums self.new)) }
    {
        self.new_or_collect_with(rt, m, d, refs, nums, &PlainPool, &OpenGate)
    }

    /// Serves a need of the mutator at place `m` at a stop.
    fn place_at_stop<Q: Pool, G: Gate, R: Threads + Sync>(
        &mut self,
        scheduler: &Scheduler<'_, R, Q, G>,
        m: u32,
        need: Need,
    ) -> Result<Name, Refused>
        requires plan { IsManaged P.rules }
        requires usable { IsUsable P.rules self.old }
        requires place { HeapHasPlace self.old m }
        requires register { need.register < REGISTERS }
        requires refs { need.refs ≤ MAX_REFS }
        requires nums { need.nums ≤ MAX_NUMS }
        requires may { HeapMayAllocate self.old m }
        ensures made { MatchResult result
            (λ n. Makes P.rules self.old m need.register need.refs need.nums n self.new)
            (MatchRefused
            (RepliesFull P.rules self.old m need.register need.refs need.nums self.new)
            (RunsOutAtStop P.rules self.old (size_of need.refs need.nums) self.new)) }
        ensures stop { MatchResult result (λ n. ServesAtStop P.rules self.old m need.register
            need.refs need.nums (reply.New n) self.new)
            (MatchRefused (ServesAtStop P.rules self.old m need.register need.refs need.nums
            reply.Full self.new) ⊤) }
    {
        match self.serve(scheduler, m, need) {
            Ok(Placed::Placed(name)) => Ok(name),
            Ok(Placed::HeapFull { .. }) => Err(Refused::Full),
            Err(_) => Err(Refused::OutOfMemory),
        }
    }

    /// Ends the epoch, serves a need of the mutator at place `m`, and begins the next epoch.
    ///
    /// Fails if memory runs out. The heap is as it was then, or lost in a collection.
    fn serve<Q: Pool, G: Gate, R: Threads + Sync>(
        &mut self,
        scheduler: &Scheduler<'_, R, Q, G>,
        m: u32,
        need: Need,
    ) -> Result<Placed, AllocError>
        requires plan { IsManaged P.rules }
        requires usable { IsUsable P.rules self.old }
        requires place { HeapHasPlace self.old m }
        requires register { need.register < REGISTERS }
        requires refs { need.refs ≤ MAX_REFS }
        requires nums { need.nums ≤ MAX_NUMS }
        requires may { HeapMayAllocate self.old m }
        ensures made { MatchResult result (MatchAnswer
            (λ n. Makes P.rules self.old m need.register need.refs need.nums n self.new)
            (RepliesFull P.rules self.old m need.register need.refs need.nums self.new))
            (λ _. RunsOutAtStop P.rules self.old (size_of need.refs need.nums) self.new) }
        ensures stop { IfOk result (λ what. ServesAtStop P.rules self.old m need.register need.refs
            need.nums (reply_of what) self.new) }
    {
        let size = size_words(&Shape {
            refs: need.refs,
            nums: need.nums,
        });
        let seats = self.next_seats()?;
        let Some(stopped) = self.stop() else {
            return Err(AllocError);
        };
        let Scheduler { rt, pool, gate } = *scheduler;
        let (stopped, placed, note) = stopped.place_or_collect(rt, m + 1, need, pool, gate, true)?;
        self.words = count_words(kept_words(self.words, &note), &placed, size);
        self.go_on(stopped, seats);
        Ok(placed)
    }
}
