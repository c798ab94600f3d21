//! What a pool does with a bucket.

ghost use Rattle.std.specs.Prelude.{◌≡◌, ◌<◌, List, [], ◌∷◌, length, All, IfOk};
ghost use Rattle.work_packets.specs.Awaiting.{AwaitsAll, MayAwait};
ghost use Rattle.work_packets.specs.Packets.{HasItems, HaveHome};
ghost use Rattle.work_packets.specs.Steps.{Step, RunsBucket};
ghost use Rattle.pools.specs.declared.pool.Style.TheVariants as styles;

use std::alloc::AllocError;
use std::thread::Threads;
use steal_pool::run_steal;
use work_packets::{Bucket, Gate, Packet, PacketWorker, run_alone as run_by_one, run_plain_split};

/// How the packets of a bucket come to the workers.
#[derive(Clone, Copy, Debug, PartialEq, Eq)]
pub enum Style {
    /// The first packets are dealt, and each worker runs its own and all that it pushes.
    Plain,
    /// As `Plain`, and a worker that has none left steals from the others.
    Steal,
}

/// Runs the packets of a collection, bucket by bucket.
pub trait Pool {
    /// How this pool runs buckets.
    fn style(&self) -> Style;

    /// Called with each bucket before it is run. It may count, and changes nothing that contracts
    /// describe.
    fn note(&self, b: Bucket);

    /// Runs a bucket from its first packets on, with all that the workers push for it. At Ok it
    /// hands back the workers, in order, and the packets for later buckets. Where memory runs out
    /// workers and packets are given up.
    final fn run_bucket<T: Send + Drop, W: PacketWorker<T>, G: Gate, R: Threads + Sync>(
        &self,
        rt: &R,
        b: Bucket,
        workers: Vec<W>,
        first: Vec<Packet<T>>,
        gate: &G,
    ) -> Result<(Vec<W>, Vec<Packet<T>>), AllocError>
        requires some { 0 < length workers.items }
        requires bucket { All (λ p. p.bucket ≡ b) first.items }
        requires items { All HasItems first.items }
        requires takes { (h : W.Home) × HaveHome W.home h workers.items
            × All (W.takes h) first.items }
        requires awaits { MayAwait W.awaits workers.items first.items }
        ensures home { IfOk result (λ r. (h : W.Home) → HaveHome W.home h workers.items
            → HaveHome W.home h r.0.items) }
        ensures items { IfOk result (λ r. All HasItems r.1.items) }
        ensures takes { IfOk result (λ r. (h : W.Home) → HaveHome W.home h workers.items
            → All (W.takes h) r.1.items) }
        ensures once { IfOk result (λ r. (logs : List (List (Step W T)))
            × RunsBucket W.steps (record {
              bucket = b;
              before = workers.items;
              first = first.items;
              logs = logs;
              after = r.0.items;
              later = r.1.items;
            })) }
        ensures awaits { IfOk result (λ r. (start : W.Start) (w : W) → workers.items ≡ w ∷ []
            → AwaitsAll W.awaits start w first.items
            → (v : W) × (r.0.items ≡ v ∷ []) × AwaitsAll W.awaits start v r.1.items) }
    {
        self.note(b);
        match self.style() {
            Style::Plain => run_plain_split(rt, b, workers, first, gate),
            Style::Steal => run_steal(rt, b, workers, first, gate),
        }
    }

    /// Runs a bucket as `run_bucket` does, by one worker and in the caller's thread. All styles are
    /// one then.
    final fn run_alone<T: Drop, W: PacketWorker<T>, G: Gate>(
        &self,
        b: Bucket,
        worker: W,
        first: Vec<Packet<T>>,
        gate: &G,
    ) -> Result<(W, Vec<Packet<T>>), AllocError>
        requires bucket { All (λ p. p.bucket ≡ b) first.items }
        requires items { All HasItems first.items }
        requires takes { All (W.takes (W.home worker)) first.items }
        requires awaits { (start : W.Start) × AwaitsAll W.awaits start worker first.items }
        ensures home { IfOk result (λ r. W.home r.0 ≡ W.home worker) }
        ensures items { IfOk result (λ r. All HasItems r.1.items) }
        ensures takes { IfOk result (λ r. All (W.takes (W.home worker)) r.1.items) }
        ensures once { IfOk result (λ r. (logs : List (List (Step W T)))
            × RunsBucket W.steps (record {
              bucket = b;
              before = worker ∷ [];
              first = first.items;
              logs = logs;
              after = r.0 ∷ [];
              later = r.1.items;
            })) }
        ensures awaits { IfOk result (λ r. (start : W.Start)
            → AwaitsAll W.awaits start worker first.items
            → AwaitsAll W.awaits start r.0 r.1.items) }
    {
        self.note(b);
        run_by_one(b, worker, first, gate)
    }
}

/// The pool that deals the first packets evenly, and lets each worker run its own to the end.
#[derive(Clone, Copy, Debug)]
pub struct PlainPool;

impl Pool for PlainPool {
    fn style(&self) -> Style
        ensures { result ≡ styles.Plain }
    {
        Style::Plain
    }

    fn note(&self, _b: Bucket) {}
}

/// The pool whose workers steal packets from one another.
#[derive(Clone, Copy, Debug)]
pub struct StealPool;

impl Pool for StealPool {
    fn style(&self) -> Style
        ensures { result ≡ styles.Steal }
    {
        Style::Steal
    }

    fn note(&self, _b: Bucket) {}
}
