//! The plain split of a bucket: its first packets are dealt to the workers, and each worker runs
//! its own and all that it pushes for this bucket.

ghost use Rattle.std.specs.Prelude.{◌≡◌, ◌+◌, ◌<◌, ◌≤◌, min, max, List, [], ◌∷◌, ◌++◌, length, All, IfOk, map, Ok};
ghost use Rattle.std.specs.List.{flat_map};
ghost use Rattle.std.specs.List.Sorted.{IsPermutation};
ghost use Rattle.std.specs.Thread.{IsSync, IsSend};
ghost use Rattle.work_packets.specs.Awaiting.{AwaitsAll, MayAwait};
ghost use Rattle.work_packets.specs.Buckets.{IsSameOrLater};
ghost use Rattle.work_packets.specs.Packets.{HasItems, HaveHome, packets_of, packets_after};
ghost use Rattle.work_packets.specs.Steps.{Step, RunsBucket};
ghost use Rattle.work_packets.specs.Shares.{IsRunnable, Finishes};
ghost use Rattle.work_packets.specs.declared.packet.Packet.{Packet};
ghost use Rattle.work_packets.specs.declared.plain_split.Finished.{Finished};

use crate::gate::{Gate, Point};
use crate::packet::{Bucket, Packet};
use crate::share::{Share, deal};
use crate::threads::map_in_threads;
use crate::worker::PacketWorker;
use std::alloc::AllocError;
use std::thread::Threads;

/// A worker that has run its share, and the packets that it pushed for later buckets.
#[derive(Debug, Drop)]
struct Finished<T, W> {
    worker: W,
    later: Vec<Packet<T>>,
}

/// Moves the pushed packets of this bucket to `todo`, and those of later ones to `later`.
fn sort_out<T: Drop>(
    b: Bucket,
    pushed: &mut Vec<Packet<T>>,
    todo: &mut Vec<Packet<T>>,
    later: &mut Vec<Packet<T>>,
) -> Result<(), AllocError>
    requires { All (λ p. IsSameOrLater b p.bucket) pushed.old.items }
    ensures empty { IfOk result (λ _. pushed.new.items ≡ []) }
    ensures todo { IfOk result (λ _. IsPermutation
        (todo.old.items ++ packets_of b pushed.old.items) todo.new.items) }
    ensures later { IfOk result (λ _. IsPermutation
        (later.old.items ++ packets_after b pushed.old.items) later.new.items) }
    ensures few { IfOk result
        (λ _. length todo.new.items ≤ length todo.old.items + length pushed.old.items) }
{
    while let Some(p) = pushed.pop() {
        if p.bucket == b {
            todo.push(p)?;
        } else {
            later.push(p)?;
        }
    }
    Ok(())
}

/// Runs the packets of a share, and all of its bucket that are pushed meanwhile.
fn run_share<T: Drop, W: PacketWorker<T>, G: Gate>(
    b: Bucket,
    gate: &G,
    share: Share<T, W>,
) -> Result<Finished<T, W>, AllocError>
    requires { IsRunnable W.home W.takes W.awaits b share }
    ensures { IfOk result (λ f. Finishes W.home W.takes W.awaits b W.steps share f) }
{
    let Share {
        number,
        mut worker,
        packets: mut todo,
    } = share;
    let who = number.saturating_add(16);
    let alloc = *todo.allocator();
    let mut later = Vec::new(alloc);
    let mut pushed = Vec::new(alloc);
    while let Some(p) = todo.pop() {
        gate.pass(who, Point::Packet);
        worker.run(p, &mut pushed)?;
        sort_out(b, &mut pushed, &mut todo, &mut later)?;
    }
    Ok(Finished { worker, later })
}

/// The workers in order, and all that they pushed for later buckets.
fn gather<T: Drop, W: Drop>(
    results: Vec<Result<Finished<T, W>, AllocError>>,
) -> Result<(Vec<W>, Vec<Packet<T>>), AllocError>
    ensures { IfOk result (λ r. (fs : List (Finished T W))
        × (results.items ≡ map (λ f. Ok f) fs)
        × (r.0.items ≡ map (λ f. f.worker) fs)
        × (r.1.items ≡ flat_map (λ f. f.later.items) fs)) }
{
    let alloc = *results.allocator();
    let mut workers = Vec::new(alloc);
    let mut packets = Vec::new(alloc);
    for result in results {
        let Finished { worker, mut later } = result?;
        workers.push(worker)?;
        packets.append(&mut later)?;
    }
    Ok((workers, packets))
}

/// The workers that get packets: one for each packet, but one at least and all of them at most.
fn busy_count(workers: usize, packets: usize) -> usize
    ensures { result ≡ min workers (max 1 packets) }
{
    workers.min(packets.max(1))
}

/// Runs a bucket from its first packets on, and hands back the workers and the packets for later
/// buckets. The first packets are dealt evenly, and each worker runs its own and all that it pushes
/// for this bucket. Several workers run in threads of their own while the caller waits; it does the
/// work of one alone, and of those for which no thread can be started. A worker that gets no packet
/// has no thread.
pub fn run_plain_split<T: Send + Drop, W: PacketWorker<T>, G: Gate, R: Threads + Sync>(
    rt: &R,
    b: Bucket,
    workers: Vec<W>,
    first: Vec<Packet<T>>,
    gate: &G,
) -> Result<(Vec<W>, Vec<Packet<T>>), AllocError>
    requires some { 0 < length workers.items }
    requires bucket { All (λ p. p.bucket ≡ b) first.items }
    requires items { All HasItems first.items }
    requires takes { (h : W.Home) × HaveHome W.home h workers.items
        × All (W.takes h) first.items }
    requires awaits { MayAwait W.awaits workers.items first.items }
    ensures home { IfOk result (λ r. (h : W.Home) → HaveHome W.home h workers.items
        → HaveHome W.home h r.0.items) }
    ensures items { IfOk result (λ r. All HasItems r.1.items) }
    ensures takes { IfOk result (λ r. (h : W.Home) → HaveHome W.home h workers.items
        → All (W.takes h) r.1.items) }
    ensures once { IfOk result (λ r. (logs : List (List (Step W T)))
        × RunsBucket W.steps (record {
          bucket = b;
          before = workers.items;
          first = first.items;
          logs = logs;
          after = r.0.items;
          later = r.1.items;
        })) }
    ensures awaits { IfOk result (λ r. (start : W.Start) (w : W) → workers.items ≡ w ∷ []
        → AwaitsAll W.awaits start w first.items
        → (v : W) × (r.0.items ≡ v ∷ []) × AwaitsAll W.awaits start v r.1.items) }
{
    let busy = busy_count(workers.len(), first.len());
    let mut active = workers;
    let mut idle = active.split_off(busy)?;
    let shares = deal(active, first)?;
    let results = map_in_threads(
        rt,
        shares,
        &|share: Share<T, W>| -> Result<Finished<T, W>, AllocError>
            requires { IsSync G.row × IsSend W.row × IsSend T.row
                × IsRunnable W.home W.takes W.awaits b share }
            ensures { IfOk result
                (λ f. Finishes W.home W.takes W.awaits b W.steps share f) }
        { run_share(b, gate, share) },
    )?;
    let gathered = gather(results)?;
    let (mut all, later) = gathered;
    all.append(&mut idle)?;
    Ok((all, later))
}

/// Runs a bucket as `run_plain_split` does, by one worker and in the caller's thread.
pub fn run_alone<T: Drop, W: PacketWorker<T>, G: Gate>(
    b: Bucket,
    worker: W,
    first: Vec<Packet<T>>,
    gate: &G,
) -> Result<(W, Vec<Packet<T>>), AllocError>
    requires bucket { All (λ p. p.bucket ≡ b) first.items }
    requires items { All HasItems first.items }
    requires takes { All (W.takes (W.home worker)) first.items }
    requires awaits { (start : W.Start) × AwaitsAll W.awaits start worker first.items }
    ensures home { IfOk result (λ r. W.home r.0 ≡ W.home worker) }
    ensures items { IfOk result (λ r. All HasItems r.1.items) }
    ensures takes { IfOk result (λ r. All (W.takes (W.home worker)) r.1.items) }
    ensures once { IfOk result (λ r. (logs : List (List (Step W T)))
        × RunsBucket W.steps (record {
          bucket = b;
          before = worker ∷ [];
          first = first.items;
          logs = logs;
          after = r.0 ∷ [];
          later = r.1.items;
        })) }
    ensures awaits { IfOk result (λ r. (start : W.Start)
        → AwaitsAll W.awaits start worker first.items
        → AwaitsAll W.awaits start r.0 r.1.items) }
{
    let share = Share {
        number: 1,
        worker,
        packets: first,
    };
    let finished = run_share(b, gate, share)?;
    Ok((finished.worker, finished.later))
}
