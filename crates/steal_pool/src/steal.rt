//! The workers of a bucket steal packets from one another.

ghost use Rattle.std.specs.Prelude.{◌≡◌, ◌+◌, ◌<◌, ◌≤◌, List, [], ◌∷◌, ◌++◌, length, All, IfOk, MatchBool, map, Ok};
ghost use Rattle.std.specs.List.{flat_map};
ghost use Rattle.std.specs.List.Sorted.{IsPermutation};
ghost use Rattle.std.specs.Thread.{IsSync, IsSend};
ghost use Rattle.crossbeam_deque.specs.Handles.{worker_view, stealer_deque};
ghost use Rattle.work_packets.specs.Awaiting.{AwaitsAll, MayAwait};
ghost use Rattle.work_packets.specs.Packets.{HasItems, HaveHome};
ghost use Rattle.work_packets.specs.Steps.{Step, RunsBucket};
ghost use Rattle.work_packets.specs.declared.packet.Packet.{Packet};
ghost use Rattle.steal_pool.specs.Ends.{IsOwner, puts, takings};
ghost use Rattle.steal_pool.specs.Seats.{desk_of, HasParts, HasTickets, GoesOnTo, IsServable};
ghost use Rattle.steal_pool.specs.Served.{IsFitting, AwaitsAny, RunsPart};
ghost use Rattle.steal_pool.specs.declared.rule.TheConstants.{PARTS};

use crate::desk::Desk;
use crate::rule::{Fits, Own, Pops};
use crate::seats::{Seat, cut_tickets, open_seats, take_tickets_back};
use crate::serve::serve;
use std::alloc::AllocError;
use std::marker::Brand;
use std::sync::atomic::AtomicU64;
use std::thread::Threads;
use work_packets::{Bucket, Gate, Packet, PacketWorker, deal, map_in_threads, run_plain_split};

/// The most workers that steal from one another.
pub const MAX_WORKERS: usize = 16;

/// What the workers of a bucket leave.
#[derive(Debug, Drop)]
struct Gathered<T, W> {
    workers: Vec<W>,
    rest: Vec<Packet<T>>,
    later: Vec<Packet<T>>,
}

/// All results, if each is Ok.
fn all_ok<T: Drop, W: Drop, K: Fits<T>>(
    results: Vec<Result<Seat<T, W, K>, AllocError>>,
) -> Result<Vec<Seat<T, W, K>>, AllocError>
    ensures { IfOk result (λ seats. results.items ≡ map (λ s. Ok s) seats.items) }
{
    let mut seats = Vec::new(*results.allocator());
    for result in results {
        let seat = result?;
        seats.push(seat)?;
    }
    Ok(seats)
}

/// Takes what is left in the worker's deque.
fn take_rest<T: Drop, K: Fits<T>>(
    own: &mut Own<T, K>,
    rest: &mut Vec<Packet<T>>,
) -> Result<(), AllocError>
    requires owner { IsOwner own.old × ((worker_view own.old).parts ≡ PARTS) }
    requires fit { All K.fits rest.old.items }
    ensures fit { IfOk result (λ _. All K.fits rest.new.items) }
    ensures rest { IfOk result (λ _. (more : List (Packet T))
        × (rest.new.items ≡ rest.old.items ++ more)
        × IsPermutation (puts own.old) (takings own.old ++ more)) }
{
    while let Some(p) = own.pop_as::<Pops<K>>() {
        rest.push(p)?;
    }
    Ok(())
}

/// The workers in order, what is left in their deques, and all that they pushed for later buckets.
fn gather<T: Drop, W: Drop, K: Fits<T>>(
    seats: Vec<Seat<T, W, K>>,
) -> Result<Gathered<T, W>, AllocError>
    requires { All (HasParts PARTS) seats.items }
    ensures workers { IfOk result
        (λ r. r.workers.items ≡ map (λ s. (desk_of s).worker) seats.items) }
    ensures later { IfOk result
        (λ r. r.later.items ≡ flat_map (λ s. (desk_of s).later.items) seats.items) }
    ensures rest { IfOk result (λ r. IsPermutation
        (flat_map (λ s. puts (desk_of s).own) seats.items)
        (flat_map (λ s. takings (desk_of s).own) seats.items ++ r.rest.items)) }
    ensures fit { IfOk result (λ r. All K.fits r.rest.items) }
{
    let alloc = *seats.allocator();
    let mut workers = Vec::new(alloc);
    let mut rest = Vec::new(alloc);
    let mut all_later = Vec::new(alloc);
    for seat in seats {
        let Seat {
            number: _,
            desk,
            tickets: _,
        } = seat;
        let Desk {
            worker,
            mut own,
            backlog: _,
            mut later,
        } = desk.into_inner();
        take_rest(&mut own, &mut rest)?;
        workers.push(worker)?;
        all_later.append(&mut later)?;
    }
    Ok(Gathered {
        workers,
        rest,
        later: all_later,
    })
}

/// Runs what is left, if anything is, by the plain split.
fn run_rest<T: Send + Drop, W: PacketWorker<T>, G: Gate, R: Threads + Sync>(
    rt: &R,
    b: Bucket,
    gathered: Gathered<T, W>,
    gate: &G,
) -> Result<(Vec<W>, Vec<Packet<T>>), AllocError>
    requires some { 0 < length gathered.workers.items }
    requires bucket { All (λ p. p.bucket ≡ b) gathered.rest.items }
    requires items { All HasItems gathered.rest.items × All HasItems gathered.later.items }
    requires takes { (h : W.Home) × HaveHome W.home h gathered.workers.items
        × All (W.takes h) gathered.rest.items × All (W.takes h) gathered.later.items }
    requires awaits { AwaitsAny W.awaits }
    ensures home { IfOk result (λ r. (h : W.Home) → HaveHome W.home h gathered.workers.items
        → HaveHome W.home h r.0.items) }
    ensures items { IfOk result (λ r. All HasItems r.1.items) }
    ensures takes { IfOk result (λ r. (h : W.Home) → HaveHome W.home h gathered.workers.items
        → All (W.takes h) r.1.items) }
    ensures once { IfOk result (λ r. (ws : List W) (first : List (Packet T))
        (logs : List (List (Step W T)))
        → RunsPart W.steps b ws first logs gathered.workers.items gathered.rest.items
        gathered.later.items
        → (all : List (List (Step W T))) × RunsBucket W.steps (record {
          bucket = b;
          before = ws;
          first = first;
          logs = all;
          after = r.0.items;
          later = r.1.items;
        })) }
{
    let Gathered {
        workers,
        rest,
        mut later,
    } = gathered;
    if rest.len() == 0 {
        return Ok((workers, later));
    }
    let plain = run_plain_split(rt, b, workers, rest, gate)?;
    let (workers, mut more) = plain;
    later.append(&mut more)?;
    Ok((workers, later))
}

/// Runs the packets by workers that steal from one another. What is left in a deque at the end is
/// run by the plain split.
fn steal_among<
    T: Send + Drop,
    W: PacketWorker<T>,
    K: Fits<T> + Send + Sync,
    G: Gate,
    R: Threads + Sync,
>(
    rt: &R,
    b: Bucket,
    workers: Vec<W>,
    first: Vec<Packet<T>>,
    gate: &G,
) -> Result<(Vec<W>, Vec<Packet<T>>), AllocError>
    requires several { 1 < length workers.items }
    requires few { length workers.items ≤ MAX_WORKERS }
    requires bucket { All (λ p. p.bucket ≡ b) first.items }
    requires items { All HasItems first.items }
    requires takes { (h : W.Home) × HaveHome W.home h workers.items
        × All (W.takes h) first.items × IsFitting K.fits b W.takes h }
    requires awaits { AwaitsAny W.awaits }
    ensures home { IfOk result (λ r. (h : W.Home) → HaveHome W.home h workers.items
        → HaveHome W.home h r.0.items) }
    ensures items { IfOk result (λ r. All HasItems r.1.items) }
    ensures takes { IfOk result (λ r. (h : W.Home) → HaveHome W.home h workers.items
        → All (W.takes h) r.1.items) }
    ensures once { IfOk result (λ r. (logs : List (List (Step W T)))
        × RunsBucket W.steps (record {
          bucket = b;
          before = workers.items;
          first = first.items;
          logs = logs;
          after = r.0.items;
          later = r.1.items;
        })) }
    ensures awaits { IfOk result (λ r. (start : W.Start) (w : W) → workers.items ≡ w ∷ []
        → AwaitsAll W.awaits start w first.items
        → (v : W) × (r.0.items ≡ v ∷ []) × AwaitsAll W.awaits start v r.1.items) }
{
    let busy = AtomicU64::new(workers.len() as u64);
    let shares = deal(workers, first)?;
    let opened = open_seats::<T, W, K>(b, shares)?;
    let (mut seats, thieves) = opened;
    cut_tickets(&mut seats)?;
    let results = map_in_threads(
        rt,
        seats,
        &|seat: Seat<T, W, K>| -> Result<Seat<T, W, K>, AllocError>
            requires { IsSync G.row × IsSend W.row × IsSend T.row
                × IsServable K.fits b W.home W.takes W.awaits
                (map (λ t. stealer_deque t) thieves.items) seat }
            ensures { IfOk result (λ r. GoesOnTo W.home W.takes W.steps b seat r
                × HasTickets (map (λ t. stealer_deque t) thieves.items) r) }
        { serve(b, gate, &thieves, &busy, seat) },
    )?;
    let mut served = all_ok(results)?;
    take_tickets_back(&mut served);
    let gathered = gather(served)?;
    let ended = run_rest(rt, b, gathered, gate)?;
    Ok(ended)
}

/// So many workers steal from one another in this bucket.
fn may_steal(b: Bucket, count: usize) -> bool
    ensures { MatchBool result ((1 < count) × (count ≤ MAX_WORKERS)) (Unit {0}) }
{
    b != Bucket::Roots && 1 < count && count <= MAX_WORKERS
}

/// Runs a bucket from its first packets on, and hands back the workers and the packets for later
/// buckets. The first packets are dealt evenly into deques, one for each worker. A worker runs
/// those of its deque and all that it pushes for this bucket, and then steals from the others. One
/// worker, more than `MAX_WORKERS`, and all workers in `Roots`, whose packets push for later
/// buckets alone, run their own as `run_plain_split` has it.
pub fn run_steal<T: Send + Drop, W: PacketWorker<T>, G: Gate, R: Threads + Sync>(
    rt: &R,
    b: Bucket,
    workers: Vec<W>,
    first: Vec<Packet<T>>,
    gate: &G,
) -> Result<(Vec<W>, Vec<Packet<T>>), AllocError>
    requires some { 0 < length workers.items }
    requires bucket { All (λ p. p.bucket ≡ b) first.items }
    requires items { All HasItems first.items }
    requires takes { (h : W.Home) × HaveHome W.home h workers.items
        × All (W.takes h) first.items }
    requires awaits { MayAwait W.awaits workers.items first.items }
    ensures home { IfOk result (λ r. (h : W.Home) → HaveHome W.home h workers.items
        → HaveHome W.home h r.0.items) }
    ensures items { IfOk result (λ r. All HasItems r.1.items) }
    ensures takes { IfOk result (λ r. (h : W.Home) → HaveHome W.home h workers.items
        → All (W.takes h) r.1.items) }
    ensures once { IfOk result (λ r. (logs : List (List (Step W T)))
        × RunsBucket W.steps (record {
          bucket = b;
          before = workers.items;
          first = first.items;
          logs = logs;
          after = r.0.items;
          later = r.1.items;
        })) }
    ensures awaits { IfOk result (λ r. (start : W.Start) (w : W) → workers.items ≡ w ∷ []
        → AwaitsAll W.awaits start w first.items
        → (v : W) × (r.0.items ≡ v ∷ []) × AwaitsAll W.awaits start v r.1.items) }
{
    if may_steal(b, workers.len()) {
        steal_among::<T, W, Brand, G, R>(rt, b, workers, first, gate)
    } else {
        run_plain_split(rt, b, workers, first, gate)
    }
}
