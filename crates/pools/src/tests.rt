//! Pools run trees of packets, by several workers and bucket after bucket.

ghost use Rattle.std.specs.Prelude.{◌≡◌, ℕ, ◌+◌, ◌^◌, ◌≤◌, ◌<◌, ◌++◌, ◌∷◌, [], All, IfOk, length, map};
ghost use Rattle.work_packets.specs.Buckets.{IsSameOrLater};
ghost use Rattle.work_packets.specs.Packets.{HasItems};
ghost use Rattle.work_packets.specs.declared.packet.Bucket.TheVariants as buckets;
ghost use Rattle.work_packets.specs.declared.packet.Packet.{Packet};

use crate::pool::{PlainPool, Pool, Style};
use std::alloc::{AllocError, Global};
use std::sync::atomic::{AtomicU64, Ordering};
use std::test::Fail;
use std::thread::Threads;
use work_packets::{
    Bucket, Gate, MeetGate, OpenGate, Packet, PacketWorker, Point, workers_are_reached,
};

// Pushes a packet whose one item is the height of the tree that it stands for.
fn push_tree(packets: &mut Vec<Packet<u32>>, bucket: Bucket, height: u32) -> Result<(), AllocError>
    ensures { IfOk result (λ _. (p : Packet ℕ)
        × (packets.new.items ≡ packets.old.items ++ p ∷ [])
        × (p.bucket ≡ bucket) × (p.items.items ≡ height ∷ [])) }
{
    let mut items = Vec::new(*packets.allocator());
    items.push(height)?;
    packets.push(Packet { bucket, items })?;
    Ok(())
}

// For a packet of height n + 1 it pushes two of height n for this bucket, and one for `Release`.
#[derive(Debug, Drop)]
pub(crate) struct TreeWorker {
    number: u32,
    highest: u32,
    pub(crate) ran: u64,
    left: u64,
}

impl PacketWorker<u32> for TreeWorker {
    type Home = u32;

    type Start = ();

    ghost use Rattle.std.specs.Prelude.{◌≡◌, ◌+◌, ◌≤◌, All, length};

    ghost home = { λ w. w.highest };

    ghost takes = { λ h p. All (λ x. x ≤ h) p.items.items };

    ghost steps = { λ w p q v. (v.left + length q ≡ w.left) × (v.number ≡ w.number) };

    ghost left = { λ w. w.left };

    ghost awaits = { λ s w ps. Unit {0} };

    fn run(&mut self, p: Packet<u32>, pushed: &mut Vec<Packet<u32>>) -> Result<(), AllocError>
        requires takes { All (λ x. x ≤ self.old.highest) p.items.items }
        requires items { HasItems p }
        requires empty { pushed.old.items ≡ [] }
        ensures home { IfOk result (λ _. self.new.highest ≡ self.old.highest) }
        ensures step { IfOk result
            (λ _. (self.new.left + length pushed.new.items ≡ self.old.left)
            × (self.new.number ≡ self.old.number)) }
        ensures left { IfOk result
            (λ _. self.new.left + length pushed.new.items ≤ self.old.left) }
        ensures takes { IfOk result
            (λ _. All (λ q. All (λ x. x ≤ self.old.highest) q.items.items) pushed.new.items) }
        ensures items { IfOk result (λ _. All HasItems pushed.new.items) }
        ensures order { IfOk result
            (λ _. All (λ q. IsSameOrLater p.bucket q.bucket) pushed.new.items) }
    {
        self.ran = self.ran.saturating_add(1);
        let height = p.items[0];
        if height == 0 {
            return Ok(());
        }
        if self.left < 3 {
            return Ok(());
        }
        self.left -= 3;
        push_tree(pushed, p.bucket, height - 1)?;
        push_tree(pushed, p.bucket, height - 1)?;
        push_tree(pushed, Bucket::Release, height - 1)?;
        Ok(())
    }
}

pub(crate) const HIGHEST: u32 = 16;

pub(crate) fn workers(alloc: Global, count: usize) -> Result<Vec<TreeWorker>, AllocError>
    ensures count { IfOk result (λ ws. length ws.items ≡ count) }
    ensures home { IfOk result (λ ws. All (λ w. w.highest ≡ HIGHEST) ws.items) }
{
    let mut workers = Vec::new(alloc);
    let mut number: u32 = 0;
    for _ in 0..count {
        number = number.saturating_add(1);
        workers.push(TreeWorker {
            number,
            highest: HIGHEST,
            ran: 0,
            left: 1_000_000,
        })?;
    }
    Ok(workers)
}

// A packet of the bucket for each of these heights.
pub(crate) fn forest(
    alloc: Global,
    bucket: Bucket,
    heights: &[u32],
) -> Result<Vec<Packet<u32>>, AllocError>
    ensures bucket { IfOk result (λ ps. All (λ p. p.bucket ≡ bucket) ps.items) }
    ensures items { IfOk result (λ ps. All HasItems ps.items) }
    ensures takes { IfOk result
        (λ ps. All (λ p. All (λ x. x ≤ HIGHEST) p.items.items) ps.items) }
{
    let mut packets = Vec::new(alloc);
    for height in heights {
        push_tree(&mut packets, bucket, (*height).min(HIGHEST))?;
    }
    Ok(packets)
}

pub(crate) fn ran(workers: &Vec<TreeWorker>) -> u64 {
    let mut ran: u64 = 0;
    for worker in workers {
        ran = ran.saturating_add(worker.ran);
    }
    ran
}

// A pool that counts how often it runs `Closure`, `Release` and other buckets.
#[derive(Drop)]
struct CountingPool {
    closure: AtomicU64,
    release: AtomicU64,
    others: AtomicU64,
}

impl Pool for CountingPool {
    fn style(&self) -> Style {
        Style::Plain
    }

    fn note(&self, b: Bucket) {
        match b {
            Bucket::Closure => {
                self.closure.fetch_add(1, Ordering::SeqCst);
            }
            Bucket::Release => {
                self.release.fetch_add(1, Ordering::SeqCst);
            }
            _ => {
                self.others.fetch_add(1, Ordering::SeqCst);
            }
        }
    }
}

// A gate that counts how often each of four workers passes before a packet, and all other calls.
#[derive(Drop)]
struct CountingGate {
    packets: [AtomicU64; 4],
    others: AtomicU64,
}

impl Gate for CountingGate {
    fn pass(&self, who: u32, point: Point) {
        if point == Point::Packet && who >= 17 && who <= 20 {
            self.packets[who as usize - 17].fetch_add(1, Ordering::SeqCst);
        } else {
            self.others.fetch_add(1, Ordering::SeqCst);
        }
    }
}

// Runs trees of these heights: the workers, and the packets for `Release`.
pub(crate) fn run_forest<Q: Pool, G: Gate, R: Threads + Sync>(
    rt: &R,
    alloc: Global,
    pool: &Q,
    gate: &G,
    count: usize,
    heights: &[u32],
) -> Result<(Vec<TreeWorker>, Vec<Packet<u32>>), AllocError>
    requires { 0 < count }
    ensures home { IfOk result (λ r. All (λ w. w.highest ≡ HIGHEST) r.0.items) }
    ensures bucket { IfOk result (λ r. All (λ p. p.bucket ≡ buckets.Release) r.1.items) }
    ensures items { IfOk result (λ r. All HasItems r.1.items) }
    ensures takes { IfOk result
        (λ r. All (λ p. All (λ x. x ≤ HIGHEST) p.items.items) r.1.items) }
{
    let workers = workers(alloc, count)?;
    let first = forest(alloc, Bucket::Closure, heights)?;
    let ran = pool.run_bucket(rt, Bucket::Closure, workers, first, gate)?;
    Ok(ran)
}

// A tree of height n has 2 ^ (n + 1) - 1 packets of its bucket, and 2 ^ n - 1 for `Release`.
#[test]
fn trees_are_run_once(rt: HostRuntime) -> Result<(), Fail> {
    let alloc = rt.alloc();
    for count in [1usize, 2, 4] {
        let (workers, later) = run_forest(
            &rt,
            alloc,
            &PlainPool,
            &OpenGate,
            count.max(1),
            &[3, 0, 10, 2, 1],
        )?;
        assert_eq!(rt; workers.len(), count);
        assert_eq!(rt; ran(&workers), 15 + 1 + 2047 + 7 + 3);
        assert_eq!(rt; later.len(), 7 + 0 + 1023 + 3 + 1);
    }
    Ok(())
}

// The first packets are dealt in turn, workers come back in order, and the gate is passed before
// each packet, by 16 and the worker's number.
#[test]
fn packets_are_dealt_evenly(rt: HostRuntime) -> Result<(), Fail> {
    let alloc = rt.alloc();
    let gate = CountingGate {
        packets: [
            AtomicU64::new(0),
            AtomicU64::new(0),
            AtomicU64::new(0),
            AtomicU64::new(0),
        ],
        others: AtomicU64::new(0),
    };
    let (workers, later) = run_forest(&rt, alloc, &PlainPool, &gate, 4, &[0, 1, 0, 0, 2, 0])?;
    let expected: [u64; 4] = [8, 4, 1, 1];
    assert_eq!(rt; workers.len(), 4);
    for (i, worker) in workers.iter().enumerate() {
        assert_eq!(rt; worker.number as usize, i + 1);
        assert_eq!(rt; worker.ran, expected[i % 4]);
        assert_eq!(rt; gate.packets[i % 4].load(Ordering::SeqCst), expected[i % 4]);
    }
    assert_eq!(rt; later.len(), 4);
    assert_eq!(rt; gate.others.load(Ordering::SeqCst), 0);
    Ok(())
}

#[test]
fn some_workers_may_have_nothing_to_run(rt: HostRuntime) -> Result<(), Fail> {
    let alloc = rt.alloc();
    let (workers, later) = run_forest(&rt, alloc, &PlainPool, &OpenGate, 4, &[1])?;
    assert_eq!(rt; workers.len(), 4);
    assert_eq!(rt; ran(&workers), 3);
    assert_eq!(rt; later.len(), 1);
    for count in [1usize, 2, 4] {
        let (workers, later) = run_forest(&rt, alloc, &PlainPool, &OpenGate, count.max(1), &[])?;
        assert_eq!(rt; workers.len(), count);
        assert_eq!(rt; ran(&workers), 0);
        assert!(rt; later.is_empty());
    }
    Ok(())
}

// Runs the packets for `Release`. Each worker is reached by its steps, none of which changes its
// number, so the numbers come back in order.
fn run_later<Q: Pool, R: Threads + Sync>(
    rt: &R,
    pool: &Q,
    workers: Vec<TreeWorker>,
    later: Vec<Packet<u32>>,
) -> Result<(Vec<TreeWorker>, Vec<Packet<u32>>), AllocError>
    requires some { 0 < length workers.items }
    requires home { All (λ w. w.highest ≡ HIGHEST) workers.items }
    requires bucket { All (λ p. p.bucket ≡ buckets.Release) later.items }
    requires items { All HasItems later.items }
    requires takes { All (λ p. All (λ x. x ≤ HIGHEST) p.items.items) later.items }
    ensures { IfOk result
        (λ r. map (λ w. w.number) r.0.items ≡ map (λ w. w.number) workers.items) }
{
    workers_are_reached::<u32, TreeWorker>();
    let ran = pool.run_bucket(rt, Bucket::Release, workers, later, &OpenGate)?;
    Ok(ran)
}

// In `Release` all three packets are for this bucket: a tree of height n has (3 ^ (n + 1) - 1) / 2.
#[test]
fn later_packets_are_run_in_their_bucket(rt: HostRuntime) -> Result<(), Fail> {
    let alloc = rt.alloc();
    let pool = CountingPool {
        closure: AtomicU64::new(0),
        release: AtomicU64::new(0),
        others: AtomicU64::new(0),
    };
    for count in [1usize, 2, 4] {
        let (workers, later) = run_forest(&rt, alloc, &pool, &OpenGate, count.max(1), &[3])?;
        assert!(rt; !workers.is_empty());
        let (workers, later) = run_later(&rt, &pool, workers, later)?;
        assert_eq!(rt; ran(&workers), 15 + (13 + 2 * 4 + 4 * 1));
        assert!(rt; later.is_empty());
    }
    assert_eq!(rt; pool.closure.load(Ordering::SeqCst), 3);
    assert_eq!(rt; pool.release.load(Ordering::SeqCst), 3);
    assert_eq!(rt; pool.others.load(Ordering::SeqCst), 0);
    Ok(())
}

// Runs trees as `TreeWorker` does, and counts what it has still to run. At most as many packets as
// the work began with are ever left.
#[derive(Debug, Drop)]
struct TallyWorker {
    trees: TreeWorker,
    waiting: u64,
}

impl PacketWorker<u32> for TallyWorker {
    type Home = u32;

    type Start = u64;

    ghost use Rattle.std.specs.Prelude.{◌≡◌, ◌+◌, ◌^◌, ◌<◌, ◌≤◌, All, length};

    ghost home = { λ w. w.trees.highest };

    ghost takes = { λ h p. All (λ x. x ≤ h) p.items.items };

    ghost steps = { λ w p q v. v.trees.left + length q ≡ w.trees.left };

    ghost left = { λ w. w.trees.left };

    ghost awaits = { λ most w ps. (length ps ≡ w.waiting)
        × (w.waiting + w.trees.left ≤ most) × (most < 2 ^ 64) };

    fn run(&mut self, p: Packet<u32>, pushed: &mut Vec<Packet<u32>>) -> Result<(), AllocError>
        requires takes { All (λ x. x ≤ self.old.trees.highest) p.items.items }
        requires items { HasItems p }
        requires empty { pushed.old.items ≡ [] }
        requires awaited { (1 ≤ self.old.waiting)
            × (self.old.waiting + self.old.trees.left < 2 ^ 64) }
        ensures home { IfOk result (λ _. self.new.trees.highest ≡ self.old.trees.highest) }
        ensures step { IfOk result
            (λ _. self.new.trees.left + length pushed.new.items ≡ self.old.trees.left) }
        ensures left { IfOk result
            (λ _. self.new.trees.left + length pushed.new.items ≤ self.old.trees.left) }
        ensures takes { IfOk result (λ _. All
            (λ q. All (λ x. x ≤ self.old.trees.highest) q.items.items) pushed.new.items) }
        ensures items { IfOk result (λ _. All HasItems pushed.new.items) }
        ensures order { IfOk result
            (λ _. All (λ q. IsSameOrLater p.bucket q.bucket) pushed.new.items) }
        ensures awaits { IfOk result
            (λ _. self.new.waiting + 1 ≡ self.old.waiting + length pushed.new.items) }
    {
        self.waiting -= 1;
        self.trees.run(p, pushed)?;
        self.waiting += pushed.len() as u64;
        Ok(())
    }
}

// One worker that counts, with these packets waiting.
fn tally_worker(alloc: Global, first: &Vec<Packet<u32>>) -> Result<Vec<TallyWorker>, AllocError>
    ensures { IfOk result (λ ws. (w : TallyWorker) × (ws.items ≡ w ∷ [])
        × (w.trees.highest ≡ HIGHEST) × (w.waiting ≡ length first.now.items)
        × (w.trees.left ≡ 1_000_000) × (w.waiting < 2 ^ 63)) }
{
    let waiting = first.len() as u64;
    let trees = TreeWorker {
        number: 1,
        highest: HIGHEST,
        ran: 0,
        left: 1_000_000,
    };
    let mut workers = Vec::new(alloc);
    workers.push(TallyWorker { trees, waiting })?;
    Ok(workers)
}

// Runs trees of these heights, and then the packets for `Release`, by one worker that counts: what
// is left at the end is what it still counts, and that is nothing.
fn run_alone<Q: Pool, R: Threads + Sync>(
    rt: &R,
    alloc: Global,
    pool: &Q,
    heights: &[u32],
) -> Result<(Vec<TallyWorker>, Vec<Packet<u32>>), AllocError>
    ensures one { IfOk result (λ r. length r.0.items ≡ 1) }
    ensures none { IfOk result (λ r. r.1.items ≡ []) }
    ensures waiting { IfOk result (λ r. All (λ w. w.waiting ≡ 0) r.0.items) }
{
    let first = forest(alloc, Bucket::Closure, heights)?;
    let workers = tally_worker(alloc, &first)?;
    let (workers, later) = pool.run_bucket(rt, Bucket::Closure, workers, first, &OpenGate)?;
    let ran = pool.run_bucket(rt, Bucket::Release, workers, later, &OpenGate)?;
    Ok(ran)
}

// A tree of height n has as many packets, with those for `Release`, as a tree there.
#[test]
fn one_worker_knows_what_it_awaits(rt: HostRuntime) -> Result<(), Fail> {
    let alloc = rt.alloc();
    for (height, count) in [(0u32, 1u64), (1, 4), (2, 13), (3, 40)] {
        let (workers, later) = run_alone(&rt, alloc, &PlainPool, &[1, 0, height])?;
        assert_eq!(rt; workers.len(), 1);
        for worker in &workers {
            assert_eq!(rt; worker.waiting, 0);
            assert_eq!(rt; worker.trees.ran, 4 + 1 + count);
        }
        assert!(rt; later.is_empty());
    }
    Ok(())
}

// Two workers run a packet each, and one waits for the other, the first for the second or the other
// way round.
#[test]
fn two_workers_meet(rt: HostRuntime) -> Result<(), Fail> {
    for (first, second) in [(17u32, 18u32), (18, 17)] {
        let gate = MeetGate::new(first, second, Point::Packet);
        let (workers, later) = run_forest(&rt, rt.alloc(), &PlainPool, &gate, 2, &[0, 0])?;
        assert_eq!(rt; ran(&workers), 2);
        assert!(rt; later.is_empty());
        assert!(rt; !gate.missed());
    }
    Ok(())
}

// The second worker has no packet, so the first does not meet it, at this point or at another one.
#[test]
fn worker_that_never_comes_is_missed(rt: HostRuntime) -> Result<(), Fail> {
    let gate = MeetGate::new(17, 18, Point::Packet);
    let (workers, _later) = run_forest(&rt, rt.alloc(), &PlainPool, &gate, 2, &[1])?;
    assert_eq!(rt; ran(&workers), 3);
    assert!(rt; gate.missed());
    let gate = MeetGate::new(17, 18, Point::Claim);
    let (workers, _later) = run_forest(&rt, rt.alloc(), &PlainPool, &gate, 2, &[1])?;
    assert_eq!(rt; ran(&workers), 3);
    assert!(rt; !gate.missed());
    Ok(())
}
