//! Workers steal packets from one another, and each packet is run once.

ghost use Rattle.std.specs.Prelude.{◌<◌};

use crate::pool::{Pool, StealPool};
use crate::tests::{TreeWorker, forest, ran, run_forest, workers};
use std::alloc::{AllocError, Global};
use std::hint;
use std::sync::atomic::{AtomicU64, Ordering};
use std::test::Fail;
use std::thread::Threads;
use work_packets::{Bucket, Gate, MAX_TURNS, OpenGate, Packet, Point};

// Holds worker 1 at its first packet until worker 2 has passed three, and counts the steals.
#[derive(Drop)]
struct HoldingGate {
    first: AtomicU64,
    second: AtomicU64,
    steals: AtomicU64,
}

// A gate that has seen nobody.
fn holding_gate() -> HoldingGate {
    HoldingGate {
        first: AtomicU64::new(0),
        second: AtomicU64::new(0),
        steals: AtomicU64::new(0),
    }
}

impl HoldingGate {
    fn hold(&self) {
        for _turn in 0..MAX_TURNS {
            if self.second.load(Ordering::SeqCst) >= 3 {
                return;
            }
            hint::spin_loop();
        }
    }
}

impl Gate for HoldingGate {
    fn pass(&self, who: u32, point: Point) {
        if point == Point::Steal {
            self.steals.fetch_add(1, Ordering::SeqCst);
        }
        if point != Point::Packet {
            return;
        }
        if who == 18 {
            self.second.fetch_add(1, Ordering::SeqCst);
        }
        if who == 17 && self.first.fetch_add(1, Ordering::SeqCst) == 0 {
            self.hold();
        }
    }
}

// Worker 2 is dealt two of the four packets, and runs three or four.
#[test]
fn worker_steals_a_packet(rt: HostRuntime) -> Result<(), Fail> {
    let gate = holding_gate();
    let (workers, later) = run_forest(&rt, rt.alloc(), &StealPool, &gate, 2, &[0, 0, 0, 0])?;
    assert_eq!(rt; ran(&workers), 4);
    assert!(rt; later.is_empty());
    assert!(rt; gate.second.load(Ordering::SeqCst) >= 3);
    assert!(rt; gate.steals.load(Ordering::SeqCst) >= 1);
    Ok(())
}

// A tree of height n has 2 ^ (n + 1) - 1 packets of its bucket, and 2 ^ n - 1 for `Release`.
#[test]
fn tree_of_one_root_is_run_once(rt: HostRuntime) -> Result<(), Fail> {
    let alloc = rt.alloc();
    for count in [1usize, 2, 4, 16, 17] {
        let (workers, later) = run_forest(&rt, alloc, &StealPool, &OpenGate, count.max(1), &[14])?;
        assert_eq!(rt; workers.len(), count);
        assert_eq!(rt; ran(&workers), 32_767);
        assert_eq!(rt; later.len(), 16_383);
    }
    Ok(())
}

// Deques that begin with 256 slots take 600 packets each.
#[test]
fn many_packets_are_run_once(rt: HostRuntime) -> Result<(), Fail> {
    let heights = [0u32; 1200];
    let (workers, later) = run_forest(&rt, rt.alloc(), &StealPool, &OpenGate, 2, &heights)?;
    assert_eq!(rt; ran(&workers), 1200);
    assert!(rt; later.is_empty());
    Ok(())
}

#[test]
fn sixteen_workers_run_one_packet(rt: HostRuntime) -> Result<(), Fail> {
    let (workers, later) = run_forest(&rt, rt.alloc(), &StealPool, &OpenGate, 16, &[0])?;
    assert_eq!(rt; workers.len(), 16);
    assert_eq!(rt; ran(&workers), 1);
    assert!(rt; later.is_empty());
    Ok(())
}

// One worker has nobody to steal from.
#[test]
fn one_worker_steals_nothing(rt: HostRuntime) -> Result<(), Fail> {
    let gate = holding_gate();
    gate.second.store(3, Ordering::SeqCst);
    let (workers, later) = run_forest(&rt, rt.alloc(), &StealPool, &gate, 1, &[2, 0])?;
    assert_eq!(rt; ran(&workers), 8);
    assert_eq!(rt; later.len(), 3);
    assert_eq!(rt; gate.steals.load(Ordering::SeqCst), 0);
    Ok(())
}

// Runs trees of these heights in `Roots`: the workers, and the packets for `Release`.
fn run_roots<G: Gate, R: Threads + Sync>(
    rt: &R,
    alloc: Global,
    gate: &G,
    count: usize,
    heights: &[u32],
) -> Result<(Vec<TreeWorker>, Vec<Packet<u32>>), AllocError>
    requires { 0 < count }
{
    let workers = workers(alloc, count)?;
    let first = forest(alloc, Bucket::Roots, heights)?;
    let ran = StealPool.run_bucket(rt, Bucket::Roots, workers, first, gate)?;
    Ok(ran)
}

// In `Roots` nobody steals, however uneven the work is.
#[test]
fn roots_are_not_stolen(rt: HostRuntime) -> Result<(), Fail> {
    let gate = holding_gate();
    gate.second.store(3, Ordering::SeqCst);
    let (workers, later) = run_roots(&rt, rt.alloc(), &gate, 4, &[5, 0])?;
    assert_eq!(rt; workers.len(), 4);
    assert_eq!(rt; ran(&workers), 64);
    assert_eq!(rt; later.len(), 31);
    assert_eq!(rt; gate.steals.load(Ordering::SeqCst), 0);
    Ok(())
}
