//! What a collection began with and left, and how the two compare.

ghost use Rattle.std.specs.Prelude.{◌≡◌, IfOk, true};
ghost use Rattle.object_model.specs.Heaps.{heap_state};
ghost use Rattle.sessions.specs.Collecting.{Remembers};
ghost use Rattle.collector.specs.Collected.{IsOffered};

use crate::heaps::{Built, with_roots};
use collector::{Collected, MAX_WORKERS, Note, collect};
use heap_graph::{Place, graph};
use object_model::{Collect, Heap, are_roots};
use plan_api::Plan;
use pools::StealPool;
use std::alloc::{AllocError, Global};
use std::process::Abort;
use std::sync::atomic::{AtomicU64, Ordering};
use std::thread::Threads;
use work_packets::{Gate, Point};

// A gate that counts how often workers pass before and after an item.
#[derive(Drop)]
struct CountingGate {
    claim: AtomicU64,
    claimed: AtomicU64,
}

impl Gate for CountingGate {
    fn pass(&self, who: u32, point: Point) {
        if who > 16 && point == Point::Claim {
            self.claim.fetch_add(1, Ordering::SeqCst);
        }
        if who > 16 && point == Point::Claimed {
            self.claimed.fetch_add(1, Ordering::SeqCst);
        }
    }
}

// The words of a heap, its roots, and the objects that these and the globals reach.
#[derive(Drop)]
pub(crate) struct View {
    pub(crate) words: Vec<u64>,
    pub(crate) blocks: usize,
    pub(crate) number: u64,
    pub(crate) base: u64,
    pub(crate) roots: Vec<u32>,
    pub(crate) places: Vec<Place>,
}

// A collection: what it began with, what it left, its counts, and how often the gate was passed.
#[derive(Drop)]
pub(crate) struct Pass {
    pub(crate) old: View,
    pub(crate) new: View,
    pub(crate) note: Note,
    pub(crate) claim: u64,
    pub(crate) claimed: u64,
}

/// A collection by so many workers, and how often the gate was passed before and after an item.
pub(crate) fn collect_counted<P: Plan, R: Abort + Threads + Sync>(
    rt: &R,
    alloc: Global,
    heap: Heap,
    roots: Vec<u32>,
    kind: Collect,
    workers: u32,
) -> Result<(Collected, u64, u64), AllocError>
    requires offered { IsOffered P.rules kind (heap_state heap) }
    ensures { IfOk result (λ r. P.rules.collects ≡ true
        → Remembers P.rules (heap_state r.0.heap)) }
{
    let gate = CountingGate {
        claim: AtomicU64::new(0),
        claimed: AtomicU64::new(0),
    };
    let pool = StealPool;
    assert!(rt; 1 <= workers);
    assert!(rt; workers <= MAX_WORKERS);
    let Built { heap, registers } = with_roots(rt, heap, roots);
    assert!(rt; heap.number() < 1_000_000);
    assert!(rt; registers.len() <= 1_000_000);
    let made = collect::<P, StealPool, CountingGate, R>(
        rt, alloc, heap, registers, kind, workers, &pool, &gate,
    )?;
    let claim = gate.claim.load(Ordering::SeqCst);
    Ok((made, claim, gate.claimed.load(Ordering::SeqCst)))
}

pub(crate) fn word(words: &[u64], at: usize) -> u64 {
    words.get(at).copied().unwrap_or(0)
}

impl View {
    pub(crate) fn of(
        rt: &impl Abort,
        alloc: Global,
        heap: &Heap,
        roots: Vec<u32>,
    ) -> Result<View, AllocError> {
        let all = roots.as_slice();
        assert!(rt; are_roots(heap, all));
        let places = graph(alloc, heap, all)?;
        Ok(View {
            words: heap.words().to_vec(alloc)?,
            blocks: heap.layout().blocks() as usize,
            number: heap.number(),
            base: heap.base(),
            places,
            roots,
        })
    }

    // Bit n of the zone of bits that begins `zone` words a block after the block words.
    pub(crate) fn bit(&self, zone: usize, at: u64) -> bool {
        let n = (at as usize).wrapping_sub(self.blocks.wrapping_mul(197).wrapping_add(18));
        let first = self.blocks.wrapping_mul(zone).wrapping_add(18);
        word(&self.words, first.wrapping_add(n / 64)) >> (n % 64) & 1 == 1
    }

    pub(crate) fn is_pinned(&self, at: u64) -> bool {
        self.bit(69, at)
    }

    // The kind of the block of an address, as its number.
    pub(crate) fn kind(&self, at: u32) -> u64 {
        let offset = (at as usize).wrapping_sub(self.blocks.wrapping_mul(197).wrapping_add(18));
        word(&self.words, 18 + offset / 4096) % 16
    }

    // The first word of the object at an address, which is its name, and 0 for nil.
    fn name(&self, at: u64) -> u64 {
        match at {
            0 => 0,
            _ => word(&self.words, at as usize),
        }
    }

    // The word after, which has the numbers of references and numbers.
    pub(crate) fn shape(&self, at: u64) -> u64 {
        word(&self.words, (at as usize).wrapping_add(1))
    }

    // How many objects begin at these 64 addresses, and their words.
    fn held_from(&self, first: u64, bits: u64) -> (u32, u64) {
        let (mut count, mut size) = (0u32, 0u64);
        for n in 0..64 {
            if bits >> n & 1 == 1 {
                let shape = self.shape(first.wrapping_add(n));
                count = count.wrapping_add(1);
                size = size.wrapping_add(3 + shape % 65_536 + (shape >> 16) % 65_536);
            }
        }
        (count, size)
    }

    // How many objects are held, and their words.
    pub(crate) fn held(&self) -> (u32, u64) {
        let (mut count, mut size) = (0u32, 0u64);
        let mut first = (self.blocks as u64).wrapping_mul(197).wrapping_add(18);
        let zone = self.blocks.wrapping_mul(5).wrapping_add(18);
        let words = self.words.iter().skip(zone);
        for bits in words.take(self.blocks.wrapping_mul(64)) {
            if *bits > 0 {
                let (more, words) = self.held_from(first, *bits);
                count = count.wrapping_add(more);
                size = size.wrapping_add(words);
            }
            first = first.wrapping_add(64);
        }
        (count, size)
    }

    pub(crate) fn blocks_of(&self, kind: u64) -> u32 {
        let mut count = 0u32;
        for block in self.words.iter().skip(18).take(self.blocks) {
            if *block % 16 == kind {
                count = count.wrapping_add(1);
            }
        }
        count
    }

    // How many blocks have an object that begins in them.
    pub(crate) fn filled(&self) -> u32 {
        let zone = self.blocks.wrapping_mul(5).wrapping_add(18);
        let mut count = 0u32;
        for block in 0..self.blocks {
            let first = block.wrapping_mul(64).wrapping_add(zone);
            let mut words = self.words.iter().skip(first).take(64);
            if words.any(|bits| *bits > 0) {
                count = count.wrapping_add(1);
            }
        }
        count
    }
}

// Whether a root or a field refers to the same object, or is nil, before and after.
fn is_same(old: &View, new: &View, was: u64, is: u64) -> bool {
    (was == 0) == (is == 0) && old.name(was) == new.name(is)
}

// Whether an object has the words that it had, but for addresses.
fn has_same_words(old: &View, new: &View, was: &Place, is: &Place) -> bool {
    let refs = old.shape(u64::from(was.at)) % 65_536;
    for offset in 0..was.size {
        let before = word(&old.words, was.at.wrapping_add(offset) as usize);
        let after = word(&new.words, is.at.wrapping_add(offset) as usize);
        let same = match offset {
            2 => true,
            _ if 3 <= offset && u64::from(offset) < 3 + refs => is_same(old, new, before, after),
            _ => before == after,
        };
        if !same {
            return false;
        }
    }
    true
}

// Whether an object is as it was, but for addresses.
fn is_same_object(old: &View, new: &View, was: &Place, is: &Place) -> bool {
    was.name == is.name
        && was.size == is.size
        && old.is_pinned(u64::from(was.at)) == new.is_pinned(u64::from(is.at))
        && has_same_words(old, new, was, is)
}

// Whether all roots and globals refer to the same objects.
fn has_same_roots(old: &View, new: &View) -> bool {
    let mut roots = old.roots.iter().zip(&new.roots);
    let globals = old.words.iter().skip(2).zip(new.words.iter().skip(2));
    old.roots.len() == new.roots.len()
        && roots.all(|(was, is)| is_same(old, new, u64::from(*was), u64::from(*is)))
        && globals
            .take(16)
            .all(|(was, is)| is_same(old, new, *was, *is))
}

// The reachable objects and the references of roots and globals are as they were.
pub(crate) fn check_graph(rt: &impl Abort, pass: &Pass) {
    let (old, new) = (&pass.old, &pass.new);
    assert!(rt; old.places.len() == new.places.len() && has_same_roots(old, new));
    for (was, is) in old.places.iter().zip(&new.places) {
        assert!(rt; is_same_object(old, new, was, is), "{:?}", was.name);
    }
}

// How many of the objects moved.
pub(crate) fn moved(pass: &Pass) -> u32 {
    let mut moved = 0u32;
    for (was, is) in pass.old.places.iter().zip(&pass.new.places) {
        moved = moved.wrapping_add(u32::from(was.at != is.at));
    }
    moved
}
