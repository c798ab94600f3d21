//! Runs of several traces: fault lines, additions, births, and the points of a gate.

use crate::test_runs::{check_report, report, report_of, run_options, run_replies, run_traces};
use std::alloc::{AllocError, Global};
use std::fmt::Write;
use std::process::Abort;
use std::sync::atomic::{AtomicU64, Ordering};
use std::test::Fail;
use std::thread::Threads;
use work_packets::{Gate, MeetGate, OpenGate, Point};

// The files are read in their order, and the first fault ends the run. Its line names the file.
#[test]
fn faults_of_files(rt: HostRuntime) -> Result<(), Fail> {
    let alloc = rt.alloc();
    for (traces, line) in [
        (
            "new r0 0 1;write r0 0 5;share g0 r0;meet|meet;load r1 g0;read r1",
            "mm_drive: f1: line 4: count\n",
        ),
        (
            "meet;load r1 g16|meet;read r1",
            "mm_drive: f0: line 3: range\n",
        ),
    ] {
        let want = report(alloc, 5, b"", line.as_bytes())?;
        check_report(&rt, alloc, &["nogc"], 4, traces, &want)?;
    }
    Ok(())
}

// The numbers that are replied, in rising order.
fn numbers_in(alloc: Global, text: &[u8]) -> Result<Vec<u64>, AllocError> {
    let mut numbers = Vec::new(alloc);
    for line in str::from_utf8(text).unwrap_or("").lines() {
        if let Some(digits) = line.strip_prefix("num ") {
            numbers.push(digits.parse::<u64>().unwrap_or(u64::MAX))?;
        }
    }
    numbers.sort()?;
    Ok(numbers)
}

// Four mutators that add 1 to one number a thousand times each.
fn four_adding(alloc: Global) -> Result<String, AllocError> {
    let first = "new r0 0 1;share g0 r0;meet;load r1 g0;1000*add r1 0 1;meet;read r1 0";
    let other = "meet;load r1 g0;500*add r1 0 1;gc;500*add r1 0 1;meet";
    format!(in alloc; "{first}|{other}|{other}|{other}")
}

// Each addition replies the number before it, and at the end one mutator reads the sum.
fn check_additions<R: Threads + Sync + Abort>(
    rt: &R,
    alloc: Global,
    options: &str,
    traces: &str,
) -> Result<(), AllocError> {
    let ran = run_options(rt, alloc, options, traces, &OpenGate)?;
    let want = Vec::from_iter(alloc, 0..4001u64)?;
    let numbers = numbers_in(alloc, &ran)?;
    assert!(rt; numbers.as_slice() == want.as_slice(), "{options}");
    Ok(())
}

const ALL: [&str; 6] = [
    "nogc",
    "marksweep",
    "semispace",
    "gencopy",
    "immix",
    "stickyimmix",
];

// Additions go on through stops that `gc` raises, with any number of workers: twenty times with 16.
#[test]
fn additions(rt: HostRuntime) -> Result<(), Fail> {
    let alloc = rt.alloc();
    let traces = four_adding(alloc)?;
    for plan in ALL {
        for (workers, times) in [(1u32, 1u32), (4, 1), (16, 20)] {
            let options = format!(in alloc; "--plan {plan} --heap 8 --workers {workers}")?;
            for _time in 0..times {
                check_additions(&rt, alloc, &options, &traces)?;
            }
        }
    }
    Ok(())
}

// The replies of a mutator that makes so many objects.
fn births_of(alloc: Global, m: u32, count: u32) -> Result<String, AllocError> {
    let mut replies = format!(in alloc; "new {m}.1")?;
    for birth in 1..count {
        write!(replies, ";new {m}.{}", birth + 1)?;
    }
    Ok(replies)
}

// Four mutators make a hundred objects each, the first held at its first one until the second has
// one. Each name is given once.
#[test]
fn names_are_given_once(rt: HostRuntime) -> Result<(), Fail> {
    let alloc = rt.alloc();
    let mut replies = births_of(alloc, 1, 100)?;
    for m in 2..5 {
        write!(replies, "|{}", births_of(alloc, m, 100)?)?;
    }
    let trace = "100*new r0 0 1";
    let traces = format!(in alloc; "{trace}|{trace}|{trace}|{trace}")?;
    let gate = MeetGate::new(1, 2, Point::Publish);
    let ran = run_traces(&rt, alloc, "immix", 8, &traces, &gate)?;
    assert!(rt; ran == report_of(alloc, &replies)?);
    Ok(())
}

// Each of two mutators in turn is held before its first command until the other comes to its own.
#[test]
fn mutators_run_at_once(rt: HostRuntime) -> Result<(), Fail> {
    let alloc = rt.alloc();
    let want = Vec::from_iter(alloc, 0..4001u64)?;
    for (first, second) in [(1u32, 2u32), (2, 1)] {
        let gate = MeetGate::new(first, second, Point::Poll);
        let options = "--plan semispace --heap 8 --workers 4";
        let ran = run_options(&rt, alloc, options, &four_adding(alloc)?, &gate)?;
        let numbers = numbers_in(alloc, &ran)?;
        assert!(rt;
            numbers.as_slice() == want.as_slice() && !gate.missed(),
            "{first}"
        );
    }
    Ok(())
}

// A gate that counts births, packets and items of all.
#[derive(Drop)]
struct WorkGate {
    publish: AtomicU64,
    packet: AtomicU64,
    claimed: AtomicU64,
}

impl Gate for WorkGate {
    fn pass(&self, _who: u32, point: Point) {
        match point {
            Point::Publish => {
                self.publish.fetch_add(1, Ordering::SeqCst);
            }
            Point::Packet => {
                self.packet.fetch_add(1, Ordering::SeqCst);
            }
            Point::Claimed => {
                self.claimed.fetch_add(1, Ordering::SeqCst);
            }
            _ => {}
        }
    }
}

// The mutators of a run allocate on its heap, and its workers run packets.
#[test]
fn runs_allocate_and_collect(rt: HostRuntime) -> Result<(), Fail> {
    let alloc = rt.alloc();
    let gate = WorkGate {
        publish: AtomicU64::new(0),
        packet: AtomicU64::new(0),
        claimed: AtomicU64::new(0),
    };
    let options = "--plan semispace --heap 8 --workers 4";
    let ran = run_options(&rt, alloc, options, &four_adding(alloc)?, &gate)?;
    assert_eq!(rt; numbers_in(alloc, &ran)?.len(), 4001);
    assert!(rt; gate.publish.load(Ordering::SeqCst) >= 1);
    assert!(rt; gate.packet.load(Ordering::SeqCst) >= 1);
    assert!(rt; gate.claimed.load(Ordering::SeqCst) >= 1);
    Ok(())
}

// Sixteen traces of these commands, with bars between them.
fn sixteen_traces(alloc: Global, trace: &str) -> Result<String, AllocError> {
    let mut traces = String::from_str(alloc, trace)?;
    for _ in 1..16 {
        traces.push_str("|")?;
        traces.push_str(trace)?;
    }
    Ok(traces)
}

// Sixteen mutators: each allocates, shares and meets. Each replies `ok` to `share`, `gc` and both
// `meet`s.
#[test]
fn sixteen_mutators(rt: HostRuntime) -> Result<(), Fail> {
    let alloc = rt.alloc();
    let trace = "new r0 0 1;share g3 r0;meet;load r0 g3;pin r0;gc;meet";
    let traces = sixteen_traces(alloc, trace)?;
    let ran = run_traces(&rt, alloc, "nogc", 16, &traces, &OpenGate)?;
    let text = str::from_utf8(&ran).unwrap_or("");
    assert_eq!(rt; text.lines().filter(|line| *line == "ok").count(), 64);
    Ok(())
}

// Each of sixteen mutators keeps its object through collections by sixteen workers.
#[test]
fn sixteen_mutators_and_workers(rt: HostRuntime) -> Result<(), Fail> {
    let alloc = rt.alloc();
    let traces = sixteen_traces(alloc, "new r0 0 1;gc;read r0 0")?;
    let mut replies = String::from_str(alloc, "new 1.1;ok;num 0")?;
    for m in 2..17 {
        write!(replies, "|new {m}.1;ok;num 0")?;
    }
    let want = report_of(alloc, &replies)?;
    for plan in ALL {
        let options = format!(in alloc; "--plan {plan} --heap 64 --workers 16")?;
        let ran = run_replies(&rt, alloc, &options, &traces, &OpenGate)?;
        assert!(rt; ran == want, "{plan}");
    }
    Ok(())
}

// A gate that counts what passes each point: polls, allocations and publications of mutators 1 and
// 2, and packets, items begun and items done of worker 1.
#[derive(Drop)]
struct CountingGate {
    counts: [AtomicU64; 9],
}

// Where a point is counted.
fn index_of(who: u32, point: Point) -> usize {
    match (point, who) {
        (Point::Poll, 1) => 0,
        (Point::Poll, 2) => 1,
        (Point::Alloc, 1) => 2,
        (Point::Alloc, 2) => 3,
        (Point::Publish, 1) => 4,
        (Point::Publish, 2) => 5,
        (Point::Packet, 17) => 6,
        (Point::Claim, 17) => 7,
        (Point::Claimed, 17) => 8,
        _ => 9,
    }
}

impl Gate for CountingGate {
    fn pass(&self, who: u32, point: Point) {
        if let Some(count) = self.counts.get(index_of(who, point)) {
            count.fetch_add(1, Ordering::SeqCst);
        }
    }
}

// Runs traces through a gate. They end well, with these replies. Returns what the gate counted.
fn count_points<R: Threads + Sync + Abort>(
    rt: &R,
    alloc: Global,
    plan: &str,
    traces: &str,
    replies: &str,
) -> Result<[u64; 9], AllocError> {
    let gate = CountingGate {
        counts: [
            AtomicU64::new(0),
            AtomicU64::new(0),
            AtomicU64::new(0),
            AtomicU64::new(0),
            AtomicU64::new(0),
            AtomicU64::new(0),
            AtomicU64::new(0),
            AtomicU64::new(0),
            AtomicU64::new(0),
        ],
    };
    let ran = run_traces(rt, alloc, plan, 4, traces, &gate)?;
    let want = report_of(alloc, replies)?;
    assert!(rt; ran.as_slice() == want.as_slice(), "{plan}");
    let mut seen = [0; 9];
    for (to, count) in seen.iter_mut().zip(gate.counts.iter()) {
        *to = count.load(Ordering::SeqCst);
    }
    Ok(seen)
}

// Mutator 1 raises a stop at `gc`. Mutator 2 sees that before its `meet`, which is met at this
// stop. Its `new` is large, so that no object is published. Under other plans the worker of the
// collection passes the gate that `run` has, before and after each item: a root, and both objects.
#[test]
fn gates_are_passed(rt: HostRuntime) -> Result<(), Fail> {
    let alloc = rt.alloc();
    let two = "new r0 0 1;write r0 0 7;gc|meet;new r0 0 60000;read r0 0";
    let seen = count_points(&rt, alloc, "nogc", two, "new 1.1;ok;ok|ok;full;null")?;
    assert_eq!(rt; seen, [3, 3, 1, 1, 1, 0, 0, 0, 0]);
    let one = "new r0 1 0;new r1 0 1;put r0 0 r1;drop r1;gc";
    for plan in ["marksweep", "semispace", "gencopy", "immix", "stickyimmix"] {
        let seen = count_points(&rt, alloc, plan, one, "new 1.1;new 1.2;ok;ok;ok")?;
        assert!(rt; seen[6] > 0 && seen[7] > 2 && seen[8] == seen[7], "{plan}");
    }
    Ok(())
}
