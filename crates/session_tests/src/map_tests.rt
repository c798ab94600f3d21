//! The texts of large sessions: that of the manager, that of the program, and a plain walk.

use crate::commands::trace_in;
use crate::whole_sessions::{Under, session};
use driver::{made, run};
use heap_graph::Place;
use heap_layout::Layout;
use outside::{MemSink, MemSources};
use std::alloc::{AllocError, Global};
use std::fmt::Write;
use std::process::Abort;
use std::test::Fail;
use std::thread::Threads;
use trace_text::{print_trace, read_trace};
use work_packets::OpenGate;

const PLANS: [(Under, &str); 6] = [
    (Under::NoGc, "nogc"),
    (Under::MarkSweep, "marksweep"),
    (Under::SemiSpace, "semispace"),
    (Under::GenCopy, "gencopy"),
    (Under::Immix, "immix"),
    (Under::StickyImmix, "stickyimmix"),
];

// What the program prints for one trace, in so many blocks, with a map.
fn printed<R: Abort + Threads + Sync>(
    rt: &R,
    alloc: Global,
    plan: &str,
    blocks: u32,
    trace: Vec<u8>,
) -> Result<Vec<u8>, AllocError> {
    let mut words = Vec::new(alloc);
    for word in ["--map", "--plan", plan, "--heap"] {
        words.push(String::from_str(alloc, word)?)?;
    }
    words.push(format!(in alloc; "{blocks}")?)?;
    words.push(String::from_str(alloc, "a")?)?;
    let mut files = Vec::new(alloc);
    files.push((String::from_str(alloc, "a")?, trace))?;
    let mut sources = MemSources::new(files, Vec::new(alloc));
    let mut out = MemSink::new(alloc, 8_000_000, 65_536, Vec::new(alloc))?;
    let mut err = MemSink::new(alloc, 100, 100, Vec::new(alloc))?;
    let status = run(
        rt,
        alloc,
        &words,
        &mut sources,
        &mut out,
        &mut err,
        &OpenGate,
    );
    assert_eq!(rt; status.number(), 0, "{plan}");
    out.bytes().to_vec(alloc)
}

// The map of the objects with an even birth, by their names.
fn map_of(alloc: Global, held: &[Place]) -> Result<Vec<u8>, Fail> {
    let base = Layout::new(64)?.heap_base();
    let mut words = Vec::new(alloc);
    for _ in 0..20_001 {
        words.push(0)?;
    }
    for place in held {
        if place.name.birth % 2 == 0 {
            if let Some(word) = words.get_mut((place.name.birth / 2) as usize) {
                *word = place.at.wrapping_sub(base);
            }
        }
    }
    let mut text = String::new(alloc);
    for (half, word) in words.iter().enumerate().skip(1) {
        let (birth, block, word) = (half.wrapping_mul(2), word / 4096, word % 4096);
        writeln!(text, "map 1.{birth} block {block} word {word} size 5")?;
    }
    Ok(text.into_bytes())
}

// A list of 20,000 objects, the last one first. Before each of them one is made that is dropped at
// once.
#[test]
fn large_map(rt: HostRuntime) -> Result<(), Fail> {
    let alloc = rt.alloc();
    let again = "new r1 0 1;new r1 1 1;put r1 0 r0;move r0 r1";
    let trace = trace_in(alloc, "", 20_000, again, "gc")?;
    let commands = read_trace(alloc, &trace)?;
    for (under, plan) in PLANS {
        let end = session(&rt, alloc, under, 64, &[&commands], &[])?;
        let map = map_of(alloc, &end.all_places)?;
        assert!(rt; end.text.ends_with(map.as_slice()), "{plan}");
        let lines = end
            .text
            .split(|b| *b == b'\n')
            .filter(|line| line.starts_with(b"map "));
        assert_eq!(rt; lines.count(), 20_000, "{plan}");
        let ran = printed(&rt, alloc, plan, 64, trace.to_vec(alloc)?)?;
        assert!(rt; ran == end.text, "{plan}");
    }
    Ok(())
}

// A made trace: the program prints what a manager of these commands gives.
#[test]
fn made_session(rt: HostRuntime) -> Result<(), Fail> {
    let alloc = rt.alloc();
    let commands = made(alloc, 300_000)?;
    let trace = print_trace(alloc, &commands)?;
    for (under, plan) in PLANS.into_iter().skip(1) {
        let end = session(&rt, alloc, under, 256, &[&commands], &[])?;
        let ran = printed(&rt, alloc, plan, 256, trace.to_vec(alloc)?)?;
        assert!(rt; ran == end.text, "{plan}");
    }
    Ok(())
}
