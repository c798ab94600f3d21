//! Runs of the whole program in memory, for tests.
use driver::run;
use outside::{MemSink, MemSources, Sink, Sources};
use std::alloc::{AllocError, Global};
use std::fmt::Write;
use std::process::Abort;
use std::thread::Threads;
use work_packets::{Gate, OpenGate};

pub(crate) const FIRST: &str = "new r0 1 1;write r0 0 7;read r0 0;get r1 r0 0";

// The text of `FIRST` under plan `nogc`, in four blocks.
pub(crate) const FIRST_TEXT: &str = "mutator 1\nnew 1.1\nok\nnum 7\nnil\nplan nogc\nblocks 4\n\
    mutators 1\ncommands 4\nfull 0\ncollections nursery 0 full 0\n\
    live objects 1 words 5\nheld objects 1 words 5\n\
    kinds free 3 bump 1 young 0 mature 0 immix 0 cells 0 large 0 kept 0\n";

// The arguments in a line: one before each space, and one after the last.
pub(crate) fn words_in(alloc: Global, line: &str) -> Result<Vec<String>, AllocError> {
    let mut words = Vec::new(alloc);
    for word in line.split(' ') {
        words.push(String::from_str(alloc, word)?)?;
    }
    Ok(words)
}

// Appends a line so many times.
fn push_line(text: &mut Vec<u8>, count: u32, line: &str) -> Result<(), AllocError> {
    for _ in 0..count {
        text.extend_from_slice(line.as_bytes())?;
        text.push(b'\n')?;
    }
    Ok(())
}

// Appends the lines that semicolons separate, no line if there is no text. `3*gc` stands for three
// lines `gc`.
pub(crate) fn push_lines(text: &mut Vec<u8>, lines: &str) -> Result<(), AllocError> {
    if lines.is_empty() {
        return Ok(());
    }
    for line in lines.split(';') {
        match line.split_once('*') {
            Some((count, line)) => push_line(text, count.parse::<u32>().unwrap_or(0), line)?,
            None => push_line(text, 1, line)?,
        }
    }
    Ok(())
}

// A trace of the commands that semicolons separate.
pub(crate) fn trace_in(alloc: Global, commands: &str) -> Result<Vec<u8>, AllocError> {
    let mut text = Vec::from_slice(alloc, b"mmtrace 1\n")?;
    push_lines(&mut text, commands)?;
    Ok(text)
}

// A list of a single file.
pub(crate) fn file_of(
    alloc: Global,
    name: &str,
    content: Vec<u8>,
) -> Result<Vec<(String, Vec<u8>)>, AllocError> {
    let mut files = Vec::new(alloc);
    files.push((String::from_str(alloc, name)?, content))?;
    Ok(files)
}

// The exit number of a run, what it wrote to standard output and what to standard error, with bars
// between them.
pub(crate) fn report(
    alloc: Global,
    number: u8,
    out: &[u8],
    err: &[u8],
) -> Result<Vec<u8>, AllocError> {
    let mut text = format!(in alloc; "{number}|")?.into_bytes();
    text.extend_from_slice(out)?;
    text.push(b'|')?;
    text.extend_from_slice(err)?;
    Ok(text)
}

// The text of replies. Bars separate the mutators, and semicolons their replies.
pub(crate) fn text_of_replies(alloc: Global, replies: &str) -> Result<Vec<u8>, AllocError> {
    let mut text = Vec::new(alloc);
    for (m, replies) in replies.split('|').enumerate() {
        push_line(&mut text, 1, &format!(in alloc; "mutator {}", m + 1)?)?;
        push_lines(&mut text, replies)?;
    }
    Ok(text)
}

// The report of a run that ends well, by its replies alone.
pub(crate) fn report_of(alloc: Global, replies: &str) -> Result<Vec<u8>, AllocError> {
    report(alloc, 0, &text_of_replies(alloc, replies)?, b"")
}

// What a run reports, without what its text says after the replies.
fn replies_alone(alloc: Global, ran: &[u8]) -> Result<Vec<u8>, AllocError> {
    let text = str::from_utf8(ran).unwrap_or("");
    match (text.split_once("\nplan "), text.rsplit_once('|')) {
        (Some((replies, _)), Some((_, err))) => {
            Ok(format!(in alloc; "{replies}\n|{err}")?.into_bytes())
        }
        _ => ran.to_vec(alloc),
    }
}

// Runs the program with a list of arguments, through a gate, and returns its exit number.
pub(crate) fn number_of_run<R: Threads + Sync, S: Sources, O: Sink, E: Sink, G: Gate>(
    rt: &R,
    alloc: Global,
    words: &[String],
    sources: &mut S,
    out: &mut O,
    err: &mut E,
    gate: &G,
) -> u8 {
    run(rt, alloc, words, sources, out, err, gate).number()
}

// Runs the program with a list of arguments over these files, through a gate, and reports all.
pub(crate) fn run_whole<R: Threads + Sync, G: Gate>(
    rt: &R,
    alloc: Global,
    words: &[String],
    files: Vec<(String, Vec<u8>)>,
    gate: &G,
) -> Result<Vec<u8>, AllocError> {
    let mut sources = MemSources::new(files, Vec::new(alloc));
    let mut out = MemSink::new(alloc, 8_000_000, 65_536, Vec::new(alloc))?;
    let mut err = MemSink::new(alloc, 1000, 1000, Vec::new(alloc))?;
    let number = number_of_run(rt, alloc, words, &mut sources, &mut out, &mut err, gate);
    report(alloc, number, out.bytes(), err.bytes())
}

// Runs the program with a list of arguments over these files, and reports the replies alone.
pub(crate) fn run_words<R: Threads + Sync>(
    rt: &R,
    alloc: Global,
    words: &[String],
    files: Vec<(String, Vec<u8>)>,
) -> Result<Vec<u8>, AllocError> {
    replies_alone(alloc, &run_whole(rt, alloc, words, files, &OpenGate)?)
}

// Runs the program with the arguments in a line. File `a` has this content.
pub(crate) fn run_line<R: Threads + Sync>(
    rt: &R,
    alloc: Global,
    line: &str,
    content: Vec<u8>,
) -> Result<Vec<u8>, AllocError> {
    let words = words_in(alloc, line)?;
    run_words(rt, alloc, &words, file_of(alloc, "a", content)?)
}

// Runs one trace for each mutator, with these options, through a gate, and reports all. Bars
// separate the traces; their files are `f0`, `f1` and so on.
pub(crate) fn run_options<R: Threads + Sync, G: Gate>(
    rt: &R,
    alloc: Global,
    options: &str,
    traces: &str,
    gate: &G,
) -> Result<Vec<u8>, AllocError> {
    let mut line = String::from_str(alloc, options)?;
    let mut files = Vec::new(alloc);
    for (m, commands) in traces.split('|').enumerate() {
        let name = format!(in alloc; "f{m}")?;
        write!(line, " {name}")?;
        files.push((name, trace_in(alloc, commands)?))?;
    }
    let words = words_in(alloc, &line)?;
    run_whole(rt, alloc, &words, files, gate)
}

// Runs one trace for each mutator, with these options, through a gate, and reports the replies
// alone.
pub(crate) fn run_replies<R: Threads + Sync, G: Gate>(
    rt: &R,
    alloc: Global,
    options: &str,
    traces: &str,
    gate: &G,
) -> Result<Vec<u8>, AllocError> {
    replies_alone(alloc, &run_options(rt, alloc, options, traces, gate)?)
}

// Runs one trace for each mutator, under a plan, through a gate, and reports the replies alone.
pub(crate) fn run_traces<R: Threads + Sync, G: Gate>(
    rt: &R,
    alloc: Global,
    plan: &str,
    heap: u32,
    traces: &str,
    gate: &G,
) -> Result<Vec<u8>, AllocError> {
    let options = format!(in alloc; "--plan {plan} --heap {heap}")?;
    run_replies(rt, alloc, &options, traces, gate)
}

// The run of these traces has this report under each of the plans.
pub(crate) fn check_report<R: Threads + Sync + Abort>(
    rt: &R,
    alloc: Global,
    plans: &[&str],
    heap: u32,
    traces: &str,
    want: &[u8],
) -> Result<(), AllocError> {
    for plan in plans {
        let ran = run_traces(rt, alloc, plan, heap, traces, &OpenGate)?;
        assert!(rt; ran.as_slice() == want, "{plan} {traces}");
    }
    Ok(())
}
