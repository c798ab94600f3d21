//! Tests of the command line.

use command_line::{Target, read_words};
use std::alloc::{AllocError, Global};
use std::test::Fail;

// The words of a line, separated by single spaces.
fn words_in(alloc: Global, line: &str) -> Result<Vec<String>, AllocError> {
    let mut words = Vec::new(alloc);
    for word in line.split(' ') {
        words.push(String::from_str(alloc, word)?)?;
    }
    Ok(words)
}

// The number of workers that the line asks for, and 0 if it is not in the form of a command line.
fn workers_for(alloc: Global, line: &str) -> Result<u32, AllocError> {
    let words = words_in(alloc, line)?;
    match read_words(alloc, words.as_slice())? {
        Some(order) => Ok(order.workers),
        None => Ok(0),
    }
}

// The blocks of the heap, if the line asks for a run of the file `a` alone.
fn blocks_for_a(alloc: Global, line: &str) -> Result<Option<u32>, AllocError> {
    let words = words_in(alloc, line)?;
    match read_words(alloc, words.as_slice())? {
        Some(order) => match order.work {
            Target::Files([file]) if file.as_str() == "a" => Ok(Some(order.blocks)),
            _ => Ok(None),
        },
        None => Ok(None),
    }
}

#[test]
fn reads_command_lines(rt: HostRuntime) -> Result<(), Fail> {
    for (line, blocks) in [
        ("--plan nogc --heap 4 a", 4),
        ("--heap=4 --plan=nogc a", 4),
        ("--heap 4 --plan=nogc a", 4),
        ("--heap=1024 --plan nogc a", 1024),
        ("--workers 1 --plan nogc --heap 64 a", 64),
        ("--plan nogc --workers=1 --heap 10 a", 10),
        ("--plan semispace --heap 4 a", 4),
        ("--heap=6 --plan marksweep a", 6),
        ("--heap=5 --workers=1 --plan=semispace a", 5),
        ("--plan gencopy --heap 4 a", 4),
        ("--plan immix --heap 4 a", 4),
        ("--heap=7 --plan=immix a", 7),
    ] {
        assert_eq!(rt; blocks_for_a(rt.alloc(), line)?, Some(blocks), "{line}");
    }
    Ok(())
}

// With one worker, and with two; and what does not match the usage.
const ONE_WORKER: &str = "--plan nogc --heap 4 a b\n\
    --plan nogc --heap 4 a a\n\
    --plan semispace --heap 4 a b\n\
    --plan marksweep --heap 4 a b\n\
    --plan gencopy --heap 4 a b\n\
    --plan immix --heap 4 a b\n\
    --plan stickyimmix --heap 4 a b\n\
    --heap=4 --plan=stickyimmix --map a\n\
    --map --plan nogc --heap 4 a\n\
    --plan semispace --heap 4 --map a b\n\
    --plan nogc --heap 4 --make 5\n\
    --plan semispace --heap 4 --make 5\n\
    --make=1 --plan nogc --heap 4\n\
    --plan nogc --heap 4 a b c d e f g h i j k l m n o p";

const TWO_WORKERS: &str = "--plan stickyimmix --heap 4 --workers 2 a\n\
    --plan gencopy --heap 4 --workers=2 a\n\
    --workers 2 --plan nogc --heap 4 a\n\
    --plan semispace --workers=2 --heap 4 --map a\n\
    --plan marksweep --heap 4 --workers 2 a\n\
    --plan immix --heap 4 --workers 2 a\n\
    --plan nogc --make 1000000 --workers 2 --heap 4\n\
    --plan nogc --heap 4 --workers 2 a b c d e f g h i j k l m n o p";

const FAULTY: &str = "\n\
    --plan nogc --heap 4 --make 5 a\n\
    --plan nogc --heap 4 --make 5 --map\n\
    --plan nogc --heap 4 a b c d e f g h i j k l m n o p q\n\
    --plan nogc --plan=immix --heap 4 a\n\
    --plan nogc --heap 4 --map --map a\n\
    --plan nogc --heap 4 --make 5 --make 5\n\
    --plan nogc --heap 4 --map=1 a\n\
    --plan nogc --heap 4 --map= a\n\
    --plan nogc --heap 4 --workers 0 a\n\
    --plan nogc --heap 4 --workers 17 a\n\
    --plan nogc --heap 4 --workers 01 a\n\
    --plan nogc --heap 4 --workers=2 --workers 2 a\n\
    --workers 1 --plan nogc --heap 4 --workers 2 a\n\
    --plan nogc --heap 4 --make 0\n\
    --plan nogc --heap 4 --make 1000001\n\
    --plan nogc --heap 4 --make=05\n\
    --plan nogc --heap 4 --make\n\
    --plan nogc --heap 4 a --map\n\
    --plan NoGC --heap 4 a\n\
    --plan lisp2 --heap 4 a\n\
    --plan nogc --heap 4 a -b\n\
    --plan nogc --heap 3 a\n\
    --plan nogc --heap 1025 a";

#[test]
fn usage_and_workers(rt: HostRuntime) -> Result<(), Fail> {
    for (lines, want) in [(ONE_WORKER, 1u32), (TWO_WORKERS, 2), (FAULTY, 0)] {
        for line in lines.split('\n') {
            assert_eq!(rt; workers_for(rt.alloc(), line)?, want, "{line}");
        }
    }
    assert_eq!(rt;
        workers_for(rt.alloc(), "--plan nogc --heap 4 --workers 16 a")?,
        16
    );
    Ok(())
}
