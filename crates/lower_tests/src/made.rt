//! The made trace, against a plain twin that prints its lines.

use made_trace::made;
use std::alloc::{AllocError, Global};
use std::string::String;
use std::test::Fail;
use trace_text::{print_trace, read_trace};

// The next number of 31 bits.
fn draw(state: &mut u64) -> u64 {
    *state = state
        .wrapping_mul(6_364_136_223_846_793_005)
        .wrapping_add(1_442_695_040_888_963_407);
    *state / 8_589_934_592
}

// The line of a command with these first two numbers, whose row is 9 or less.
fn low_line(alloc: Global, row: u64, a: u64, b: u64, x: &mut u64) -> Result<String, AllocError> {
    match row {
        0..=3 => format!(in alloc; "new r{a} {} {}\n", b % 8, draw(x) % 32),
        4 | 5 => format!(in alloc; "put r{a} {} r{}\n", b % 8, draw(x) % 16),
        6 | 7 => format!(in alloc; "get r{a} r{} {}\n", b % 16, draw(x) % 8),
        8 => format!(in alloc; "read r{a} {}\n", b % 32),
        _ => format!(in alloc; "write r{a} {} {}\n", b % 32, draw(x)),
    }
}

// The line of a command of a later row.
fn high_line(alloc: Global, row: u64, a: u64, b: u64, x: &mut u64) -> Result<String, AllocError> {
    match row {
        10 => format!(in alloc; "add r{a} {} {}\n", b % 32, draw(x)),
        11 => format!(in alloc; "swap r{a} {} {} {}\n", b % 32, draw(x) % 4, draw(x) % 4),
        12 => format!(in alloc; "move r{a} r{}\n", b % 16),
        13 => format!(in alloc; "load r{a} g{}\n", b % 16),
        _ => format!(in alloc; "share g{a} r{}\n", b % 16),
    }
}

// The line of command `k`.
fn line(alloc: Global, k: u64, x: &mut u64) -> Result<String, AllocError> {
    let place = k % 1024;
    if place < 16 {
        return format!(in alloc; "drop r{place}\n");
    }
    if place < 32 {
        return format!(in alloc; "share g{} r0\n", place - 16);
    }
    if k % 65_536 == 32 {
        return format!(in alloc; "gc\n");
    }
    let row = draw(x) % 16;
    let a = draw(x) % 16;
    if row == 15 {
        return format!(in alloc; "pin r{a}\n");
    }
    let b = draw(x);
    if row < 10 {
        low_line(alloc, row, a, b, x)
    } else {
        high_line(alloc, row, a, b, x)
    }
}

#[test]
fn made_text(rt: HostRuntime) -> Result<(), Fail> {
    let alloc = rt.alloc();
    let commands = made(alloc, 70_000)?;
    let text = print_trace(alloc, &commands)?;
    let mut twin = Vec::new(alloc);
    twin.extend_from_slice(b"mmtrace 1\n")?;
    let mut state: u64 = 70_000;
    for k in 0..70_000 {
        let line = line(alloc, k, &mut state)?;
        twin.extend_from_slice(line.as_bytes())?;
    }
    assert!(rt; text == twin);
    assert!(rt; read_trace(alloc, twin.as_slice()).ok() == Some(commands));
    Ok(())
}
