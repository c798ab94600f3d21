//! The summary of a session of a made trace.

ghost use Rattle.std.specs.Prelude.{◌≡◌, ◌++◌, ℕ, List, codes, IfOk, OnOk};
ghost use Rattle.std.specs.Fmt.{decimal};
ghost use Rattle.std.specs.List.{flat_map};
ghost use Rattle.driver.specs.Prelude.{AnyReply, Setting, Moment, Closes, ClosesSome, IsSummary, AreLive, AreCounts, counts_part, live_line, ended};

use crate::report::{print_line, print_live, print_pair};
use heap_graph::reachable;
use made_trace::ReplyCounts;
use mm_runtime::Manager;
use plan_api::Plan;
use std::alloc::{AllocError, Global};

// Appends a line for each word and its number.
fn print_lines(lines: &[(&str, u64)], to: &mut Vec<u8>) -> Result<(), AllocError>
    ensures { OnOk result (to.new.items ≡ to.old.items
        ++ flat_map (λ l. ended (l.0.now ++ decimal l.1)) lines.now) }
{
    for line in lines {
        print_line(line.0.as_bytes(), line.1, to)?;
    }
    Ok(())
}

// Appends the number of commands, and how many replies there are of each kind.
fn print_counts(commands: u32, counts: &ReplyCounts, to: &mut Vec<u8>) -> Result<(), AllocError>
    ensures { (replies : List AnyReply) → AreCounts counts.now replies
        → OnOk result (to.new.items ≡ to.old.items ++ counts_part commands replies) }
{
    let first = [
        ("make ", u64::from(commands)),
        ("new ", counts.allocated),
        ("full ", counts.full),
        ("ref ", counts.reference),
        ("nil ", counts.nil),
    ];
    print_lines(&first, to)?;
    print_pair(b"num ", counts.number, b" sum ", counts.sum, to)?;
    let last = [
        ("ok ", counts.done),
        ("yes ", counts.yes),
        ("no ", counts.no),
        ("null ", counts.null),
        ("range ", counts.range),
    ];
    print_lines(&last, to)
}

// Appends the line on live objects.
fn print_live_of<P: Plan>(
    alloc: Global,
    manager: &Manager<P>,
    to: &mut Vec<u8>,
) -> Result<(), AllocError>
    requires { ClosesSome P.rules manager.now }
    ensures { (t : Setting) (last : Moment) → Closes P.rules manager.now t last
        → OnOk result ((live : List ℕ) × AreLive last live
        × (to.new.items ≡ to.old.items ++ live_line last.heap live)) }
{
    let registers = manager.registers()?;
    let heap = manager.heap();
    let live = reachable(alloc, heap, &registers)?;
    print_live(heap, &live, to)
}

/// The summary of a session of a made trace of so many commands.
///
/// Fails if memory runs out.
pub fn summary_text<P: Plan>(
    alloc: Global,
    manager: &Manager<P>,
    commands: u32,
) -> Result<Vec<u8>, AllocError>
    requires { ClosesSome P.rules manager.now }
    ensures { (t : Setting) (last : Moment) → Closes P.rules manager.now t last
        → IfOk result (λ v. IsSummary commands last v.items) }
{
    let mut text = Vec::new(alloc);
    print_counts(commands, &ReplyCounts::of(manager.replies(1)), &mut text)?;
    print_live_of(alloc, manager, &mut text)?;
    Ok(text)
}
