//! The order that the words of the command line ask for.

ghost use Rattle.std.specs.Prelude.{◌≡◌, IfOk, option_map};
ghost use Rattle.command_line.specs.Words.{job_for, job_of};
ghost use Rattle.command_line.specs.Orders.{job_of_order, texts, values_seen};

use crate::clap_values::{Found, read_values};
use crate::order::{Order, Target};
use crate::splitter::{are_all_single, split_words};
use crate::values::{number_within, plan_named, work_of, workers_of};
use heap_layout::{MAX_BLOCKS, MIN_BLOCKS};
use std::alloc::{AllocError, Global};

// The order of these values and files. `None` if a value is missing or bad.
fn order_of<'a>(found: &Found<'a>, files: &'a [String]) -> Option<Order<'a>>
    ensures { option_map job_of_order result ≡ job_for (values_seen found.now) (texts files.now) }
{
    let plan = plan_named(found.plan?)?;
    let blocks = number_within(found.heap?, MIN_BLOCKS, MAX_BLOCKS)?;
    let workers = workers_of(found.workers)?;
    let work = work_of(found.make, found.map, files)?;
    Some(Order {
        plan,
        blocks,
        workers,
        map: found.map,
        work,
    })
}

/// What the arguments after the program's name ask for. `None` if they do not match the usage. The
/// order borrows the names of its files from the arguments.
///
/// Errors: out of memory.
#[tactic(auto, unfolding(crate::specs::Words::job_of))]
pub fn read_words<'a>(alloc: Global, words: &'a [String]) -> Result<Option<Order<'a>>, AllocError>
    ensures { IfOk result (λ r. option_map job_of_order r ≡ job_of (texts words.now)) }
{
    let Some(parts) = split_words(alloc, words)? else {
        return Ok(None);
    };
    if !are_all_single(parts.settings.as_slice()) {
        return Ok(None);
    }
    let found = read_values(alloc, words)?;
    Ok(order_of(&found, parts.files))
}
