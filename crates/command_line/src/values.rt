//! The meaning of the values of options.

ghost use Rattle.std.specs.Prelude.{◌≡◌, ◌≤◌, ◌<◌, ◌^◌, map, option_map, length, is_some};
ghost use Rattle.command_line.specs.Words.{bounded_numeral, plan_of, work_of as work_with, workers_of as workers_with};
ghost use Rattle.command_line.specs.Orders.{plan_in, texts, work_in};

use crate::order::{MAX_FILES, MAX_WORKERS, PlanName, Target};
use trace_text::{MAX_COMMANDS, read_numeral};

// The number of a numeral. `None` if the word is no numeral or its number is out of bounds.
pub(crate) fn number_within(word: &str, least: u32, most: u32) -> Option<u32>
    ensures { result ≡ bounded_numeral least most word.now }
{
    let number = read_numeral(word.as_bytes(), u64::from(most)).ok()?;
    if number < u64::from(least) {
        None
    } else {
        Some(number as u32)
    }
}

// The plan with this name.
pub(crate) fn plan_named(word: &str) -> Option<PlanName>
    ensures { option_map plan_in result ≡ plan_of word.now }
{
    if word == "nogc" {
        Some(PlanName::NoGc)
    } else if word == "marksweep" {
        Some(PlanName::MarkSweep)
    } else if word == "semispace" {
        Some(PlanName::SemiSpace)
    } else if word == "gencopy" {
        Some(PlanName::GenCopy)
    } else if word == "immix" {
        Some(PlanName::Immix)
    } else if word == "stickyimmix" {
        Some(PlanName::StickyImmix)
    } else {
        None
    }
}

// The number of workers: 1 if the option is not given.
pub(crate) fn workers_of(word: Option<&str>) -> Option<u32>
    ensures { result ≡ workers_with (option_map (λ w. w.now) word.entry) }
{
    match word {
        None => Some(1),
        Some(word) => number_within(word, 1, MAX_WORKERS),
    }
}

// What to run: 1 to `MAX_FILES` files, or a made trace with neither a map nor files.
pub(crate) fn work_of<'a>(made: Option<&str>, map: bool, files: &'a [String]) -> Option<Target<'a>>
    ensures { option_map work_in result ≡ work_with (option_map
        (λ w. w.now) made.entry) map (texts files.now) }
{
    let Some(word) = made else {
        if files.is_empty() || files.len() > MAX_FILES {
            return None;
        }
        return Some(Target::Files(files));
    };
    if map || !files.is_empty() {
        return None;
    }
    match number_within(word, 1, MAX_COMMANDS) {
        Some(count) => Some(Target::Made(count)),
        None => None,
    }
}
