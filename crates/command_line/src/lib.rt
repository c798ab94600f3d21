//! The arguments of the command line: their usage, and what they ask for.
//!
//! Options come first, in any order and each at most once, as `--name value` or `--name=value`.
//! `--plan` and `--heap` (in blocks, 4 to 1024) are required. `--workers` (1 to 16) is 1 by
//! default. `--map` is a flag. After the options come 1 to 16 files, or none with `--make`: its
//! value is the number of commands of a made trace, 1 to 1,000,000. `--make` excludes `--map`.
#![tactic(auto)]

mod clap_values;
mod laws;
mod order;
mod splitter;
mod values;
mod words;

pub use laws::{spelled_command_lines, worked_command_lines};
pub use order::{MAX_FILES, MAX_WORKERS, Order, PlanName, Target};
pub use words::read_words;
