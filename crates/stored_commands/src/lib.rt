//! Traces as they are kept: most commands in 4 bytes, an eighth of what a `Command` takes.
#![tactic(auto)]

mod draws;
mod early_commands;
mod form;
mod lists;
mod made_commands;
mod packed_command;
mod short_commands;
mod stored_command;
mod stored_trace;
mod wide_commands;

pub use lists::{commands_of, stored_traces};
pub use packed_command::PackedCommand;
pub use stored_command::StoredCommand;
pub use stored_trace::StoredTrace;
