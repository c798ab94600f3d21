//! Text formats: reads and prints traces in the format `mmtrace 1`, and prints replies.
#![tactic(auto)]

mod argument;
mod arity;
mod commands;
mod digits;
mod fault;
mod good_lines;
mod laws;
mod limits;
mod line_reader;
mod lines;
mod many_digits;
mod numerals;
mod op;
mod printer;
mod reader;
mod short_line;
mod splitter;
mod tokens;
mod trace_reader;
mod traces;

pub use fault::{TraceFault, Why};
pub use good_lines::first_command;
pub use laws::{
    texts_have_one_list, traces_are_valid, traces_have_one_text, worked_limits, worked_lines,
    worked_replies, worked_traces,
};
pub use limits::MAX_COMMANDS;
pub use lines::command_of;
pub use numerals::read_numeral;
pub use printer::{
    REPLY_BYTES, print_decimal, print_mutator, print_replies, print_reply, put_mutator, put_reply,
};
pub use reader::read_trace;
pub use trace_reader::TraceReader;
pub use traces::print_trace;
