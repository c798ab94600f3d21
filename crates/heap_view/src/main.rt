//! `heap_view`: draws the heap of a run, from the text that `mm_drive --map` prints.
#![tactic(auto)]

use heap_picture::program;
use std::env;
use std::process::ExitCode;

fn main(rt: HostRuntime) -> ExitCode {
    ExitCode::from(program(&rt, rt.alloc(), env::args(&rt), rt.stdout(), rt.stderr()))
}
