//! `mm_drive`: runs traces of commands on a managed heap, and prints the replies.
#![tactic(auto)]

use driver::program;
use std::env;
use std::process::ExitCode;

fn main(rt: HostRuntime) -> ExitCode {
    ExitCode::from(program(&rt, rt.alloc(), env::args(&rt), rt.stdout(), rt.stderr()))
}
