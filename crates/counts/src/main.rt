// The program `counts`: crates/program has all of it.
#![tactic(auto)]

use std::process::ExitCode;

fn main(rt: HostRuntime) -> ExitCode {
    program::counts_run(&rt)
}
