// The program `bijterne`: crates/program has all of it.
#![tactic(auto)]

use std::process::ExitCode;

fn main(rt: HostRuntime) -> ExitCode {
    program::bijterne_run(&rt)
}
