// The program `shelf`: crates/program has all of it.
#![tactic(auto)]

use std::process::ExitCode;

fn main(rt: HostRuntime) -> ExitCode {
    program::shelf_run(&rt)
}
