// The program `explain`: crates/program has all of it.
#![tactic(auto)]

use std::process::ExitCode;

fn main(rt: HostRuntime) -> ExitCode {
    program::explain_run(&rt)
}
