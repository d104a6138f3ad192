//! The program `invite`: the command line of `command_line`, over the standard streams.
#![tactic(auto)]

use std::process::ExitCode;

fn main(rt: HostRuntime) -> ExitCode {
    command_line::run(&rt, &rt)
}
