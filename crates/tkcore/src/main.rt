//! Runs the program `tkcore`: writes reports and traces of scripts to standard output.
//!
//! | Arguments | Effect |
//! |---|---|
//! | none, or `replay` | writes the report of the script on standard input |
//! | `replay --keep N` | writes it with no limit on the commands, from a bounded journal |
//! | `trace CLOCK SCRIPT STAMPS` | writes a clock's value at each stamp of a file, in ns |
//! | `many WORKERS FILE..` | writes the reports of many scripts, made by threads |
//! | `race STEP FILE..` | lets the commands of scripts race, a thread for each script |
//!
//! Status 0: done. Status 1: a fault, on standard error or in a line of `many`. Status 2: the
//! arguments are refused, and the usage is on standard output. Status 3: a read did not give the value
//! that its record states, which a line of the report shows. docs/TKCORE.md describes arguments, records, lines and faults.
#![tactic(auto)]

use std::process::ExitCode;
use tk_program::run_and_tell;

fn main(rt: HostRuntime) -> ExitCode {
    run_and_tell(&rt, &mut rt.stdin(), &mut rt.stdout(), &mut rt.stderr())
}
