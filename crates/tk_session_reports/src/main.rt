//! Prints the reports of scripts, made by sessions one record at a time.
//!
//! Standard input contains scripts, and after each one a line with an equals sign, which is printed
//! after its report. If a record has a fault, its text is printed in place of the remaining lines.
#![tactic(auto)]

use std::fs;
use std::io::{self, Write};
use std::process::ExitCode;
use tk_session::{Fault, Session, Text};

/// The line after a script.
const END: &[u8] = b"=";

fn main(rt: HostRuntime) -> ExitCode {
    match print_reports(&rt) {
        Ok(()) => ExitCode::from(0),
        Err(_) => ExitCode::from(1),
    }
}

/// Prints the reports of the scripts of standard input.
fn print_reports(rt: &HostRuntime) -> io::Result<()> {
    let scripts = fs::read(rt, "/dev/stdin")?;
    let mut session: Option<Session> = None;
    let mut has_fault = false;
    for line in scripts.as_slice().split(|byte| *byte == b'\n') {
        if line == END {
            if session.is_none() && !has_fault {
                println!(rt; "no record")?;
            }
            println!(rt; "=")?;
            session = None;
            has_fault = false;
        } else if !line.is_empty() && !has_fault {
            match carry_out(&mut session, line) {
                Ok(text) => rt.write_all(text.as_bytes())?,
                Err(fault) => {
                    println!(rt; "{fault}")?;
                    has_fault = true;
                }
            }
        }
    }
    Ok(())
}

/// Opens the session with the first record, or carries out a later one.
fn carry_out(session: &mut Option<Session>, line: &[u8]) -> Result<Text, Fault> {
    match session {
        Some(open) => open.record(line),
        None => {
            let (open, text) = Session::open(line)?;
            *session = Some(open);
            Ok(text)
        }
    }
}
