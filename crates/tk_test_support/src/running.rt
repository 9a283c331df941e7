//! Runs the jobs of a timing program that its arguments name, and prints the line of each.

use crate::turn::{Effort, TURNS, Turn};
use std::process::ExitCode;
use std::rt::Env;
use std::{env, io};

/// Names a job of a timing program.
pub trait Job: Copy {
    /// Returns the job's name, as on the command line.
    fn name(self) -> &'static str;

    /// Returns the unit of the job's time.
    fn unit(self) -> &'static str;
}

/// Runs the jobs that the process's arguments name, in the order of the jobs, and prints the line
/// of each. `turn` does a job once, and returns `None` if it fails.
///
/// Returns the exit code: 2 if the arguments are refused; 1 if a job failed, its turns gave
/// different checks, or its line couldn't be printed.
pub fn run_jobs<J, R, F>(rt: &R, jobs: &[J], turn: F) -> ExitCode
where
    J: Job,
    R: Env + AllocGlobal + Print,
    F: Fn(J, Effort) -> Option<Turn> + Drop,
    requires { F.IsAlwaysCallable turn }
{
    let Ok(words) = words_of(rt) else {
        return ExitCode::from(2);
    };
    let Some(effort) = effort_of(words.as_slice()) else {
        return ExitCode::from(2);
    };
    let mut status = 0;
    for job in jobs {
        if is_asked(words.as_slice(), job.name()) {
            let best = fastest(*job, effort, &turn);
            if !is_printed(rt, *job, effort, best) {
                status = 1;
            }
        }
    }
    ExitCode::from(status)
}

/// Returns the process's arguments. The first one is the program's name.
fn words_of(rt: &(impl Env + AllocGlobal)) -> io::Result<Vec<String>> {
    Ok(env::args(rt)?.collect(rt.alloc())?)
}

/// Returns the length of turns for these arguments: full for `time`, short without an argument.
/// Returns `None` if the second argument isn't `time`.
fn effort_of(words: &[String]) -> Option<Effort> {
    match words.get(1) {
        None => Some(Effort::Short),
        Some(word) if word.as_str() == "time" => Some(Effort::Full),
        Some(_) => None,
    }
}

/// Returns whether the arguments name this job. Without a name after `time` they name all jobs.
fn is_asked(words: &[String], name: &str) -> bool {
    for asked in words.iter().skip(2) {
        if asked.as_str() == name {
            return true;
        }
    }
    words.len() <= 2
}

/// Returns the fastest turn of a job, or `None` if a turn fails or the turns' checks differ.
fn fastest<J: Job, F: Fn(J, Effort) -> Option<Turn>>(
    job: J,
    effort: Effort,
    turn: &F,
) -> Option<Turn>
    requires { F.IsAlwaysCallable turn.now }
{
    let mut best = turn(job, effort)?;
    for _ in 1..TURNS {
        best = best.faster(turn(job, effort)?)?;
    }
    Some(best)
}

/// Prints the line of a job from its fastest turn: its name and check and, for full turns, its time
/// and unit between them.
///
/// Returns whether there was such a turn and all was printed.
fn is_printed<J: Job, R: Print>(rt: &R, job: J, effort: Effort, fastest: Option<Turn>) -> bool {
    let Some(turn) = fastest else {
        return false;
    };
    let (name, check) = (job.name(), turn.check);
    let printed = match effort {
        Effort::Short => println!(rt; "{name}\t{check}"),
        Effort::Full => {
            let (unit, thousandths) = (job.unit(), turn.thousandths());
            let (whole, part) = (thousandths / 1_000, thousandths % 1_000);
            println!(rt; "{name}\t{whole}.{part:03}\t{unit}\t{check}")
        }
    };
    printed.is_ok()
}
