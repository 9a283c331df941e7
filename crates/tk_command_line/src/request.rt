use tk_clock::ClockId;

/// Contains a request to the program: a variant for each subcommand.
#[derive(Debug, Drop, PartialEq, Eq)]
pub enum Request<'a> {
    /// `replay`, or no argument: the report of the script on standard input.
    Replay {
        /// The N of `--keep N`, from 1 to 524,288: the number of entries that a full journal is
        /// folded to. `None` means that a full journal refuses commands. The journal of clocks that
        /// a discipline steers is never folded.
        keep: Option<u64>,
    },
    /// `trace CLOCK SCRIPT STAMPS`: the value of a clock at each stamp of a file.
    Trace {
        /// The clock to read at each stamp.
        clock: ClockId,
        /// The name of the script's file.
        script: &'a str,
        /// The name of the stamp file.
        stamps: &'a str,
    },
    /// `many WORKERS FILE..`: the reports of many scripts, made by threads.
    Many {
        /// The greatest number of threads, from 1 to 64.
        workers: u64,
        /// The names of the scripts' files.
        files: Vec<&'a str>,
    },
    /// `race STEP FILE..`: the commands of scripts on one keeper, a thread for each script.
    Race {
        /// The number of cycles that the counter moves on at each command.
        step: u64,
        /// The names of the scripts' files.
        files: Vec<&'a str>,
    },
}
