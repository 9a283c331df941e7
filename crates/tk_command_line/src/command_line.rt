//! Parses the command line.
ghost use Rattle.std.specs.Prelude.{◌≡◌, ◌≢◌, ◌⊎◌, Some, None, [], false, map, codes, string_bytes, IfErr, IfOk, IfSome, IsNone, option_map};
ghost use Rattle.clap.specs.Words.{App, all_of, app_of, fault_of, first_of, found_of, rows_of, rule_of, subcommand_of, subcommand_rows_of, with_subcommand};
ghost use Rattle.clap.specs.declared.builder.command.Command.TheViews.{out-Command};
ghost use Rattle.tk_command_line.specs.CommandLine.{Asks, IsAsked, bare_words, files_rule, files_words, keep_rule, one_script_words, program_words, replay_words, task_by, task_found, trace_words, word_rule};
ghost use Rattle.tk_script.specs.Number.{number_of};
ghost use Rattle.tk_command_line.specs.Request.{IsAllowed, keep_of, replay_by, task_of, trace_by, workers_of};

use crate::request::Request;
use crate::words_error::WordsError;
use clap::{Arg, ArgAction, ArgMatches, Command};
use std::alloc::{AllocError, Global};
use tk_keeper::KEEP_LIMIT;
use tk_pieces::WORKERS_LIMIT;
use tk_script::{clock_word, number};

/// Parses the arguments of a command line. The first one is the program's name.
///
/// All numbers of the returned request are within their ranges.
///
/// # Errors
///
/// - `Refused`: the arguments don't follow the grammar, or a value is out of its range. The program
///   has no option for help, so `--help` is refused too.
/// - `Memory`: an allocation failed. This error may replace any other result.
#[tactic(auto, unfolding(crate::specs::CommandLine::asked_by))]
pub fn asked<'a>(alloc: Global, words: &'a [String]) -> Result<Request<'a>, WordsError>
    ensures asked { IsAsked (map string_bytes words.entry.now) result }
    ensures allowed { IfOk result IsAllowed }
{
    match parsed(alloc, words) {
        Ok(matches) => request_in(alloc, &matches),
        Err(error) => Err(error),
    }
}

/// Parses the arguments by the program's grammar.
fn parsed<'a>(alloc: Global, words: &'a [String]) -> Result<ArgMatches<'a>, WordsError>
    ensures ok { IfOk result (λ matches.
        (fault_of program_words (map string_bytes words.entry.now) ≡ [])
        × (subcommand_rows_of matches
        ≡ subcommand_of program_words (map string_bytes words.entry.now))) }
    ensures err { IfErr result (λ error. error ≡ WordsError.Refused
        → fault_of program_words (map string_bytes words.entry.now) ≢ []) }
{
    let matches = program(alloc)?.try_get_matches_from(words)?;
    Ok(matches)
}

/// Makes the request from parsed arguments.
fn request_in<'a>(alloc: Global, matches: &ArgMatches<'a>) -> Result<Request<'a>, WordsError>
    ensures asked { Asks (task_found (subcommand_rows_of matches.now)) result }
    ensures allowed { IfOk result IsAllowed }
{
    match matches.subcommand() {
        None => Ok(Request::Replay { keep: None }),
        Some((name, found)) => request_by(alloc, name, found),
    }
}

/// Makes the request of a subcommand from the arguments after it.
fn request_by<'a>(
    alloc: Global,
    name: &str,
    found: &ArgMatches<'a>,
) -> Result<Request<'a>, WordsError>
    ensures asked { Asks (task_by name.now (rows_of (found_of found.now))) result }
    ensures allowed { IfOk result IsAllowed }
{
    if name == "replay" {
        replay_asked(text_in(found, "keep")).ok_or(WordsError::Refused)
    } else if name == "trace" {
        let clock = text_in(found, "CLOCK");
        let script = text_in(found, "SCRIPT");
        let stamps = text_in(found, "STAMPS");
        trace_asked(clock, script, stamps).ok_or(WordsError::Refused)
    } else if name == "many" {
        let workers = text_in(found, "WORKERS").and_then(workers_in);
        match with_files(alloc, workers, files_in(found)) {
            Ok((workers, files)) => Ok(Request::Many { workers, files }),
            Err(fault) => Err(fault),
        }
    } else if name == "race" {
        let step = text_in(found, "STEP").and_then(step_in);
        match with_files(alloc, step, files_in(found)) {
            Ok((step, files)) => Ok(Request::Race { step, files }),
            Err(fault) => Err(fault),
        }
    } else {
        Err(WordsError::Refused)
    }
}

/// Returns the text of the argument of this name, if it was found.
fn text_in<'a>(found: &ArgMatches<'a>, name: &str) -> Option<&'a str>
    ensures { option_map (λ t. t.now) result ≡ first_of name.now (rows_of (found_of found.now)) }
{
    found.get_str(name)
}

/// Returns the texts of FILE.., if they were found.
fn files_in<'a, 'b>(found: &'b ArgMatches<'a>) -> Option<&'b [&'a str]>
    ensures { option_map (λ names. map (λ t. t.now) names.now) result
        ≡ all_of (codes "FILE") (rows_of (found_of found.now)) }
{
    found.get_strs("FILE")
}

/// Makes the replay request, with the value of `--keep` if it was found.
fn replay_asked<'a>(keep: Option<&str>) -> Option<Request<'a>>
    ensures asked { option_map task_of result ≡ replay_by (option_map (λ t. t.now) keep.entry) }
    ensures allowed { IfSome result IsAllowed }
{
    let Some(text) = keep else {
        return Some(Request::Replay { keep: None });
    };
    match keep_in(text) {
        Some(keep) => Some(Request::Replay { keep: Some(keep) }),
        None => None,
    }
}

/// Parses the value of `--keep`: a number as in scripts, from 1 to 524,288.
fn keep_in(text: &str) -> Option<u64>
    ensures { result ≡ keep_of text.now }
{
    number(text.as_bytes()).filter(|keep| (1..=KEEP_LIMIT).contains(keep))
}

/// Makes the trace request from the texts of its three arguments, if all were found.
fn trace_asked<'a>(
    clock: Option<&'a str>,
    script: Option<&'a str>,
    stamps: Option<&'a str>,
) -> Option<Request<'a>>
    ensures asked { option_map task_of result
        ≡ trace_by (option_map (λ t. t.now) clock.entry) (option_map (λ t. t.now) script.entry)
        (option_map (λ t. t.now) stamps.entry) }
    ensures allowed { IfSome result IsAllowed }
{
    let (Some(word), Some(script), Some(stamps)) = (clock, script, stamps) else {
        return None;
    };
    match clock_word(word.as_bytes()) {
        Some(clock) => Some(Request::Trace {
            clock,
            script,
            stamps,
        }),
        None => None,
    }
}

/// Parses WORKERS: a number as in scripts, from 1 to 64.
fn workers_in(text: &str) -> Option<u64>
    ensures { result ≡ workers_of text.now }
{
    number(text.as_bytes()).filter(|workers| (1..=WORKERS_LIMIT as u64).contains(workers))
}

/// Parses STEP: any number as in scripts.
fn step_in(text: &str) -> Option<u64>
    ensures { result ≡ number_of text.now }
{
    number(text.as_bytes())
}

/// Returns a number, and a copy of the texts of FILE.., if both were found.
fn with_files<'a>(
    alloc: Global,
    number: Option<u64>,
    files: Option<&[&'a str]>,
) -> Result<(u64, Vec<&'a str>), WordsError>
    ensures number { IfOk result (λ found. number ≡ Some found.0) }
    ensures files { IfOk result (λ found. option_map (λ names. map (λ t. t.now) names.now) files.entry
        ≡ Some (map (λ t. t.now) found.1.items)) }
    ensures err { IfErr result (λ error. error ≡ WordsError.Refused →
        (number ≡ None) ⊎ IsNone files.entry) }
{
    let (Some(number), Some(names)) = (number, files) else {
        return Err(WordsError::Refused);
    };
    Ok((number, Vec::from_slice(alloc, names)?))
}

/// Makes the grammar of the program's arguments.
fn program<'a>(alloc: Global) -> Result<Command<'a>, AllocError>
    ensures { IfOk result (λ command. app_of command ≡ program_words) }
{
    let command = one_script_program(alloc)?;
    let command = and_words(command, files_command(alloc, "many", "WORKERS"))?;
    and_words(command, files_command(alloc, "race", "STEP"))
}

/// Makes the part of the grammar for one script: `replay` and `trace`.
fn one_script_program<'a>(alloc: Global) -> Result<Command<'a>, AllocError>
    ensures { IfOk result (λ command. app_of command ≡ one_script_words) }
{
    let command = and_words(bare_program(alloc), replay_command(alloc))?;
    and_words(command, trace_command(alloc))
}

/// Adds the grammar of a subcommand. Returns the error if it could not be made.
fn and_words<'a>(
    command: Command<'a>,
    words: Result<Command<'a>, AllocError>,
) -> Result<Command<'a>, AllocError>
    requires { IfOk words (λ made. (out-Command made).has_globals ≡ false) }
    ensures { (app : App) → IfOk words.entry (λ made. app_of made ≡ app) →
        IfOk result (λ whole. app_of whole ≡ with_subcommand (app_of command.entry) app.top) }
{
    command.subcommand(words?)
}

/// Makes the grammar without subcommands. It has no flag and no subcommand for help.
fn bare_program<'a>(alloc: Global) -> Command<'a>
    ensures { app_of result ≡ bare_words }
{
    Command::new(alloc, "tkcore")
        .disable_help_flag(true)
        .disable_help_subcommand(true)
}

/// Makes the grammar of `replay`, which may have `--keep`.
fn replay_command<'a>(alloc: Global) -> Result<Command<'a>, AllocError>
    ensures words { IfOk result (λ command. app_of command ≡ replay_words) }
    ensures local { IfOk result (λ command. (out-Command command).has_globals ≡ false) }
{
    Command::new(alloc, "replay").arg(keep_argument(alloc))
}

/// Makes the option `--keep TEXT`.
fn keep_argument<'a>(alloc: Global) -> Arg<'a>
    ensures rule { rule_of result ≡ keep_rule }
    ensures local { result.global ≡ false }
{
    Arg::new(alloc, "keep").long("keep").action(ArgAction::Set)
}

/// Makes the grammar of `trace CLOCK SCRIPT STAMPS`.
fn trace_command<'a>(alloc: Global) -> Result<Command<'a>, AllocError>
    ensures words { IfOk result (λ command. app_of command ≡ trace_words) }
    ensures local { IfOk result (λ command. (out-Command command).has_globals ≡ false) }
{
    Command::new(alloc, "trace")
        .arg(word_argument(alloc, "CLOCK"))?
        .arg(word_argument(alloc, "SCRIPT"))?
        .arg(word_argument(alloc, "STAMPS"))
}

/// Makes the grammar of `NAME NUMBER FILE..`.
fn files_command<'a>(
    alloc: Global,
    name: &'a str,
    number: &'a str,
) -> Result<Command<'a>, AllocError>
    ensures words { IfOk result (λ command.
        app_of command ≡ files_words name.entry.now number.entry.now) }
    ensures local { IfOk result (λ command. (out-Command command).has_globals ≡ false) }
{
    Command::new(alloc, name)
        .arg(word_argument(alloc, number))?
        .arg(files_argument(alloc))
}

/// Makes a required argument.
fn word_argument<'a>(alloc: Global, name: &'a str) -> Arg<'a>
    ensures rule { rule_of result ≡ word_rule name.entry.now }
    ensures local { result.global ≡ false }
{
    Arg::new(alloc, name).required(true).action(ArgAction::Set)
}

/// Makes `FILE..`, one or more arguments.
fn files_argument<'a>(alloc: Global) -> Arg<'a>
    ensures rule { rule_of result ≡ files_rule }
    ensures local { result.global ≡ false }
{
    Arg::new(alloc, "FILE")
        .required(true)
        .action(ArgAction::Append)
}
