ghost use Rattle.std.specs.Prelude.{◌≡◌, false, map, option_and_then, IfOk, MatchResult};
ghost use Rattle.std.specs.String.{string_bytes};
ghost use Rattle.clap.specs.Words.{app_of, found_of, kind_of, rows_of, rule_of, subcommand_rows_of};
ghost use Rattle.plinq_words.specs.Tables.{beside};
ghost use Rattle.plinq_arguments.specs.Arguments.{AddsItsShape, IsAsked, IsAskedBy, IsPlinq, Refuses, RefusesBy, arguments_in};
ghost use Rattle.plinq_arguments.specs.Arguments.{bare_app, cancel_of, cancel_rule};
ghost use Rattle.plinq_arguments.specs.Arguments.{command_names, cores_of, flag_words, merge_of, merge_rule, plain_of, plain_rule, run_app, seq_app};
ghost use Rattle.plinq_arguments.specs.Arguments.{auto_words, subcommand_app, with_command, workers_of, workers_rule};

use crate::arguments::Arguments;
use crate::command::Command;
use clap::builder::ValueParser;
use clap::error::ErrorKind;
use clap::{Arg, ArgAction, ArgMatches};
use plinq_ops::MergeOption;
use plinq_settings::{Degree, Settings};
use std::alloc::{AllocError, Global};

/// The greatest number of workers.
const MOST_WORKERS: u64 = 64;

/// The greatest number of batches after which a run can be cancelled.
const MOST_BATCHES: u64 = 4_294_967_295;

/// The version of this program: the first one of CHANGES.md.
const VERSION: &str = "1.3";

static MERGE_WORDS: [&str; 4] = ["not", "auto", "full", "default"];

static AUTO_WORDS: [&str; 1] = ["auto"];

/// What stands at the end of the program's help.
const AFTER_HELP: &str =
    r#"plinq lines QUERY [FILE..] answers a query over the lines of a text, and plinq lines --help says how. The commands above read a
document: each takes --workers with a number from 1 to 64 or auto, and --merge with one of these words:
  not      a line for each element
  auto     lines of 16 elements
  full     all elements on one line, if the query succeeds
  default  as auto

run takes --cancel-after N too, a whole number of at most 4294967295: once N lines of elements were written it stops, and
writes "plinq: cancelled" on standard error and no ending. A number that isn't reached has no effect, nor has any with an
aggregate.

run and seq take --plain too, which prints elements or the aggregate's value alone. An ending other than "end" is a line on
standard error then, and a second line says what to do about it. When its reader has gone, the run ends without a message.

As many workers as there are cores answer soonest, and more cost little: --workers auto takes as many as the process may use,
by its affinity and its container's quota. Without --workers there are 4, or as many as the query asks for by with_degree.

The first mistake of a refused document is shown, as these are:
  not JSON         no JSON text of UTF-8, or one that is nested more than 127 deep
  wrong shape      a name or a value is missing, or isn't one that a document may have
  step K: unknown  step K of the query, counted from 0, is none of the steps, or has other values than that step
plinq-check < DOCUMENT says where a mistake is, and what can stand there. Editors can use plinq.schema.json. plan checks
a document, and asks its source for nothing. man plinq has all sources, steps and formulas.

A text that isn't whole numbers parted by spaces and line feeds ends in one of these:
  refused 1  a token is no whole number, as a heading, 1.5 and 1,2 are none, nor one with a tab or a carriage return
  refused 2  a whole number is outside 64 bits

Exit status:
  0  the answer came to its end, or help or the version was shown
  2  the arguments or the document were refused
  3  the source refused
  4  a formula had a fault
  5  memory ran out, no thread could be started, reading or writing failed, or a run broke off or was cancelled

Example, which prints 4, 2, 5 and end, a line each:
  echo '{"version":1,"source":{"list":[3,1,4]},"query":[["as_ordered"],["select","add",1]]}' | plinq run --merge not"#;

/// What stands at the end of a command's help.
const AFTER_COMMAND_HELP: &str = r#"The words of --merge, which say how results are delivered:
  not      a line for each element
  auto     lines of 16 elements, the default
  full     all elements on one line, if the query succeeds
  default  as auto

plinq --help says what else there is to know of commands, refused documents and statuses."#;

/// Reads a command line, of which the first word is the program's name.
///
/// # Errors
///
/// What `clap` shows in place of arguments, in its words: why it refuses the command line, the help that this asks for,
/// or that memory ran out. Its kind says which.
pub fn read_arguments(alloc: Global, words: &[String]) -> Result<Arguments, clap::Error>
    ensures { MatchResult result (IsAsked (map string_bytes words.now)) (λ e. Refuses (map string_bytes words.now) (kind_of e)) }
{
    let refusal = match read_by(alloc, ValueParser::unsigned(1, MOST_WORKERS), words) {
        Ok(arguments) => return Ok(arguments),
        Err(refusal) => refusal,
    };
    if refusal.kind() != ErrorKind::ValueValidation {
        return Err(refusal);
    }
    // (a value is no number, or too large or small: it may be the word)
    match read_by(alloc, ValueParser::from(AUTO_WORDS.as_slice()), words) {
        Ok(arguments) => Ok(arguments),
        Err(other) if other.kind() == ErrorKind::OutOfMemory => Err(other),
        Err(_) => Err(refusal),
    }
}

/// Reads a command line whose `--workers` takes what passes this parser.
///
/// # Errors
///
/// As of [`read_arguments`].
fn read_by(
    alloc: Global,
    workers: ValueParser<'_>,
    words: &[String],
) -> Result<Arguments, clap::Error>
    ensures { MatchResult result (IsAskedBy workers.entry (map string_bytes words.now))
        (λ e. RefusesBy workers.entry (map string_bytes words.now) (kind_of e)) }
{
    let mut app = command_line(alloc, workers)?;
    let matches = app.try_get_matches_from_mut(words)?;
    match chosen(&matches) {
        Some(arguments) => Ok(arguments),
        None => Err(app.error(ErrorKind::MissingSubcommand, "a command is needed")?),
    }
}

/// The program's command line.
fn command_line<'a>(
    alloc: Global,
    workers: ValueParser<'a>,
) -> Result<clap::Command<'a>, AllocError>
    ensures { IfOk result (λ app. IsPlinq workers.entry (app_of app)) }
{
    let merge = ValueParser::from(MERGE_WORDS.as_slice());
    let with_run = bare_command(alloc).subcommand(run_command(alloc, workers, merge)?)?;
    let with_seq = with_run.subcommand(seq_command(alloc, workers, merge)?)?;
    let with_plan = with_subcommand(
        alloc,
        with_seq,
        "plan",
        "plinq plan [OPTIONS] < DOCUMENT",
        "Shows how the query is shared among workers",
        workers,
        merge,
    )?;
    let with_parts = with_subcommand(
        alloc,
        with_plan,
        "parts",
        "plinq parts [OPTIONS] < DOCUMENT",
        "Shows the source cut into partitions",
        workers,
        merge,
    )?;
    with_subcommand(
        alloc,
        with_parts,
        "history",
        "plinq history [OPTIONS] < DOCUMENT",
        "Shows the requests of partitions that take from the source in turn",
        workers,
        merge,
    )
}

/// The program's command line before it has a subcommand.
fn bare_command<'a>(alloc: Global) -> clap::Command<'a>
    ensures { app_of result ≡ bare_app }
{
    clap::Command::new(alloc, "plinq")
        .about("Answers the query of a JSON document, which it reads from standard input")
        .version(VERSION)
        .override_usage("plinq <COMMAND> [OPTIONS] < DOCUMENT")
        .after_help(AFTER_HELP)
        .disable_help_subcommand(true)
        .subcommand_required(true)
}

/// Adds a subcommand that has the two options of the settings.
fn with_subcommand<'a>(
    alloc: Global,
    line: clap::Command<'a>,
    name: &'a str,
    usage: &'a str,
    about: &'a str,
    workers: ValueParser<'a>,
    merge_words: ValueParser<'a>,
) -> Result<clap::Command<'a>, AllocError>
    ensures { IfOk result (λ app. app_of app ≡ with_command (app_of line.entry) (subcommand_app workers.entry merge_words.entry name.entry.now)) }
{
    let sub = subcommand(alloc, name, usage, about, workers, merge_words)?;
    line.subcommand(sub)
}

/// The command line of `run`, which alone can be cancelled.
fn run_command<'a>(
    alloc: Global,
    workers: ValueParser<'a>,
    merge_words: ValueParser<'a>,
) -> Result<clap::Command<'a>, AllocError>
    ensures { IfOk result (λ s. AddsItsShape s × (app_of s ≡ run_app workers.entry merge_words.entry)) }
{
    let run = subcommand(
        alloc,
        "run",
        "plinq run [OPTIONS] < DOCUMENT",
        "Answers the query",
        workers,
        merge_words,
    )?;
    let with_plain = run.arg(plain_option(alloc))?;
    with_plain.arg(cancel_after_option(alloc))
}

/// The command line of `seq`.
fn seq_command<'a>(
    alloc: Global,
    workers: ValueParser<'a>,
    merge_words: ValueParser<'a>,
) -> Result<clap::Command<'a>, AllocError>
    ensures { IfOk result (λ s. AddsItsShape s × (app_of s ≡ seq_app workers.entry merge_words.entry)) }
{
    let seq = subcommand(
        alloc,
        "seq",
        "plinq seq [OPTIONS] < DOCUMENT",
        "Answers the query on one thread, whatever --workers says",
        workers,
        merge_words,
    )?;
    seq.arg(plain_option(alloc))
}

/// A subcommand that has the two options of the settings.
fn subcommand<'a>(
    alloc: Global,
    name: &'a str,
    usage: &'a str,
    about: &'a str,
    workers: ValueParser<'a>,
    merge_words: ValueParser<'a>,
) -> Result<clap::Command<'a>, AllocError>
    ensures { IfOk result (λ s. AddsItsShape s
        × (app_of s ≡ subcommand_app workers.entry merge_words.entry name.entry.now)) }
{
    clap::Command::new(alloc, name)
        .override_usage(usage)
        .about(about)
        .after_help(AFTER_COMMAND_HELP)
        .arg(workers_option(alloc, workers))?
        .arg(merge_option(alloc, merge_words))
}

/// `--workers`, which subcommands don't inherit.
fn workers_option<'a>(alloc: Global, workers: ValueParser<'a>) -> Arg<'a>
    ensures rule { rule_of result ≡ workers_rule workers.entry }
    ensures own { result.global ≡ false }
{
    Arg::new(alloc, "workers")
        .long("workers")
        .value_name("N")
        .help("How many workers, from 1 to 64, or auto for as many as cores; 4 by default")
        .value_parser(workers)
}

/// `--merge`, which takes one of these words.
fn merge_option<'a>(alloc: Global, words: ValueParser<'a>) -> Arg<'a>
    ensures rule { rule_of result ≡ merge_rule words.entry }
    ensures own { result.global ≡ false }
{
    Arg::new(alloc, "merge")
        .long("merge")
        .value_name("OPTION")
        .help("How results are delivered")
        .value_parser(words)
}

/// `--cancel-after`, which `run` alone has.
fn cancel_after_option<'a>(alloc: Global) -> Arg<'a>
    ensures rule { rule_of result ≡ cancel_rule }
    ensures own { result.global ≡ false }
{
    Arg::new(alloc, "cancel-after")
        .long("cancel-after")
        .value_name("N")
        .help("Cancels the run once N lines of elements were written")
        .value_parser(ValueParser::unsigned(0, MOST_BATCHES))
}

/// `--plain`, which `run` and `seq` have.
fn plain_option<'a>(alloc: Global) -> Arg<'a>
    ensures rule { rule_of result ≡ plain_rule }
    ensures own { result.global ≡ false }
{
    Arg::new(alloc, "plain")
        .long("plain")
        .help("Prints elements alone; an ending other than end goes to standard error")
        .action(ArgAction::SetTrue)
}

fn chosen(matches: &ArgMatches<'_>) -> Option<Arguments>
    ensures { result ≡ option_and_then arguments_in (subcommand_rows_of matches.now) }
{
    let (name, options) = matches.subcommand()?;
    Some(Arguments {
        command: command_of(name, options)?,
        settings: Settings {
            workers: workers_of(options),
            merge: merge_of(options),
            cancel_after: cancel_of(options),
        },
        cores: cores_of(options).unwrap_or(false),
        plain: plain_of(options).unwrap_or(false),
    })
}

/// The command of this subcommand.
fn command_of(name: &str, _options: &ArgMatches<'_>) -> Option<Command>
    ensures { result ≡ beside (command_names (rows_of (found_of _options.now))) name.now }
{
    match name {
        "run" => Some(Command::Run),
        "seq" => Some(Command::Seq),
        "plan" => Some(Command::Plan),
        "parts" => Some(Command::Parts),
        "history" => Some(Command::History),
        _ => None,
    }
}

/// The number of workers that is asked for; `clap` has refused any that is no degree.
fn workers_of(options: &ArgMatches<'_>) -> Option<Degree>
    ensures { result ≡ workers_of (rows_of (found_of options.now)) }
{
    Degree::new(options.get_one::<u64>("workers")?)
}

/// After how many batches a run is cancelled. Only `run` has the option, and `clap` has refused any other number.
fn cancel_of(options: &ArgMatches<'_>) -> Option<u64>
    ensures { result ≡ cancel_of (rows_of (found_of options.now)) }
{
    let most = options.get_one::<u64>("cancel-after")?;
    if most > MOST_BATCHES {
        return None;
    }
    Some(most)
}

fn merge_of(options: &ArgMatches<'_>) -> Option<MergeOption>
    ensures { result ≡ merge_of (rows_of (found_of options.now)) }
{
    MergeOption::named(options.get_str("merge")?)
}

/// Whether as many workers as cores are asked for, if any number or word is.
fn cores_of(options: &ArgMatches<'_>) -> Option<bool>
    ensures { result ≡ cores_of (rows_of (found_of options.now)) }
{
    is_auto(options.get_str("workers")?)
}

fn is_auto(word: &str) -> Option<bool>
    ensures { result ≡ beside auto_words word.now }
{
    match word {
        "auto" => Some(true),
        _ => None,
    }
}

/// Whether elements alone are asked for, if the command has that flag.
fn plain_of(options: &ArgMatches<'_>) -> Option<bool>
    ensures { result ≡ plain_of (rows_of (found_of options.now)) }
{
    flag_of(options.get_str("plain")?)
}

/// What a flag was set to.
fn flag_of(word: &str) -> Option<bool>
    ensures { result ≡ beside flag_words word.now }
{
    match word {
        "true" => Some(true),
        "false" => Some(false),
        _ => None,
    }
}
