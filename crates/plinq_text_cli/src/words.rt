use clap::error::ErrorKind;
use clap::{Arg, ArgAction, Command};
use plinq_settings::Degree;
use std::alloc::{AllocError, Global};

/// What stands at the end of the command's help.
const AFTER_HELP: &str = r#"A query is one or more steps, parted by bars:
  filter [not] [field N [by TEXT]] contains|starts_with|ends_with|is|matches TEXT
           lets a line pass by its text, or by a field of it
  filter [not] [field N [by TEXT]] <|<=|>|>=|=|!= NUMBER   lets a line pass by a number, which has at most nine digits after the
           point: below, above and equal are <, > and = as well, and is_number lets a line pass that has one there
  filter [not] [field N [by TEXT]] length <|<=|>|>=|=|!= N   lets a line pass by how many bytes it has, or a field of it
  select field N.. [by TEXT]   puts fields in the line's place, counted from 1: between blanks, or by one byte;
           several as 1 3, 1,3 or 2-4, and a last N- is the text from that field on
  take N   ends after so many lines
  skip N   leaves out so many first lines
  take_while .. TEXT   ends before the first line that fails the test, which is one as filter has it
  skip_while .. TEXT   leaves out the lines before that one
  distinct [by line|field N.. [by TEXT]]   leaves out a line that came before, or whose fields did
  count   as the last step: writes how many lines there are
  count by line|field N.. [by TEXT]   writes how often each line or field comes: the count, a tab, the text, in the order in which
           they came first
  sum [field N] [by field N..] [by TEXT]   as the last step: writes the sum of a field's numbers, or of the first field's, for all
           lines or for each key: the sum, a tab, the key; min, max and mean do so with the least, the greatest and the mean
A TEXT stands in double quotes, in which \" \\ \t and \r are a quote, a backslash, a tab and a carriage return. Without blanks,
quotes and bars it needs none. That of matches is a regular expression with the syntax of Rust's regex, and its backslashes are
those of the expression. Steps look at bytes, so any file will do. A line feed ends a line, and stays as it is.

Lines are written in their order as soon as they are ready. Errors go to standard error.

Exit status:
  0  all lines were answered, or help was shown
  2  the words or the query were refused
  4  a line has no number where the query wants one: what was written is the answer to the lines before it
  5  memory ran out, no thread could be started, or reading or writing failed: what was written is the answer to the first lines

Example, which prints the second column of all lines but the first of a table:
  plinq lines 'skip 1 | select field 2 by ","' table.csv"#;

/// What the words ask for.
#[derive(Drop)]
pub(crate) struct Asked<'a> {
    /// The words of the query.
    pub(crate) query: &'a str,
    /// The names of files.
    pub(crate) files: Vec<&'a str>,
    /// How many workers; none for as many as cores.
    pub(crate) workers: Option<Degree>,
}

/// Reads the words of a command line, of which the first is `lines`.
///
/// # Errors
///
/// What `clap` shows in place of what is asked for.
pub(crate) fn read_words<'a>(alloc: Global, words: &'a [String]) -> Result<Asked<'a>, clap::Error> {
    let mut app = command_line(alloc)?;
    let matches = app.try_get_matches_from_mut(words)?;
    let workers = match matches.get_str("workers") {
        None | Some("auto") => None,
        Some(number) => match degree_of(number) {
            Some(degree) => Some(degree),
            None => {
                let refusal = "--workers wants a number from 1 to 64, or auto";
                return Err(app.error(ErrorKind::ValueValidation, refusal)?);
            }
        },
    };
    let mut files = Vec::new(alloc);
    if let Some(names) = matches.get_strs("files") {
        for name in names {
            files.push(*name)?;
        }
    }
    let query = matches.get_str("query").unwrap_or("");
    Ok(Asked {
        query,
        files,
        workers,
    })
}

fn degree_of(number: &str) -> Option<Degree> {
    match number.parse::<u64>() {
        Ok(number) => Degree::new(number),
        Err(_) => None,
    }
}

fn command_line<'a>(alloc: Global) -> Result<Command<'a>, AllocError> {
    let query = Arg::new(alloc, "query")
        .value_name("QUERY")
        .required(true)
        .help("The steps of the query");
    let files = Arg::new(alloc, "files")
        .value_name("FILE")
        .action(ArgAction::Append)
        .num_args(0..)
        .help(
            "Files whose lines are answered one after another, - for standard input; without any it is that",
        );
    let workers = Arg::new(alloc, "workers")
        .long("workers")
        .value_name("N")
        .help("How many workers, from 1 to 64, or auto for as many as cores, the default");
    Command::new(alloc, "lines")
        .about("Answers a query over the lines of files, or of standard input")
        .override_usage("plinq lines [OPTIONS] QUERY [FILE..]")
        .after_help(AFTER_HELP)
        .arg(workers)?
        .arg(query)?
        .arg(files)
}
