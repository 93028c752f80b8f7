//! The texts of the command line: its help, and what is wrong with it.
//!
//! `clap` makes these texts. What a command line asks for is decided by `command_line` alone, whose reader is proved; the
//! functions here are called only where a command line asks for help or is a mistake. So `clap` is trusted only for the bytes
//! of such a text. Where `clap` has no text, because it would read the words in another way, the answer is `None`
//! (`test_words` finds no such words).
#![tactic(auto)]

use clap::builder::ValueParser;
use clap::error::{Error, ErrorKind};
use clap::{Arg, ArgAction, Command, value_parser};
use command_line::{Given, Request, Take, Topic, is_grid, option_value, read_given};
use std::alloc::{AllocError, Global};
use std::convert::AsStr;

/// The version of the program and the kit that it is made with, as in `command_line::version_line`.
const VERSION: &str = "0.3.6 (rattle-kit-13f)";

/// The formats in which a trace may be written.
const FORMATS: [&str; 4] = ["text", "chrome", "html", "json"];

/// The formats in which lines may be written.
const LINE_FORMATS: [&str; 2] = ["text", "json"];

/// The end of the program's help.
const AFTER: &str = "\
Examples, in a clone of the project:
  ets run examples/factorial.df 20                runs a program on the input 20
  ets run examples/add.ets                        runs a graph on the inputs after it
  ets run --elements 16 examples/fibonacci.df 10  runs it on 16 processing elements
  ets mean examples/add.ets 2 3                   runs its meaning, without code
  ets check examples/fibonacci.df                 says whether its graph is good
  ets compile examples/fibonacci.df > object      makes its code
  ets exec object 10                              runs the object on the input 10
  ets dis object                                  lists the code
  ets dot examples/fibonacci.df | dot -Tsvg > fibonacci.svg  draws the graph
  ets dot --code object | dot -Tsvg > code.svg    draws the code
  ets upgrade object > object2                    makes version 2 of it
  ets dis object > listing                        keeps the listing, to be changed by hand
  ets asm listing > object                        makes an object of a listing
  ets trace --last 20 examples/factorial.df 5     prints the last 20 events of a run
  ets profile examples/fibonacci.df 15            measures how much parallelism there is
  ets orders examples/fibonacci.df 5              runs a program in 100 random orders
  ets lower examples/factorial.df                 lowers a program to a graph, with the program's inputs
  ets lower < examples/factorial.df | ets run     the same run, without names: each command reads standard input

A file that is named has a program, a graph or an object, as its first bytes show; `-` is standard input. The words after it are
inputs, in place of those in the file. With a file a run has 1024 frames for each element and 4294967296 steps, and takes
tokens by depth, where nothing else is said; without one it has the defaults that the help on each command shows.

The language of programs: docs/LANGUAGE.md. Graphs, inputs, reports, objects and all refusals: docs/FORMATS.md.
Programs and graphs to try: examples/README.md.

Exit status: 0 done, or a run that ended at rest; 1 a refusal, a mistake in the command line, or a failed write;
  2 a run that starved; 3 a cell that was filled twice; 4 out of steps; 5 stuck; 6 out of memory in a run.
After a refusal, a mistake, a failed write, and a report or a profile that does not end at rest, there is a
  hint on standard error; after profile --svg and trace --format chrome or html there is none for the end.";

/// The end of the help of `ets lower`.
const AFTER_LOWER: &str = "\
Examples: ets lower examples/factorial.df
          ets lower --map examples/factorial.df
          ets lower < examples/factorial.df | ets run
The language, with its refusals: docs/LANGUAGE.md. What is printed: docs/FORMATS.md, \"Lowering: `ets lower`\".";

/// The end of the help of `ets run`.
const AFTER_RUN: &str = "\
Examples: ets run examples/factorial.df 20
          ets run --elements 4 --frames enough examples/factorial.df 20
          ets run --cells C --grid C=8 examples/matrix_product.df 8
          ets run --elements 4 --frames 64 < examples/factorial.ets
The report, the ends of a run and their exit statuses: docs/FORMATS.md, \"Report of `ets run`\".";

const AFTER_MEAN: &str = "\
Examples: ets mean examples/factorial.df 20
          ets mean --steps 5000 < examples/factorial.ets
What it prints: docs/FORMATS.md, \"`ets mean`\".";

const AFTER_CHECK: &str = "\
Examples: ets check examples/factorial.df
          sed '/^main /q' examples/add.ets | ets check
It prints `ok`, status 0, or a refusal, status 1: docs/FORMATS.md, \"Graph text\".";

const AFTER_COMPILE: &str = "\
Examples: ets compile examples/factorial.df > object
          sed '/^main /q' examples/add.ets | ets compile > object
          ets compile --map examples/factorial.df
The object file: docs/FORMATS.md, \"Object file\".";

const AFTER_DIS: &str = "\
Examples: ets dis examples/add.etsobject
          ets dis --literals < object | ets asm > again
          ets dis --map examples/factorial.df
The listing: docs/FORMATS.md, \"Listing of `ets dis`\".";

const AFTER_UPGRADE: &str = "\
Example: ets upgrade examples/add.etsobject > object2
The versions of the object file: docs/FORMATS.md, \"Object file\".";

const AFTER_DOT: &str = "\
Examples: ets dot examples/factorial.df | dot -Tsvg > factorial.svg
          sed '/^main /q' examples/add.ets | ets dot | dot -Tsvg > add.svg
          ets dot --code examples/add.etsobject | dot -Tsvg > code.svg
What is drawn: docs/FORMATS.md, \"Pictures: `ets dot`\".";

const AFTER_EXEC: &str = "\
Examples: ets exec examples/add.etsobject 2 3
          ets exec --elements 4 examples/add.etsobject -- -7 3
          ets exec 2 3 < examples/add.etsobject
A first word that is an integer is an input; a file that has such a name is ./NAME.
What it prints, and its exit statuses: docs/FORMATS.md, \"`ets exec`\".";

const AFTER_ASM: &str = "\
Examples: ets asm listing > object
          ets dis < examples/add.etsobject | ets asm > object
How a listing is written: docs/FORMATS.md, \"Assembling: `ets asm`\".";

const AFTER_TRACE: &str = "\
Examples: ets trace examples/factorial.df 5
          ets trace --elements 4 --format chrome examples/fibonacci.df 8 > trace.json
          ets trace --format html < examples/factorial.ets > run.html
The lines, the JSON, which Perfetto and browsers' tracing pages open, and the page: docs/FORMATS.md, \"Trace\".";

const AFTER_PROFILE: &str = "\
Examples: ets profile examples/fibonacci.df 15
          ets profile --svg < examples/fibonacci.ets > fibonacci.svg
What is measured: docs/FORMATS.md, \"Profile\".";

const AFTER_ORDERS: &str = "\
Examples: ets orders examples/fibonacci.df 5
          ets orders --elements 3 --count 1000 --seed 7 < examples/fibonacci.ets
It prints `orders N same` and the report that all orders have, or the first order with another report than order 1 has,
status 1: docs/FORMATS.md, \"Orders\".";

/// What is said of a run where the words do not say it.
#[derive(Clone, Copy)]
struct Defaults {
    frames: &'static str,
    steps: &'static str,
    take: &'static str,
}

/// The defaults for standard input.
const USUAL: Defaults = Defaults {
    frames: "256",
    steps: "1000000",
    take: "oldest",
};

/// The defaults for the file that the words name, if they name one.
fn defaults_of<S: AsStr>(words: &[S]) -> Defaults {
    let Given::File(file) = read_given(words.get(1..).unwrap_or(words)) else {
        return USUAL;
    };
    let take = match file.request {
        Request::Run(options) | Request::RunEnough(options) => options.take,
        Request::Exec { options, .. }
        | Request::Trace { options, .. }
        | Request::Orders { options, .. } => options.take,
        _ => Some(Take::Depth),
    };
    Defaults {
        frames: "1024",
        steps: "4294967296",
        take: match take {
            Some(Take::Oldest) => "oldest",
            Some(Take::Depth) | None => "depth",
        },
    }
}

/// The file that has what the command reads.
fn file<'a>(alloc: Global, help: &'a str) -> Arg<'a> {
    Arg::new(alloc, "FILE").help(help)
}

/// The file of a command that runs a graph, and the inputs after it.
fn with_file_and_inputs<'a>(
    alloc: Global,
    command: Command<'a>,
) -> Result<Command<'a>, AllocError> {
    let inputs = Arg::new(alloc, "INPUT").num_args(0usize..).help(
        "an integer for each input, in place of those in FILE; `--` goes before a negative one",
    );
    command
        .arg(file(
            alloc,
            "a file with a program or a graph; - for standard input",
        ))?
        .arg(inputs)
}

fn number<'a>(alloc: Global, name: &'a str, default: &'a str, help: &'a str) -> Arg<'a> {
    Arg::new(alloc, name)
        .long(name)
        .value_name("N")
        .value_parser(value_parser!(u64))
        .default_value(default)
        .help(help)
}

fn elements<'a>(alloc: Global) -> Arg<'a> {
    number(alloc, "elements", "1", "processing elements, 1 to 16")
}

fn frames<'a>(alloc: Global, defaults: Defaults) -> Arg<'a> {
    number(
        alloc,
        "frames",
        defaults.frames,
        "frames for each element, 1 to 1024; with FILE 1024 if it is not given",
    )
}

/// The frames of `run`. Any text is a value of them where `enough` is.
fn frames_or_enough<'a>(alloc: Global, defaults: Defaults, enough: bool) -> Arg<'a> {
    let frames = number(
        alloc,
        "frames",
        defaults.frames,
        "frames for each element, 1 to 1024, with FILE 1024 if it is not given; enough: as many as suffice in every order",
    );
    if enough {
        frames.value_parser(ValueParser::String)
    } else {
        frames
    }
}

fn steps<'a>(alloc: Global, defaults: Defaults) -> Arg<'a> {
    number(
        alloc,
        "steps",
        defaults.steps,
        "steps that each element may make; with FILE 4294967296 if it is not given",
    )
}

fn take_of<'a>(alloc: Global, default: &'a str, help: &'a str) -> Arg<'a> {
    Arg::new(alloc, "take")
        .long("take")
        .value_name("ORDER")
        .default_value(default)
        .help(help)
}

fn take<'a>(alloc: Global, defaults: Defaults) -> Arg<'a> {
    take_of(
        alloc,
        defaults.take,
        "oldest: an element takes its oldest token; depth: the same, but requests for frames wait until few other tokens are left, which takes few frames; with FILE depth if it is not given",
    )
}

/// The one order of `orders`.
fn any_taken<'a>(alloc: Global, defaults: Defaults) -> Arg<'a> {
    take_of(
        alloc,
        defaults.take,
        "oldest: requests for frames do not wait, and any token may be the next; there is no other order here",
    )
}

/// The value of `--grid` as it is to be written.
const GRID: [&str; 1] = ["ARRAY=N,.."];

/// The options that say which cells a report prints, and how. They are for a file.
fn with_report_options<'a>(
    alloc: Global,
    command: Command<'a>,
    has_bad_grid: bool,
) -> Result<Command<'a>, AllocError> {
    let cells = Arg::new(alloc, "cells")
        .long("cells")
        .value_name("ARRAY,..")
        .requires_arg("FILE")?
        .help("print the full cells of these arrays of FILE, and of no other; none: no cells");
    let grid = Arg::new(alloc, "grid")
        .long("grid")
        .value_name("ARRAY=N,..")
        .requires_arg("FILE")?
        .help("print the full cells of these arrays of FILE in rows of N, with - for an empty one");
    let grid = if has_bad_grid {
        grid.value_parser(ValueParser::Names(&GRID))
            .hide_possible_values(true)
    } else {
        grid
    };
    command.arg(cells)?.arg(grid)
}

/// The option that leaves out warnings. It is for a file.
fn with_quiet<'a>(alloc: Global, command: Command<'a>) -> Result<Command<'a>, AllocError> {
    let quiet = Arg::new(alloc, "quiet")
        .long("quiet")
        .action(ArgAction::SetTrue)
        .requires_arg("FILE")?
        .help("no warnings of the program of FILE");
    command.arg(quiet)
}

/// The option that says how lines are written. It is for a file.
fn with_format<'a>(alloc: Global, command: Command<'a>) -> Result<Command<'a>, AllocError> {
    let format = Arg::new(alloc, "format")
        .long("format")
        .value_name("FORMAT")
        .value_parser(ValueParser::Names(&LINE_FORMATS))
        .requires_arg("FILE")?
        .help("text: lines, as without this; json: of FILE, all that is printed as one object");
    command.arg(format)
}

/// The option that prints the map of the code. It is for a file.
fn with_code_map<'a>(alloc: Global, command: Command<'a>) -> Result<Command<'a>, AllocError> {
    let map = Arg::new(alloc, "map")
        .long("map")
        .action(ArgAction::SetTrue)
        .requires_arg("FILE")?
        .help(
            "in place of the code of a program or a graph of FILE, for each of its instructions the node of the graph for which it was made",
        );
    command.arg(map)
}

/// Adds the options that say how to run, of which `frames` is one.
fn with_run_options<'a>(
    alloc: Global,
    command: Command<'a>,
    frames: Arg<'a>,
    defaults: Defaults,
) -> Result<Command<'a>, AllocError> {
    let mode = Arg::new(alloc, "mode")
        .long("mode")
        .value_name("MODE")
        .default_value("one")
        .help(
            "one: the elements take their oldest tokens in turn; rounds: each takes up to N of --turn in a thread of its own; free: each runs in a thread of its own, without waiting for others",
        );
    let turn = Arg::new(alloc, "turn")
        .long("turn")
        .value_name("N")
        .value_parser(value_parser!(u64))
        .help(
            "tokens that an element takes at once, 1 to 65536, where it has a thread of its own; 64 if it is not given, and 2048 in the mode free",
        );
    command
        .arg(elements(alloc))?
        .arg(frames)?
        .arg(steps(alloc, defaults))?
        .arg(mode)?
        .arg(turn)?
        .arg(take(alloc, defaults))
}

fn lower_command<'a>(alloc: Global) -> Result<Command<'a>, AllocError> {
    let map = Arg::new(alloc, "map")
        .long("map")
        .action(ArgAction::SetTrue)
        .help("in place of the graph, the place in the program of each of its nodes");
    let command = Command::new(alloc, "lower")
        .about(
            "Lowers the program of FILE or on standard input to a graph: its text, then a line `inputs` and its inputs, one a line",
        )
        .after_help(AFTER_LOWER)
        .arg(map)?
        .arg(file(alloc, "a file with a program; - for standard input"))?;
    let command = with_format(alloc, command)?;
    with_quiet(alloc, command)
}

fn run_command<'a>(
    alloc: Global,
    defaults: Defaults,
    enough: bool,
    has_bad_grid: bool,
) -> Result<Command<'a>, AllocError> {
    let command = Command::new(alloc, "run")
        .about(
            "Compiles and runs a program or a graph of FILE, or a graph on standard input, followed by its inputs, one a line",
        )
        .after_help(AFTER_RUN);
    let command = with_file_and_inputs(alloc, command)?;
    let frames = frames_or_enough(alloc, defaults, enough);
    let command = with_run_options(alloc, command, frames, defaults)?;
    let command = with_report_options(alloc, command, has_bad_grid)?;
    let command = with_format(alloc, command)?;
    with_quiet(alloc, command)
}

fn exec_command<'a>(alloc: Global, defaults: Defaults) -> Result<Command<'a>, AllocError> {
    let inputs = Arg::new(alloc, "INPUT").num_args(0usize..).help(
        "an integer for each input of the main block; `--` goes before a negative one",
    );
    let command = Command::new(alloc, "exec")
        .about("Runs the object of FILE or on standard input, on these inputs")
        .after_help(AFTER_EXEC)
        .arg(file(
            alloc,
            "a file with an object, whose name is no integer; - for standard input",
        ))?
        .arg(inputs)?;
    with_run_options(alloc, command, frames(alloc, defaults), defaults)
}

fn mean_command<'a>(
    alloc: Global,
    defaults: Defaults,
    has_bad_grid: bool,
) -> Result<Command<'a>, AllocError> {
    let steps = number(
        alloc,
        "steps",
        defaults.steps,
        "activities at most; with FILE 4294967296 if it is not given",
    );
    let command = Command::new(alloc, "mean")
        .about(
            "Runs the meaning of a program or a graph of FILE, or of a graph on standard input, without code",
        )
        .after_help(AFTER_MEAN)
        .arg(steps)?;
    let command = with_file_and_inputs(alloc, command)?;
    let command = with_report_options(alloc, command, has_bad_grid)?;
    let command = with_format(alloc, command)?;
    with_quiet(alloc, command)
}

fn dis_command<'a>(alloc: Global) -> Result<Command<'a>, AllocError> {
    let literals = Arg::new(alloc, "literals")
        .long("literals")
        .action(ArgAction::SetTrue)
        .help("the object's table of literals, too");
    let command = Command::new(alloc, "dis")
        .about("Lists the code of the object of FILE or on standard input")
        .after_help(AFTER_DIS)
        .arg(literals)?
        .arg(file(alloc, "a file with an object; - for standard input"))?;
    let command = with_code_map(alloc, command)?;
    with_quiet(alloc, command)
}

fn dot_command<'a>(alloc: Global) -> Result<Command<'a>, AllocError> {
    let code = Arg::new(alloc, "code")
        .long("code")
        .action(ArgAction::SetTrue)
        .help("the code of the object");
    let command = Command::new(alloc, "dot")
        .about(
            "Draws the graph of a program or a graph of FILE, or the graph on standard input, as text for Graphviz",
        )
        .after_help(AFTER_DOT)
        .arg(code)?
        .arg(file(
            alloc,
            "a file with a program or a graph, or with --code an object; - for standard input",
        ))?;
    with_quiet(alloc, command)
}

fn trace_command<'a>(
    alloc: Global,
    defaults: Defaults,
    is_json: bool,
) -> Result<Command<'a>, AllocError> {
    let last = Arg::new(alloc, "last")
        .long("last")
        .value_name("N")
        .value_parser(value_parser!(u64))
        .help("only the last N events of the run");
    let format = Arg::new(alloc, "format")
        .long("format")
        .value_name("FORMAT")
        .value_parser(ValueParser::Names(&FORMATS))
        .default_value("text")
        .help(
            "text: a line for each event, then the report; chrome: Trace Event JSON; html: a page that shows the run; json: of FILE, the events and the report as one object",
        );
    let format = if is_json {
        format.requires_arg("FILE")?
    } else {
        format
    };
    let command = Command::new(alloc, "trace")
        .about(
            "Runs a program or a graph of FILE, or a graph on standard input, followed by its inputs, and prints the events",
        )
        .after_help(AFTER_TRACE)
        .arg(last)?
        .arg(format)?;
    let command = with_file_and_inputs(alloc, command)?;
    let command = with_run_options(alloc, command, frames(alloc, defaults), defaults)?;
    with_quiet(alloc, command)
}

fn profile_command<'a>(alloc: Global, defaults: Defaults) -> Result<Command<'a>, AllocError> {
    let sizes = Arg::new(alloc, "elements")
        .long("elements")
        .value_name("N,..")
        .value_parser(value_parser!(u64))
        .value_delimiter(',')
        .num_args(1)
        .default_value("1,2,4,8,16")
        .help("the numbers of processing elements to be measured, each 1 to 16");
    let svg = Arg::new(alloc, "svg")
        .long("svg")
        .action(ArgAction::SetTrue)
        .help("a picture in place of lines");
    let command = Command::new(alloc, "profile")
        .about(
            "Measures the parallelism of a program or a graph of FILE, or of a graph on standard input, followed by its inputs",
        )
        .after_help(AFTER_PROFILE)
        .arg(sizes)?
        .arg(frames(alloc, defaults))?
        .arg(steps(alloc, defaults))?
        .arg(take(alloc, defaults))?
        .arg(svg)?;
    let command = with_file_and_inputs(alloc, command)?;
    let command = with_format(alloc, command)?;
    with_quiet(alloc, command)
}

fn orders_command<'a>(
    alloc: Global,
    defaults: Defaults,
    has_bad_grid: bool,
) -> Result<Command<'a>, AllocError> {
    let command = Command::new(alloc, "orders")
        .about(
            "Runs a program or a graph of FILE, or a graph on standard input, followed by its inputs, in random orders of the tokens",
        )
        .after_help(AFTER_ORDERS)
        .arg(elements(alloc))?
        .arg(frames(alloc, defaults))?
        .arg(steps(alloc, defaults))?
        .arg(any_taken(alloc, defaults))?
        .arg(number(alloc, "count", "100", "how many orders"))?
        .arg(number(alloc, "seed", "1", "which orders"))?;
    let command = with_file_and_inputs(alloc, command)?;
    let command = with_report_options(alloc, command, has_bad_grid)?;
    let command = with_format(alloc, command)?;
    with_quiet(alloc, command)
}

/// Whether these words give `--grid` a text that is no value of it.
fn has_bad_grid<S: AsStr>(words: &[S]) -> bool {
    match option_value("grid", words) {
        Some(value) => !is_grid(value),
        None => false,
    }
}

/// Whether these words give `--format` the value `json`.
fn is_json<S: AsStr>(words: &[S]) -> bool {
    option_value("format", words) == Some("json")
}

/// Whether these words give `--frames` the value `enough`.
fn has_enough<S: AsStr>(words: &[S]) -> bool {
    let mut before = "";
    for word in words {
        let word = word.as_str();
        if word == "--frames=enough" || before == "--frames" && word == "enough" {
            return true;
        }
        before = word;
    }
    false
}

/// The command line as `clap` reads these words by it.
pub fn program_command<'a, S: AsStr>(
    alloc: Global,
    words: &[S],
) -> Result<Command<'a>, AllocError> {
    let defaults = defaults_of(words);
    let bad_grid = has_bad_grid(words);
    let source = "a file with a program or a graph; - for standard input";
    let check = Command::new(alloc, "check")
        .about("Says whether a program of FILE, or a graph of FILE or on standard input, is good")
        .after_help(AFTER_CHECK)
        .arg(file(alloc, source))?;
    let compile = Command::new(alloc, "compile")
        .about(
            "Writes the object of a program or a graph of FILE, or of the graph on standard input",
        )
        .after_help(AFTER_COMPILE)
        .arg(file(alloc, source))?;
    let compile = with_code_map(alloc, compile)?;
    let upgrade = Command::new(alloc, "upgrade")
        .about("Writes the object of FILE or on standard input as version 2 of the object file")
        .after_help(AFTER_UPGRADE)
        .arg(file(alloc, "a file with an object; - for standard input"))?;
    let asm = Command::new(alloc, "asm")
        .about("Writes the object of the listing of FILE or on standard input")
        .after_help(AFTER_ASM)
        .arg(file(alloc, "a file with a listing; - for standard input"))?;
    Command::new(alloc, "ets")
        .about(
            "Compiles dataflow programs and graphs for an explicit token store machine and runs them",
        )
        .after_help(AFTER)
        .version(VERSION)
        .subcommand_required(true)
        .subcommand(lower_command(alloc)?)?
        .subcommand(with_quiet(alloc, with_format(alloc, check)?)?)?
        .subcommand(with_quiet(alloc, compile)?)?
        .subcommand(dis_command(alloc)?)?
        .subcommand(asm)?
        .subcommand(upgrade)?
        .subcommand(dot_command(alloc)?)?
        .subcommand(exec_command(alloc, defaults)?)?
        .subcommand(mean_command(alloc, defaults, bad_grid)?)?
        .subcommand(run_command(alloc, defaults, has_enough(words), bad_grid)?)?
        .subcommand(trace_command(alloc, defaults, is_json(words))?)?
        .subcommand(profile_command(alloc, defaults)?)?
        .subcommand(orders_command(alloc, defaults, bad_grid)?)
}

/// What `clap` gives instead of a reading of the words, if it has none.
fn error_of<S: AsStr>(alloc: Global, words: &[S]) -> Result<Option<Error>, AllocError> {
    match program_command(alloc, words)?.try_get_matches_from(words) {
        Ok(_matches) => Ok(None),
        Err(error) if error.kind() == ErrorKind::OutOfMemory => Err(AllocError),
        Err(error) => Ok(Some(error)),
    }
}

/// The words that ask for help on the topic.
fn words_of<'a>(alloc: Global, program: &'a str, topic: Topic) -> Result<Vec<&'a str>, AllocError> {
    let mut words = Vec::new(alloc);
    words.push(program)?;
    words.push("help")?;
    match topic {
        Topic::Program => {}
        Topic::Of(command) => words.push(command.word())?,
        Topic::Help => words.push("help")?,
    }
    Ok(words)
}

/// The help text on the topic.
pub fn help_text(alloc: Global, program: &str, topic: Topic) -> Result<Option<String>, AllocError> {
    let words = words_of(alloc, program, topic)?;
    match error_of(alloc, words.as_slice())? {
        Some(error) if !error.use_stderr() => Ok(Some(format!(in alloc; "{error}")?)),
        _ => Ok(None),
    }
}

/// What is wrong with the words. The first of them is the program's name.
pub fn mistake_text<S: AsStr>(alloc: Global, words: &[S]) -> Result<Option<String>, AllocError> {
    match error_of(alloc, words)? {
        Some(error) if error.use_stderr() => Ok(Some(format!(in alloc; "{error}")?)),
        _ => Ok(None),
    }
}
