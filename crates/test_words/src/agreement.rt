//! Whether two readings of a command line agree.

use clap::ArgMatches;
use clap::error::ErrorKind;
use command_line::{
    Asked, EventFormat, FileOptions, FileRequest, Format, Given, Inputs, Literals, Lowering,
    Request, RunOptions, Sizes, Take, Topic, option_value, read_given, read_words, version_line,
};
use command_texts::{help_text, mistake_text, program_command};
use mode::Mode;
use std::alloc::Global;
use std::fmt;

/// How many lists of words ask for each thing.
#[derive(Debug, Drop)]
pub struct Tally {
    requests: u64,
    helps: u64,
    versions: u64,
    mistakes: u64,
    /// Lists for which the two readings, or the two texts, differ.
    differing: u64,
}

/// What both readings say of a list of words.
#[derive(Clone, Copy, Debug, PartialEq, Eq)]
pub enum Agreed {
    Request,
    Help,
    Version,
    Mistake,
    Differing,
}

impl Tally {
    pub fn new() -> Tally {
        Tally {
            requests: 0,
            helps: 0,
            versions: 0,
            mistakes: 0,
            differing: 0,
        }
    }

    pub fn add(&mut self, agreed: Agreed) {
        let count = match agreed {
            Agreed::Request => &mut self.requests,
            Agreed::Help => &mut self.helps,
            Agreed::Version => &mut self.versions,
            Agreed::Mistake => &mut self.mistakes,
            Agreed::Differing => &mut self.differing,
        };
        *count = count.saturating_add(1);
    }
}

impl fmt::Display for Tally {
    fn fmt<W: fmt::Write>(&self, f: &mut fmt::Formatter<W>) -> fmt::Result {
        write!(
            f,
            "{} requests, {} of help, {} of the version, {} mistakes, {} differ",
            self.requests, self.helps, self.versions, self.mistakes, self.differing
        )
    }
}

fn mode_in(word: &str) -> Option<Mode> {
    if word == "one" {
        Some(Mode::One)
    } else if word == "rounds" {
        Some(Mode::Rounds)
    } else if word == "free" {
        Some(Mode::Free)
    } else {
        None
    }
}

fn take_in(word: &str) -> Option<Take> {
    if word == "oldest" {
        Some(Take::Oldest)
    } else if word == "depth" {
        Some(Take::Depth)
    } else {
        None
    }
}

/// The options with this number of frames.
fn options_with(matches: &ArgMatches<'_>, frames: u64) -> Option<RunOptions> {
    Some(RunOptions {
        elements: matches.get_one::<u64>("elements")?,
        frames,
        steps: matches.get_one::<u64>("steps")?,
        mode: mode_in(matches.get_str("mode")?),
        turn: matches.get_one::<u64>("turn"),
        take: take_in(matches.get_str("take")?),
    })
}

fn options_in(matches: &ArgMatches<'_>) -> Option<RunOptions> {
    options_with(matches, matches.get_one::<u64>("frames")?)
}

/// A run, with `enough` frames or with a number of them.
fn run_in(matches: &ArgMatches<'_>) -> Option<Request> {
    if matches.get_str("frames")? == "enough" {
        Some(Request::RunEnough(options_with(matches, 256)?))
    } else {
        Some(Request::Run(options_in(matches)?))
    }
}

fn options_without_mode(matches: &ArgMatches<'_>) -> Option<RunOptions> {
    Some(RunOptions {
        elements: matches.get_one::<u64>("elements")?,
        frames: matches.get_one::<u64>("frames")?,
        steps: matches.get_one::<u64>("steps")?,
        mode: Some(Mode::One),
        turn: None,
        take: take_in(matches.get_str("take")?),
    })
}

fn format_in(word: &str) -> Option<Format> {
    if word == "text" {
        Some(Format::Events(EventFormat::Lines))
    } else if word == "chrome" {
        Some(Format::Events(EventFormat::Chrome))
    } else if word == "html" {
        Some(Format::Html)
    } else if word == "json" {
        Some(Format::Events(EventFormat::Lines))
    } else {
        None
    }
}

fn literals_in(matches: &ArgMatches<'_>) -> Literals {
    if matches.get_flag("literals") {
        Literals::Included
    } else {
        Literals::Omitted
    }
}

fn lowering_in(matches: &ArgMatches<'_>) -> Lowering {
    if matches.get_flag("map") {
        Lowering::Map
    } else {
        Lowering::Graph
    }
}

/// Whether the numbers of elements are those in this list.
fn are_sizes(sizes: Sizes, words: &[&str]) -> bool {
    (0..64).all(|size: u64| {
        sizes.has(size)
            == words.iter().any(|word| match word.parse::<u64>() {
                Ok(number) => number.min(63) == size,
                Err(_fault) => false,
            })
    })
}

/// Whether `clap` reads these options and sizes of a profile.
fn are_profile_options(matches: &ArgMatches<'_>, options: &RunOptions, sizes: Sizes) -> bool {
    matches.get_one::<u64>("frames") == Some(options.frames)
        && matches.get_one::<u64>("steps") == Some(options.steps)
        && options.elements == 1
        && options.mode == Some(Mode::One)
        && matches.get_str("take").and_then(take_in) == options.take
        && are_sizes(sizes, matches.get_strs("elements").unwrap_or(&[]))
}

/// The request that `clap` reads, except for its inputs and lists.
fn request_in(matches: &ArgMatches<'_>) -> Option<Request> {
    match matches.subcommand() {
        Some(("run", run)) => run_in(run),
        Some(("check", _)) => Some(Request::Check),
        Some(("compile", _)) => Some(Request::Compile),
        Some(("dis", dis)) if dis.get_flag("map") => Some(Request::Compile),
        Some(("dis", dis)) => Some(Request::Dis {
            literals: literals_in(dis),
        }),
        Some(("upgrade", _)) => Some(Request::Upgrade),
        Some(("mean", mean)) => Some(Request::Mean {
            steps: mean.get_one::<u64>("steps")?,
        }),
        Some(("dot", dot)) => Some(Request::Dot {
            code: dot.get_flag("code"),
        }),
        Some(("asm", _)) => Some(Request::Asm),
        Some(("lower", lower)) => Some(Request::Lower(lowering_in(lower))),
        Some(("trace", trace)) => Some(Request::Trace {
            options: options_in(trace)?,
            last: trace.get_one::<u64>("last"),
            format: format_in(trace.get_str("format")?)?,
        }),
        Some(("orders", orders)) => Some(Request::Orders {
            options: options_without_mode(orders)?,
            count: orders.get_one::<u64>("count")?,
            seed: orders.get_one::<u64>("seed")?,
        }),
        _ => None,
    }
}

fn are_same(a: &RunOptions, b: &RunOptions) -> bool {
    a.elements == b.elements
        && a.frames == b.frames
        && a.steps == b.steps
        && a.mode == b.mode
        && a.turn == b.turn
        && a.take == b.take
}

fn is_integer(word: &str) -> bool {
    graph_file::literal(word.as_bytes()).is_some()
}

/// Whether the inputs are what these words say.
fn are_inputs(inputs: &Inputs, words: &[&str]) -> bool {
    match inputs {
        Inputs::Integers(integers) => {
            let integers = integers.as_slice();
            integers.len() == words.len()
                && words.iter().zip(integers).all(|(word, integer)| graph_file::literal(
                    word.as_bytes(),
                ) == Some(*integer))
        }
        Inputs::NoInteger(number) => {
            match (
                words.iter().position(|word| !is_integer(word)),
                number.checked_sub(1),
            ) {
                (Some(found), Some(told)) => found as u64 == told,
                _ => false,
            }
        }
        Inputs::TooMany => words.len() > 16,
    }
}

/// Whether `clap` reads these inputs of an object where no file is named: its first word is that of the file there.
fn are_inputs_of_object(alloc: Global, inputs: &Inputs, exec: &ArgMatches<'_>) -> bool {
    let mut words = Vec::new(alloc);
    if let Some(first) = exec.get_str("FILE") {
        if words.push(first).is_err() {
            return false;
        }
    }
    for word in exec.get_strs("INPUT").unwrap_or(&[]) {
        if words.push(*word).is_err() {
            return false;
        }
    }
    are_inputs(inputs, words.as_slice())
}

/// Whether the command works on a program, so that it may warn of it.
fn may_warn(command: &str) -> bool {
    !matches!(command, "exec" | "upgrade" | "asm")
}

/// Whether the command prints the code of a graph, so that its map may be asked for.
fn prints_code(command: &str) -> bool {
    matches!(command, "compile" | "dis")
}

/// Whether the command prints lines alone, so that their format may be said.
fn prints_lines(command: &str) -> bool {
    matches!(
        command,
        "run" | "mean" | "check" | "profile" | "orders" | "lower"
    )
}

/// Whether `clap` reads a format of a file's lines.
fn is_format_said(command: &str, matches: &ArgMatches<'_>) -> bool {
    match matches.get_str("format") {
        Some("json") => prints_lines(command) || command == "trace",
        Some(_format) => prints_lines(command),
        None => false,
    }
}

/// Whether `clap` reads these options of a file, with these values among the words.
fn are_options_read(
    options: FileOptions,
    words: &[&str],
    command: &str,
    matches: &ArgMatches<'_>,
) -> bool {
    let cells = option_value("cells", words);
    let grid = option_value("grid", words);
    let is_quiet = may_warn(command) && matches.get_flag("quiet");
    let is_format = is_format_said(command, matches);
    let is_map = prints_code(command) && matches.get_flag("map");
    options.cells == cells.is_some()
        && options.grid == grid.is_some()
        && options.quiet == is_quiet
        && options.map == is_map
        && options.format == is_format
        && (!options.cells || matches.get_str("cells") == cells)
        && (!options.grid || matches.get_str("grid") == grid)
}

/// Whether `clap` reads this file and these inputs after it, and the options of a file among these words.
fn is_file_read(file: &FileRequest<'_>, all: &[&str], matches: &ArgMatches<'_>) -> bool {
    let Some((command, of_command)) = matches.subcommand() else {
        return false;
    };
    let words = of_command.get_strs("INPUT").unwrap_or(&[]);
    let inputs = match &file.request {
        Request::Exec { inputs, .. } => inputs,
        _ => &file.inputs,
    };
    of_command.get_str("FILE") == Some(file.name.text)
        && are_inputs(inputs, words)
        && are_options_read(file.options, all, command, of_command)
        && is_request_read(&file.request, matches)
}

/// Whether `clap` reads this request, but for its inputs.
fn is_request_read(request: &Request, matches: &ArgMatches<'_>) -> bool {
    match (request, matches.subcommand()) {
        (Request::Exec { options, .. }, Some(("exec", exec))) => match options_in(exec) {
            Some(other) => are_same(options, &other),
            None => false,
        },
        (
            Request::Profile {
                options,
                sizes,
                svg,
            },
            Some(("profile", profile)),
        ) => are_profile_options(profile, options, *sizes) && profile.get_flag("svg") == *svg,
        _ => match request_in(matches) {
            Some(other) => is_same(request, &other),
            None => false,
        },
    }
}

/// Whether `clap` reads this request, where no file is named.
fn is_read(alloc: Global, request: &Request, matches: &ArgMatches<'_>) -> bool {
    match (request, matches.subcommand()) {
        (Request::Exec { options, inputs }, Some(("exec", exec))) => {
            match options_in(exec) {
                Some(other) => {
                    are_same(options, &other) && are_inputs_of_object(alloc, inputs, exec)
                }
                None => false,
            }
        }
        _ => is_request_read(request, matches),
    }
}

fn is_same(a: &Request, b: &Request) -> bool {
    match (a, b) {
        (Request::Run(a), Request::Run(b)) => are_same(a, b),
        (Request::RunEnough(a), Request::RunEnough(b)) => are_same(a, b),
        (Request::Mean { steps: a }, Request::Mean { steps: b }) => *a == *b,
        (Request::Dot { code: a }, Request::Dot { code: b }) => *a == *b,
        (Request::Check, Request::Check) => true,
        (Request::Compile, Request::Compile) => true,
        (Request::Dis { literals: a }, Request::Dis { literals: b }) => *a == *b,
        (Request::Upgrade, Request::Upgrade) => true,
        (Request::Asm, Request::Asm) => true,
        (Request::Lower(a), Request::Lower(b)) => *a == *b,
        (
            Request::Trace {
                options: a,
                last: b,
                format: c,
            },
            Request::Trace {
                options: d,
                last: e,
                format: f,
            },
        ) => are_same(a, d) && *b == *e && *c == *f,
        (
            Request::Orders {
                options: a,
                count: b,
                seed: c,
            },
            Request::Orders {
                options: d,
                count: e,
                seed: f,
            },
        ) => are_same(a, d) && *b == *e && *c == *f,
        _ => false,
    }
}

fn is_text(text: &Option<String>, bytes: &[u8]) -> bool {
    match text {
        Some(text) => text.as_bytes() == bytes,
        None => false,
    }
}

fn agreed_if(agrees: bool, agreed: Agreed) -> Agreed {
    if agrees { agreed } else { Agreed::Differing }
}

/// What both readings say of the words, the first of which is the program's name. For help, the version and a mistake the texts
/// have to agree too.
pub fn agree_on(alloc: Global, words: &[&str]) -> anyhow::Result<Agreed> {
    let rest = words.get(1..).unwrap_or(&[]);
    let given = read_given(rest);
    let asked = match &given {
        Given::Help(command) => Asked::Help(Topic::Of(*command)),
        _ => read_words(rest),
    };
    let error = match program_command(alloc, words)?.try_get_matches_from(words) {
        Ok(matches) => {
            let agrees = match (&given, &asked) {
                (Given::File(file), _) => is_file_read(file, rest, &matches),
                (_, Asked::Request(request)) => is_read(alloc, request, &matches),
                _ => false,
            };
            return Ok(agreed_if(agrees, Agreed::Request));
        }
        Err(error) => error,
    };
    let text = format!(in alloc; "{error}")?;
    let bytes = text.as_bytes();
    Ok(match asked {
        Asked::Request(_request) => Agreed::Differing,
        Asked::Help(topic) => agreed_if(
            error.kind() == ErrorKind::DisplayHelp
                && is_text(&help_text(alloc, "ets", topic)?, bytes),
            Agreed::Help,
        ),
        Asked::Version => agreed_if(
            error.kind() == ErrorKind::DisplayVersion && version_line() == bytes,
            Agreed::Version,
        ),
        Asked::Mistake => agreed_if(
            error.use_stderr() && is_text(&mistake_text(alloc, words)?, bytes),
            Agreed::Mistake,
        ),
    })
}
