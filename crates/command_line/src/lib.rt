//! The command line of `ets`: which request the words are.
#![tactic(auto)]

ghost use Rattle.std.specs.Prelude.{◌≡◌, map};
ghost use Rattle.command_line.specs.Words.{after_end, asked, asked_of, command_named, ended, help_asked, no_command_asked, no_inputs, nothing};
ghost use Rattle.command_line.specs.Words.{topic_named, version_line, with_inputs};
ghost use Rattle.command_line.specs.Files.{command_word};

mod given;
mod inputs;
mod options;
mod sizes;

pub use given::{
    FileName, FileOptions, FileRequest, Given, is_grid, option_value, read_given, row_length,
};
pub use inputs::Inputs;
use mode::Mode;
pub use options::parts_at;
use options::{
    Collected, OptionName, Step, asks_help, asks_version, request_of, takes_inputs, word_met,
};
pub use sizes::Sizes;
use std::convert::AsStr;

/// What is to be done.
#[derive(Debug, Drop)]
pub enum Request {
    /// Says whether standard input has a good graph.
    Check,
    /// Writes the object of the graph on standard input.
    Compile,
    /// Compiles and runs the graph on standard input.
    Run(RunOptions),
    /// The same, with as many frames for each element as are enough in every order. The number in the options says nothing.
    RunEnough(RunOptions),
    /// Lists the object on standard input.
    Dis {
        literals: Literals,
    },
    /// Writes the object on standard input as version 2.
    Upgrade,
    /// Runs the meaning of the graph on standard input, for at most this number of activities.
    Mean {
        steps: u64,
    },
    /// Draws the graph on standard input, or the code of the object there.
    Dot {
        code: bool,
    },
    /// Runs the object on standard input on these inputs.
    Exec {
        options: RunOptions,
        inputs: Inputs,
    },
    /// Writes the object of the listing on standard input.
    Asm,
    /// Runs the graph on standard input, and prints its events, or the last ones of them.
    Trace {
        options: RunOptions,
        last: Option<u64>,
        format: Format,
    },
    /// Measures the parallelism of the graph on standard input, with these numbers of elements; or draws it.
    Profile {
        options: RunOptions,
        sizes: Sizes,
        svg: bool,
    },
    /// Runs the graph on standard input this many times, each time in a random order.
    Orders {
        options: RunOptions,
        count: u64,
        seed: u64,
    },
    /// Lowers the program on standard input to a graph.
    Lower(Lowering),
}

/// What is written of a program that is lowered.
#[derive(Clone, Copy, Debug, PartialEq, Eq)]
pub enum Lowering {
    /// The graph's text, and the inputs.
    Graph,
    /// For each node, the place in the program that it is made for.
    Map,
}

/// Whether the table of literals follows a listing.
#[derive(Clone, Copy, Debug, PartialEq, Eq)]
pub enum Literals {
    Omitted,
    Included,
}

/// How a trace is written.
#[derive(Clone, Copy, Debug, PartialEq, Eq)]
pub enum Format {
    Events(EventFormat),
    /// A page that shows the run, with its events as data.
    Html,
}

/// How the events of a trace are written.
#[derive(Clone, Copy, Debug, PartialEq, Eq)]
pub enum EventFormat {
    /// A line for each event.
    Lines,
    /// Trace Event JSON, which browsers' tracing pages open.
    Chrome,
}

/// Which of its tokens an element takes next.
#[derive(Clone, Copy, Debug, PartialEq, Eq)]
pub enum Take {
    /// Its oldest one.
    Oldest,
    /// Its oldest one, but requests for frames wait until few other tokens are left: this takes few frames.
    Depth,
}

/// How a graph is to be run.
#[derive(Debug, Drop)]
pub struct RunOptions {
    pub elements: u64,
    /// Frames for each element.
    pub frames: u64,
    /// Steps for each element.
    pub steps: u64,
    /// `None` where the mode's word is that of no mode.
    pub mode: Option<Mode>,
    /// How many steps an element takes in one turn at most, where that was given.
    pub turn: Option<u64>,
    /// `None` where its word names no order.
    pub take: Option<Take>,
}

/// The commands.
#[derive(Clone, Copy, Debug, PartialEq, Eq)]
pub enum Command {
    Run,
    Mean,
    Check,
    Compile,
    Dis,
    Upgrade,
    Dot,
    Exec,
    Asm,
    Trace,
    Profile,
    Orders,
    Lower,
}

impl Command {
    /// The word of the command.
    pub fn word(self) -> &'static str
        ensures { result.now ≡ command_word self }
    {
        match self {
            Command::Run => "run",
            Command::Mean => "mean",
            Command::Check => "check",
            Command::Compile => "compile",
            Command::Dis => "dis",
            Command::Upgrade => "upgrade",
            Command::Dot => "dot",
            Command::Exec => "exec",
            Command::Asm => "asm",
            Command::Trace => "trace",
            Command::Profile => "profile",
            Command::Orders => "orders",
            Command::Lower => "lower",
        }
    }
}

/// The topic of a request for help.
#[derive(Clone, Copy, Debug, PartialEq, Eq)]
pub enum Topic {
    Program,
    Of(Command),
    /// The command `help` itself.
    Help,
}

/// What a command line asks for.
#[derive(Debug, Drop)]
pub enum Asked {
    Request(Request),
    Help(Topic),
    Version,
    Mistake,
}

fn command_named(word: &str) -> Option<Command>
    ensures { result ≡ command_named word.now }
{
    if word == "run" {
        Some(Command::Run)
    } else if word == "mean" {
        Some(Command::Mean)
    } else if word == "check" {
        Some(Command::Check)
    } else if word == "compile" {
        Some(Command::Compile)
    } else if word == "dis" {
        Some(Command::Dis)
    } else if word == "upgrade" {
        Some(Command::Upgrade)
    } else if word == "dot" {
        Some(Command::Dot)
    } else if word == "exec" {
        Some(Command::Exec)
    } else if word == "asm" {
        Some(Command::Asm)
    } else if word == "trace" {
        Some(Command::Trace)
    } else if word == "profile" {
        Some(Command::Profile)
    } else if word == "orders" {
        Some(Command::Orders)
    } else if word == "lower" {
        Some(Command::Lower)
    } else {
        None
    }
}

/// What is asked for where no word is left.
fn ended(
    command: Command,
    collected: Collected,
    inputs: Inputs,
    waiting: Option<OptionName>,
) -> Asked
    ensures { result ≡ ended command collected inputs waiting }
{
    match waiting {
        None => Asked::Request(request_of(command, collected, inputs)),
        Some(_option) => Asked::Mistake,
    }
}

/// The inputs with all of these words.
fn with_inputs<S: AsStr>(inputs: Inputs, words: &[S]) -> Inputs
    ensures { result ≡ with_inputs inputs (map S.text words.now) }
{
    let mut all = inputs;
    for word in words {
        all = all.with(word.as_str());
    }
    all
}

/// What is asked for where these words are after `--`.
fn after_end<S: AsStr>(command: Command, collected: Collected, inputs: Inputs, words: &[S]) -> Asked
    ensures { result ≡ after_end command collected inputs (map S.text words.now) }
{
    if words.is_empty() {
        Asked::Request(request_of(command, collected, inputs))
    } else if takes_inputs(command) {
        let inputs = with_inputs(inputs, words);
        Asked::Request(request_of(command, collected, inputs))
    } else {
        Asked::Mistake
    }
}

/// What a command with these words after it asks for.
fn read_options<S: AsStr>(command: Command, words: &[S]) -> Asked
    ensures { result ≡ asked_of command nothing no_inputs None (map S.text words.now) }
{
    let mut collected = Collected::nothing();
    let mut inputs = Inputs::none();
    let mut waiting = None;
    for (i, word) in words.iter().enumerate() {
        match word_met(command, collected, waiting, word.as_str()) {
            Step::Next(more, waits) => {
                collected = more;
                waiting = waits;
            }
            Step::Input => {
                inputs = inputs.with(word.as_str());
                waiting = None;
            }
            Step::Help => return Asked::Help(Topic::Of(command)),
            Step::End => return after_end(command, collected, inputs, &words[i + 1..]),
            Step::Mistake => return Asked::Mistake,
        }
    }
    ended(command, collected, inputs, waiting)
}

fn topic_named(word: &str) -> Asked
    ensures { result ≡ topic_named word.now }
{
    if word == "help" {
        return Asked::Help(Topic::Help);
    }
    match command_named(word) {
        Some(command) => Asked::Help(Topic::Of(command)),
        None => Asked::Mistake,
    }
}

/// What the words after `help` ask for.
fn read_topic<S: AsStr>(words: &[S]) -> Asked
    ensures { result ≡ help_asked (map S.text words.now) }
{
    match words {
        [] => Asked::Help(Topic::Program),
        [word] => topic_named(word.as_str()),
        _ => Asked::Mistake,
    }
}

/// What words that begin with no command ask for.
fn read_no_command<S: AsStr>(word: &str, rest: &[S]) -> Asked
    ensures { result ≡ no_command_asked word.now (map S.text rest.now) }
{
    if word == "help" {
        read_topic(rest)
    } else if asks_help(word) {
        Asked::Help(Topic::Program)
    } else if asks_version(word) {
        Asked::Version
    } else {
        Asked::Mistake
    }
}

/// What the words of a command line ask for, without the program's name. It takes no memory.
pub fn read_words<S: AsStr>(words: &[S]) -> Asked
    ensures { result ≡ asked (map S.text words.now) }
{
    let Some((word, rest)) = words.split_first() else {
        return Asked::Mistake;
    };
    match command_named(word.as_str()) {
        Some(command) => read_options(command, rest),
        None => read_no_command(word.as_str(), rest),
    }
}

/// The line of `--version`: the version, and the kit whose prover and compiler it is made with.
pub fn version_line() -> &'static [u8]
    ensures { result.now ≡ version_line }
{
    b"ets 0.3.6 (rattle-kit-13f)\n"
}
