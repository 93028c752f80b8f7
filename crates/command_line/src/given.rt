//! The file that the words of a command name.

ghost use Rattle.std.specs.Prelude.{◌≡◌, ◌<◌, IfSome, map, None, option_map, slice_get};
ghost use Rattle.command_line.specs.Words.{long_of, no_inputs, nothing};
ghost use Rattle.command_line.specs.Files.{all_given, are_rows, are_some, asked_of, end_given, file_option_at, file_option_given, file_option_named, file_request, file_take};
ghost use Rattle.command_line.specs.Files.{first_given, given, given_of, help_given, inputs_given, is_file, is_grid, is_json, is_plain, is_row, is_value, no_options};
ghost use Rattle.command_line.specs.Files.{no_words, option_given, option_value, plain_given, prints_code, prints_lines, prints_report, reads_program, row_length, step_given, takes_file_option};
ghost use Rattle.command_line.specs.Files.{takes_inputs_after, unwanted_given, value_found, value_given, value_of, value_or_next, with_file_defaults, with_file_option, word_given};

use crate::inputs::Inputs;
use crate::options::{
    Collected, Frames, OptionName, Step, is_flag, long_of, number_of, parts_at, request_of,
    takes_inputs, word_met,
};
use crate::{Command, Request, Take, command_named, with_inputs};
use graph_file::literal;
use std::convert::AsStr;
use std::marker::Model;

/// The name of a file, as it is written among the words. Contracts see its bytes.
#[derive(Drop)]
pub struct FileName<'a> {
    pub text: &'a str,
}

impl<'a> Model for FileName<'a> {
    ghost use Rattle.std.specs.Prelude.{ℕ, List};

    ghost Value = { List ℕ };

    ghost view = { λ n. n.text.now };
}

/// What is to be done with a file.
#[derive(Drop)]
pub struct FileRequest<'a> {
    /// `-` is standard input.
    pub name: FileName<'a>,
    pub request: Request,
    /// The inputs of the graph's run, after the file's name. Those of an object's run are in the request.
    pub inputs: Inputs,
    pub options: FileOptions,
}

/// The options that a command has with a file alone.
#[derive(Clone, Copy, Debug, PartialEq, Eq)]
enum FileOption {
    /// The arrays whose cells a report prints.
    Cells,
    /// The arrays whose cells it prints in rows.
    Grid,
    /// It has no value.
    Quiet,
    /// It has no value.
    Map,
    /// How what is printed is written: as text or as JSON.
    Format,
}

/// Which of them were given. Their values are among the words (`option_value`).
#[derive(Clone, Copy, Debug, PartialEq, Eq)]
pub struct FileOptions {
    /// Only the cells of some arrays are printed.
    pub cells: bool,
    /// The cells of some arrays are printed in rows.
    pub grid: bool,
    /// Warnings are left out.
    pub quiet: bool,
    /// The map of the code is printed in place of the code.
    pub map: bool,
    /// The format is said.
    pub format: bool,
}

/// What is given with the words of a command line.
#[derive(Drop)]
pub enum Given<'a> {
    /// No file, or there is a mistake: the words ask for what `read_words` says.
    Words,
    /// A file, and the words ask for help on this command.
    Help(Command),
    File(FileRequest<'a>),
}

/// What was given by the words so far.
#[derive(Drop)]
struct Walk<'a> {
    collected: Collected,
    options: FileOptions,
    file: Option<FileName<'a>>,
    /// The inputs after the file's name.
    inputs: Inputs,
    /// The option that waits for its value.
    waiting: Option<OptionName>,
    /// The option of a file that does.
    wanted: Option<FileOption>,
}

/// What is known after a word.
#[derive(Drop)]
enum Walked<'a> {
    On(Walk<'a>),
    Done(Given<'a>),
}

/// Whether the word is neither a flag nor the value of an option that waits for one.
fn is_plain(waiting: Option<OptionName>, word: &str) -> bool
    ensures { result ≡ is_plain waiting word.now }
{
    match waiting {
        None => !is_flag(word),
        Some(_option) => false,
    }
}

/// Whether the first plain word names a file.
fn is_file(command: Command, word: &str) -> bool
    ensures { result ≡ is_file command word.now }
{
    !(takes_inputs(command) && literal(word.as_bytes()).is_some())
}

/// Whether the command takes inputs after a file.
fn takes_inputs_after(command: Command) -> bool
    ensures { result ≡ takes_inputs_after command }
{
    matches!(
        command,
        Command::Run
            | Command::Mean
            | Command::Exec
            | Command::Trace
            | Command::Profile
            | Command::Orders
    )
}

/// The order in which the tokens of a file's graph are taken, where nothing is said: by depth, but for runs in random orders.
fn file_take(command: Command) -> Take
    ensures { result ≡ file_take command }
{
    match command {
        Command::Orders => Take::Oldest,
        _ => Take::Depth,
    }
}

/// With the defaults for a file in place of what was not given, by which a run is not cut short.
fn with_file_defaults(command: Command, collected: Collected) -> Collected
    ensures { result ≡ with_file_defaults command collected }
{
    let take = collected.take.unwrap_or(Some(file_take(command)));
    Collected {
        frames: Some(collected.frames.unwrap_or(Frames::Number(1_024))),
        steps: Some(collected.steps.unwrap_or(4_294_967_296)),
        take: Some(take),
        ..collected
    }
}

fn file_option_named(name: &str) -> Option<FileOption>
    ensures { result ≡ file_option_named name.now }
{
    if name == "cells" {
        Some(FileOption::Cells)
    } else if name == "grid" {
        Some(FileOption::Grid)
    } else if name == "quiet" {
        Some(FileOption::Quiet)
    } else if name == "map" {
        Some(FileOption::Map)
    } else if name == "format" {
        Some(FileOption::Format)
    } else {
        None
    }
}

/// Whether the command prints a report and no more.
fn prints_report(command: Command) -> bool
    ensures { result ≡ prints_report command }
{
    matches!(command, Command::Run | Command::Mean | Command::Orders)
}

/// Whether the command works on a program, or does so with one of its options.
fn reads_program(command: Command) -> bool
    ensures { result ≡ reads_program command }
{
    !matches!(command, Command::Exec | Command::Upgrade | Command::Asm)
}

/// Whether the command makes the code of a graph and prints it.
fn prints_code(command: Command) -> bool
    ensures { result ≡ prints_code command }
{
    matches!(command, Command::Compile | Command::Dis)
}

/// Whether the command prints lines alone, of which JSON can be made.
fn prints_lines(command: Command) -> bool
    ensures { result ≡ prints_lines command }
{
    matches!(
        command,
        Command::Run
            | Command::Mean
            | Command::Check
            | Command::Profile
            | Command::Orders
            | Command::Lower
    )
}

/// Whether this is the value that asks for JSON.
fn is_json(value: Option<&str>) -> bool
    ensures { result ≡ is_json (option_map (λ s. s.now) value.entry) }
{
    value == Some("json")
}

/// Whether the command takes the option of a file, where this would be its value. The other formats of `trace` are no matter of a file.
fn takes_file_option(command: Command, option: FileOption, value: Option<&str>) -> bool
    ensures { result ≡ takes_file_option command option (option_map (λ s. s.now) value.entry) }
{
    match option {
        FileOption::Format if command == Command::Trace => is_json(value),
        FileOption::Format => prints_lines(command),
        FileOption::Quiet => reads_program(command),
        FileOption::Map => prints_code(command),
        FileOption::Cells | FileOption::Grid => prints_report(command),
    }
}

/// The option of a file that the word names, with its value, if `=` follows the name; none where an option waits for the word as its value.
/// These words are after it.
fn file_option_at<'a, S: AsStr>(
    command: Command,
    waiting: Option<OptionName>,
    word: &'a str,
    words: &'a [S],
) -> Option<(FileOption, Option<&'a str>)>
    ensures { option_map (λ p. (p.0, option_map (λ s. s.now) p.1)) result ≡ file_option_at command waiting word.now (map S.text words.now) }
{
    if waiting.is_some() {
        return None;
    }
    let (name, value) = long_of(word)?;
    let option = file_option_named(name)?;
    if takes_file_option(command, option, value_or_next(value, words)) {
        Some((option, value))
    } else {
        None
    }
}

/// How many cells a row has, by the text after the array's name: a number other than 0.
pub fn row_length(digits: Option<&str>) -> Option<u64>
    ensures same { result ≡ row_length (option_map (λ s. s.now) digits.entry) }
    ensures positive { IfSome result (λ n. 0 < n) }
{
    match number_of(digits?) {
        Some(number) if number != 0 => Some(number),
        _ => None,
    }
}

/// Whether the text names an array and says how many cells a row has.
fn is_row(part: &str) -> bool
    ensures { result ≡ is_row part.now }
{
    let (_name, digits) = parts_at('=', part);
    row_length(digits).is_some()
}

/// Whether each part of the text does; it has at most `room` of them.
#[tactic(auto, unfolding(crate::specs::Files::are_rows))]
fn are_rows(room: u8, text: &str) -> bool
    ensures { result ≡ are_rows room text.now }
{
    if room == 0 {
        return false;
    }
    let (first, more) = parts_at(',', text);
    is_row(first)
        && match more {
            Some(more) => are_rows(room - 1, more),
            None => true,
        }
}

/// Whether the text is a value of `--grid`: arrays with how many cells a row has, as `A=8` or `A=8,B=4`, at most 64 of them.
pub fn is_grid(text: &str) -> bool
    ensures { result ≡ is_grid text.now }
{
    are_rows(64, text)
}

/// Whether the text is a value of the option.
fn is_value(option: FileOption, text: &str) -> bool
    ensures { result ≡ is_value option text.now }
{
    match option {
        FileOption::Cells => true,
        FileOption::Grid => is_grid(text),
        FileOption::Format => is_json(Some(text)) || text == "text",
        FileOption::Quiet | FileOption::Map => false,
    }
}

impl FileOptions {
    const fn none() -> FileOptions
        ensures { result ≡ no_options }
    {
        FileOptions {
            cells: false,
            grid: false,
            quiet: false,
            map: false,
            format: false,
        }
    }

    /// Whether one of them was given.
    fn are_some(self) -> bool
        ensures { result ≡ are_some self }
    {
        self.cells || self.grid || self.quiet || self.map || self.format
    }

    /// With the option too, unless it was given before.
    fn with(self, option: FileOption) -> Option<FileOptions>
        ensures { result ≡ with_file_option self option }
    {
        match option {
            FileOption::Cells if !self.cells => Some(FileOptions {
                cells: true,
                ..self
            }),
            FileOption::Grid if !self.grid => Some(FileOptions { grid: true, ..self }),
            FileOption::Quiet if !self.quiet => Some(FileOptions {
                quiet: true,
                ..self
            }),
            FileOption::Map if !self.map => Some(FileOptions { map: true, ..self }),
            FileOption::Format if !self.format => Some(FileOptions {
                format: true,
                ..self
            }),
            _ => None,
        }
    }
}

/// The command whose request is made: for the map of code there is one.
fn asked_of(command: Command, options: FileOptions) -> Command
    ensures { result ≡ asked_of command options }
{
    match command {
        Command::Dis if options.map => Command::Compile,
        _ => command,
    }
}

/// What is to be done with the file.
fn file_request<'a>(
    command: Command,
    collected: Collected,
    options: FileOptions,
    name: FileName<'a>,
    inputs: Inputs,
) -> Given<'a>
    ensures { result ≡ file_request command collected options name.entry inputs }
{
    if options.format && collected.format.is_some() {
        return Given::Words;
    }
    let collected = with_file_defaults(command, collected);
    if takes_inputs(command) {
        Given::File(FileRequest {
            name,
            request: request_of(command, collected, inputs),
            inputs: Inputs::none(),
            options,
        })
    } else {
        Given::File(FileRequest {
            name,
            request: request_of(asked_of(command, options), collected, Inputs::none()),
            inputs,
            options,
        })
    }
}

/// A plain word, where this file was named before it, if one was.
fn plain_given<'a>(command: Command, walk: Walk<'a>, word: &'a str) -> Walked<'a>
    ensures { result ≡ plain_given command walk.entry walk.entry.file word.now }
{
    match &walk.file {
        None if is_file(command, word) => Walked::On(Walk {
            file: Some(FileName { text: word }),
            ..walk
        }),
        Some(_name) if takes_inputs_after(command) => Walked::On(Walk {
            inputs: walk.inputs.with(word),
            ..walk
        }),
        _ => Walked::Done(Given::Words),
    }
}

/// Help is asked for.
fn help_given<'a>(command: Command, options: FileOptions, file: &Option<FileName<'a>>) -> Given<'a>
    ensures { result ≡ help_given command options file.now }
{
    match file {
        None if !options.are_some() => Given::Words,
        _ => Given::Help(command),
    }
}

/// These words, after `--`, follow the file's name.
fn inputs_given<'a, S: AsStr>(
    command: Command,
    collected: Collected,
    options: FileOptions,
    name: FileName<'a>,
    inputs: Inputs,
    words: &[S],
) -> Given<'a>
    ensures { result ≡ inputs_given command collected options name.entry inputs (map S.text words.now) }
{
    if takes_inputs_after(command) {
        file_request(
            command,
            collected,
            options,
            name,
            with_inputs(inputs, words),
        )
    } else if words.is_empty() {
        file_request(command, collected, options, name, inputs)
    } else {
        Given::Words
    }
}

/// These words are after `--`, and no file was named before.
fn first_given<'a, S: AsStr>(
    command: Command,
    collected: Collected,
    options: FileOptions,
    inputs: Inputs,
    words: &'a [S],
) -> Given<'a>
    ensures { result ≡ first_given command collected options inputs (map S.text words.now) }
{
    match words.split_first() {
        Some((word, rest)) if is_file(command, word.as_str()) => {
            let name = FileName {
                text: word.as_str(),
            };
            inputs_given(command, collected, options, name, inputs, rest)
        }
        _ => Given::Words,
    }
}

/// These words are after `--`.
fn end_given<'a, S: AsStr>(command: Command, walk: Walk<'a>, words: &'a [S]) -> Given<'a>
    ensures { result ≡ end_given command walk.entry walk.entry.file (map S.text words.now) }
{
    let Walk {
        collected,
        options,
        file,
        inputs,
        ..
    } = walk;
    match file {
        None => first_given(command, collected, options, inputs, words),
        Some(name) => inputs_given(command, collected, options, name, inputs, words),
    }
}

/// What a word that is not plain says. These words are after it.
fn step_given<'a, S: AsStr>(
    command: Command,
    walk: Walk<'a>,
    step: Step,
    words: &'a [S],
) -> Walked<'a>
    ensures { result ≡ step_given command walk.entry step (map S.text words.now) }
{
    match step {
        Step::Next(collected, waiting) => Walked::On(Walk {
            collected,
            waiting,
            ..walk
        }),
        Step::Help => Walked::Done(help_given(command, walk.options, &walk.file)),
        Step::End => Walked::Done(end_given(command, walk, words)),
        Step::Input | Step::Mistake => Walked::Done(Given::Words),
    }
}

/// With these options of a file, if there are some.
fn option_given<'a>(walk: Walk<'a>, options: Option<FileOptions>) -> Walked<'a>
    ensures { result ≡ option_given walk.entry options }
{
    match options {
        Some(options) => Walked::On(Walk {
            options,
            wanted: None,
            ..walk
        }),
        None => Walked::Done(Given::Words),
    }
}

/// The option of a file has this value.
fn value_given<'a>(walk: Walk<'a>, option: FileOption, value: &str) -> Walked<'a>
    ensures { result ≡ value_given walk.entry option value.now }
{
    if is_value(option, value) {
        let options = walk.options.with(option);
        option_given(walk, options)
    } else {
        Walked::Done(Given::Words)
    }
}

/// The option of a file, and its value where `=` follows its name.
fn file_option_given<'a>(walk: Walk<'a>, option: FileOption, value: Option<&str>) -> Walked<'a>
    ensures { result ≡ file_option_given walk.entry option (option_map (λ s. s.now) value.entry) }
{
    match (option, value) {
        (option, Some(value)) => value_given(walk, option, value),
        (FileOption::Quiet | FileOption::Map, None) => {
            let options = walk.options.with(option);
            option_given(walk, options)
        }
        (option, None) => Walked::On(Walk {
            wanted: Some(option),
            ..walk
        }),
    }
}

/// What the next word says, where no option of a file waits for its value. These words are after it.
fn unwanted_given<'a, S: AsStr>(
    command: Command,
    walk: Walk<'a>,
    word: &'a str,
    words: &'a [S],
) -> Walked<'a>
    ensures { result ≡ unwanted_given command walk.entry word.now (map S.text words.now) }
{
    if is_plain(walk.waiting, word) {
        return plain_given(command, walk, word);
    }
    match file_option_at(command, walk.waiting, word, words) {
        Some((option, value)) => file_option_given(walk, option, value),
        None => {
            let step = word_met(command, walk.collected, walk.waiting, word);
            step_given(command, walk, step, words)
        }
    }
}

/// What the next word says. These words are after it. The value of an option that waits is no flag.
fn word_given<'a, S: AsStr>(
    command: Command,
    walk: Walk<'a>,
    word: &'a str,
    words: &'a [S],
) -> Walked<'a>
    ensures { result ≡ word_given command walk.entry word.now (map S.text words.now) }
{
    match walk.wanted {
        None => unwanted_given(command, walk, word, words),
        Some(_option) if is_flag(word) => Walked::Done(Given::Words),
        Some(option) => value_given(walk, option, word),
    }
}

/// What is given where no word is left.
fn all_given<'a>(command: Command, walk: Walk<'a>) -> Given<'a>
    ensures { result ≡ all_given command walk.entry walk.entry.file }
{
    let Walk {
        collected,
        options,
        file,
        inputs,
        waiting,
        wanted,
    } = walk;
    match file {
        Some(name) if waiting.is_none() && wanted.is_none() => file_request(
            command, collected, options, name, inputs,
        ),
        _ => Given::Words,
    }
}

/// What is given with these words after a command.
fn given_after<'a, S: AsStr>(command: Command, words: &'a [S]) -> Given<'a>
    ensures { result ≡ given_of command no_words (map S.text words.now) }
{
    let mut walk = Walk {
        collected: Collected::nothing(),
        options: FileOptions::none(),
        file: None,
        inputs: Inputs::none(),
        waiting: None,
        wanted: None,
    };
    for (i, word) in words.iter().enumerate() {
        match word_given(command, walk, word.as_str(), &words[i + 1..]) {
            Walked::On(on) => walk = on,
            Walked::Done(given) => return given,
        }
    }
    all_given(command, walk)
}

/// The file that the words of a command line name, without the program's name, and what is to be done with it. It takes no memory.
pub fn read_given<'a, S: AsStr>(words: &'a [S]) -> Given<'a>
    ensures { result ≡ given (map S.text words.now) }
{
    let Some((word, rest)) = words.split_first() else {
        return Given::Words;
    };
    match command_named(word.as_str()) {
        Some(command) => given_after(command, rest),
        None => Given::Words,
    }
}

/// The first word, if there is one.
fn first_of<'a, S: AsStr>(words: &'a [S]) -> Option<&'a str>
    ensures { option_map (λ s. s.now) result ≡ slice_get (map S.text words.now) 0 }
{
    match words.first() {
        Some(word) => Some(word.as_str()),
        None => None,
    }
}

/// The value of an option: what follows `=`, if that is after its name, or the next word.
fn value_or_next<'a, S: AsStr>(value: Option<&'a str>, words: &'a [S]) -> Option<&'a str>
    ensures { option_map (λ s. s.now) result ≡ value_or_next (option_map (λ s. s.now) value.entry) (map S.text words.now) }
{
    match value {
        Some(value) => Some(value),
        None => first_of(words),
    }
}

/// The value of the option of this name, which follows `=` in this word or is the next one, if the word names the option.
fn value_of<'a, S: AsStr>(name: &str, word: &'a str, words: &'a [S]) -> Option<Option<&'a str>>
    ensures { option_map (λ v. option_map (λ s. s.now) v) result ≡ value_of name.now (long_of word.now) (map S.text words.now) }
{
    let (found, value) = long_of(word)?;
    if found != name {
        return None;
    }
    Some(value_or_next(value, words))
}

/// The same, or that there is none, where this word settles it: after `--` there are no options.
fn value_found<'a, S: AsStr>(name: &str, word: &'a str, words: &'a [S]) -> Option<Option<&'a str>>
    ensures { option_map (λ v. option_map (λ s. s.now) v) result ≡ value_found name.now word.now (map S.text words.now) }
{
    if word == "--" {
        Some(None)
    } else {
        value_of(name, word, words)
    }
}

/// The value that the option of this name has among words that name a file: what follows its name and `=`, or the next word. The words
/// after `--` have no options. It takes no memory.
pub fn option_value<'a, S: AsStr>(name: &str, words: &'a [S]) -> Option<&'a str>
    ensures { option_map (λ s. s.now) result ≡ option_value name.now (map S.text words.now) }
{
    for (i, word) in words.iter().enumerate() {
        if let Some(value) = value_found(name, word.as_str(), &words[i + 1..]) {
            return value;
        }
    }
    None
}
