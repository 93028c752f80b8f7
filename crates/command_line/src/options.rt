//! The options of a command, and what one word after it says.

ghost use Rattle.std.specs.Prelude.{◌≡◌, ◌<◌, option_map};
ghost use Rattle.command_line.specs.Words.{after, asks_help, asks_version, first_format, first_frames, first_frames_or_enough, first_mode, first_number};
ghost use Rattle.command_line.specs.Words.{first_sizes, first_take, flag_met, format_named, frames_given, is_flag, is_short, literals_included, long_of};
ghost use Rattle.command_line.specs.Words.{map_asked, mode_named, named, nothing, number_of, option_met, option_named, option_of, parts_at, plain_met};
ghost use Rattle.command_line.specs.Words.{request_of, run_options, run_request, says_how_to_run, sizes_from, take_named, takes, takes_inputs};
ghost use Rattle.command_line.specs.Words.{usual_sizes, valued, with_option, without_value};
ghost use Rattle.command_line.specs.Words.{word_met};

use crate::{
    Command, EventFormat, Format, Inputs, Literals, Lowering, Request, RunOptions, Sizes, Take,
};
use mode::Mode;

/// The options of all commands.
#[derive(Clone, Copy, Debug, PartialEq, Eq)]
pub(crate) enum OptionName {
    Elements,
    Frames,
    /// A number of frames, or `enough`.
    FramesOrEnough,
    Steps,
    Mode,
    Turn,
    Take,
    /// It has no value.
    Literals,
    /// It has no value.
    Code,
    Last,
    Format,
    Count,
    Seed,
    /// A list of numbers of elements.
    Sizes,
    /// It has no value.
    Svg,
    /// It has no value.
    Map,
}

/// How many frames each element gets.
#[derive(Clone, Copy, Debug, PartialEq, Eq)]
pub(crate) enum Frames {
    Number(u64),
    /// As many as are enough in every order.
    Enough,
}

/// The options that were given so far.
#[derive(Clone, Copy, Debug)]
pub(crate) struct Collected {
    pub(crate) elements: Option<u64>,
    pub(crate) frames: Option<Frames>,
    pub(crate) steps: Option<u64>,
    /// Within: `None` where the word is that of no mode.
    pub(crate) mode: Option<Option<Mode>>,
    pub(crate) turn: Option<u64>,
    /// Within: `None` where the word names no order.
    pub(crate) take: Option<Option<Take>>,
    pub(crate) literals: Literals,
    pub(crate) code: bool,
    pub(crate) last: Option<u64>,
    pub(crate) format: Option<Format>,
    pub(crate) count: Option<u64>,
    pub(crate) seed: Option<u64>,
    pub(crate) sizes: Option<Sizes>,
    pub(crate) svg: bool,
    pub(crate) lowering: Lowering,
}

/// What a word after a command says.
#[derive(Clone, Copy, Debug)]
pub(crate) enum Step {
    /// The options with this word, and the option that waits for its value.
    Next(Collected, Option<OptionName>),
    /// The word is an input.
    Input,
    Help,
    /// The end of the options.
    End,
    Mistake,
}

impl Collected {
    pub(crate) fn nothing() -> Collected
        ensures { result ≡ nothing }
    {
        Collected {
            elements: None,
            frames: None,
            steps: None,
            mode: None,
            turn: None,
            take: None,
            literals: Literals::Omitted,
            code: false,
            last: None,
            format: None,
            count: None,
            seed: None,
            sizes: None,
            svg: false,
            lowering: Lowering::Graph,
        }
    }

    /// With the option too, unless the value is no value of it or it was given before.
    fn with_option(self, option: OptionName, value: &str) -> Option<Collected>
        ensures { result ≡ with_option self option value.now }
    {
        match option {
            OptionName::Elements => Some(Collected {
                elements: Some(first_number(self.elements, value)?),
                ..self
            }),
            OptionName::Frames => Some(Collected {
                frames: Some(first_frames(self.frames, value)?),
                ..self
            }),
            OptionName::FramesOrEnough => Some(Collected {
                frames: Some(first_frames_or_enough(self.frames, value)?),
                ..self
            }),
            OptionName::Steps => Some(Collected {
                steps: Some(first_number(self.steps, value)?),
                ..self
            }),
            OptionName::Mode => Some(Collected {
                mode: Some(first_mode(self.mode, value)?),
                ..self
            }),
            OptionName::Turn => Some(Collected {
                turn: Some(first_number(self.turn, value)?),
                ..self
            }),
            OptionName::Take => Some(Collected {
                take: Some(first_take(self.take, value)?),
                ..self
            }),
            OptionName::Last => Some(Collected {
                last: Some(first_number(self.last, value)?),
                ..self
            }),
            OptionName::Count => Some(Collected {
                count: Some(first_number(self.count, value)?),
                ..self
            }),
            OptionName::Seed => Some(Collected {
                seed: Some(first_number(self.seed, value)?),
                ..self
            }),
            OptionName::Format => Some(Collected {
                format: Some(first_format(self.format, value)?),
                ..self
            }),
            OptionName::Sizes => Some(Collected {
                sizes: Some(first_sizes(self.sizes, value)?),
                ..self
            }),
            OptionName::Literals | OptionName::Code | OptionName::Svg | OptionName::Map => None,
        }
    }
}

fn format_named(word: &str) -> Option<Format>
    ensures { result ≡ format_named word.now }
{
    if word == "text" {
        Some(Format::Events(EventFormat::Lines))
    } else if word == "chrome" {
        Some(Format::Events(EventFormat::Chrome))
    } else if word == "html" {
        Some(Format::Html)
    } else {
        None
    }
}

/// The format that the value names, where there was none before.
fn first_format(before: Option<Format>, value: &str) -> Option<Format>
    ensures { result ≡ first_format before value.now }
{
    match before {
        Some(_before) => None,
        None => format_named(value),
    }
}

/// These numbers of elements, and those of the list; at most `room` more.
fn sizes_from(sizes: Sizes, room: u8, list: &str) -> Option<Sizes>
    ensures { result ≡ sizes_from sizes room list.now }
{
    if room == 0 {
        return None;
    }
    let (first, more) = parts_at(',', list);
    match (number_of(first), more) {
        (Some(number), Some(more)) => sizes_from(sizes.with(number), room - 1, more),
        (Some(number), None) => Some(sizes.with(number)),
        (None, _) => None,
    }
}

/// The numbers of elements that the value lists, where there were none before.
fn first_sizes(before: Option<Sizes>, value: &str) -> Option<Sizes>
    ensures { result ≡ first_sizes before value.now }
{
    match before {
        Some(_before) => None,
        None => sizes_from(Sizes::none(), 64, value),
    }
}

/// The number that the value is, where there was none before.
fn first_number(before: Option<u64>, value: &str) -> Option<u64>
    ensures { result ≡ first_number before value.now }
{
    match before {
        Some(_before) => None,
        None => number_of(value),
    }
}

pub(crate) fn number_of(text: &str) -> Option<u64>
    ensures { result ≡ number_of text.now }
{
    match text.parse::<u64>() {
        Ok(number) => Some(number),
        Err(_fault) => None,
    }
}

/// What the value says of the mode, where nothing was said before: the mode that it names, if it names one.
fn first_mode(before: Option<Option<Mode>>, value: &str) -> Option<Option<Mode>>
    ensures { result ≡ first_mode before value.now }
{
    match before {
        Some(_before) => None,
        None => Some(mode_named(value)),
    }
}

fn mode_named(word: &str) -> Option<Mode>
    ensures { result ≡ mode_named word.now }
{
    if word == "one" {
        Some(Mode::One)
    } else if word == "rounds" {
        Some(Mode::Rounds)
    } else if word == "free" {
        Some(Mode::Free)
    } else {
        None
    }
}

/// What the value says of the order in which tokens are taken, where nothing was said before: the order that it names, if it names one.
fn first_take(before: Option<Option<Take>>, value: &str) -> Option<Option<Take>>
    ensures { result ≡ first_take before value.now }
{
    match before {
        Some(_before) => None,
        None => Some(take_named(value)),
    }
}

fn take_named(word: &str) -> Option<Take>
    ensures { result ≡ take_named word.now }
{
    if word == "oldest" {
        Some(Take::Oldest)
    } else if word == "depth" {
        Some(Take::Depth)
    } else {
        None
    }
}

/// The number of frames that the value is, where none were given before.
fn first_frames(before: Option<Frames>, value: &str) -> Option<Frames>
    ensures { result ≡ first_frames before value.now }
{
    match before {
        Some(_before) => None,
        None => Some(Frames::Number(number_of(value)?)),
    }
}

/// The frames that the value says, where none were given before.
fn first_frames_or_enough(before: Option<Frames>, value: &str) -> Option<Frames>
    ensures { result ≡ first_frames_or_enough before value.now }
{
    match before {
        Some(_before) => None,
        None if value == "enough" => Some(Frames::Enough),
        None => Some(Frames::Number(number_of(value)?)),
    }
}

fn option_named(name: &str) -> Option<OptionName>
    ensures { result ≡ option_named name.now }
{
    if name == "elements" {
        Some(OptionName::Elements)
    } else if name == "frames" {
        Some(OptionName::Frames)
    } else if name == "steps" {
        Some(OptionName::Steps)
    } else if name == "mode" {
        Some(OptionName::Mode)
    } else if name == "turn" {
        Some(OptionName::Turn)
    } else if name == "literals" {
        Some(OptionName::Literals)
    } else if name == "code" {
        Some(OptionName::Code)
    } else if name == "last" {
        Some(OptionName::Last)
    } else if name == "format" {
        Some(OptionName::Format)
    } else if name == "count" {
        Some(OptionName::Count)
    } else if name == "seed" {
        Some(OptionName::Seed)
    } else if name == "svg" {
        Some(OptionName::Svg)
    } else if name == "map" {
        Some(OptionName::Map)
    } else if name == "take" {
        Some(OptionName::Take)
    } else {
        None
    }
}

/// Whether the option is one of those of `run`.
fn says_how_to_run(option: OptionName) -> bool
    ensures { result ≡ says_how_to_run option }
{
    matches!(
        option,
        OptionName::Elements
            | OptionName::Frames
            | OptionName::Steps
            | OptionName::Mode
            | OptionName::Turn
            | OptionName::Take
    )
}

/// `profile` has a list of numbers of elements, and the frames of `run` may be `enough`.
fn option_of(command: Command, option: OptionName) -> OptionName
    ensures { result ≡ option_of command option }
{
    match (command, option) {
        (Command::Profile, OptionName::Elements) => OptionName::Sizes,
        (Command::Run, OptionName::Frames) => OptionName::FramesOrEnough,
        _ => option,
    }
}

fn takes(command: Command, option: OptionName) -> bool
    ensures { result ≡ takes command option }
{
    match command {
        Command::Run => says_how_to_run(option) || option == OptionName::FramesOrEnough,
        Command::Exec => says_how_to_run(option),
        Command::Trace => {
            says_how_to_run(option) || matches!(option, OptionName::Last | OptionName::Format)
        }
        Command::Mean => option == OptionName::Steps,
        Command::Dis => option == OptionName::Literals,
        Command::Dot => option == OptionName::Code,
        Command::Profile => matches!(
            option,
            OptionName::Sizes
                | OptionName::Frames
                | OptionName::Steps
                | OptionName::Svg
                | OptionName::Take
        ),
        Command::Orders => matches!(
            option,
            OptionName::Elements
                | OptionName::Frames
                | OptionName::Steps
                | OptionName::Count
                | OptionName::Seed
                | OptionName::Take
        ),
        Command::Lower => option == OptionName::Map,
        _ => false,
    }
}

pub(crate) fn takes_inputs(command: Command) -> bool
    ensures { result ≡ takes_inputs command }
{
    command == Command::Exec
}

/// The frames that were given as a number.
fn frames_given(frames: Option<Frames>) -> Option<u64>
    ensures { result ≡ frames_given frames }
{
    match frames {
        Some(Frames::Number(number)) => Some(number),
        Some(Frames::Enough) | None => None,
    }
}

/// How to run: what was not given has its default.
fn run_options(collected: Collected) -> RunOptions
    ensures { result ≡ run_options collected }
{
    RunOptions {
        elements: collected.elements.unwrap_or(1),
        frames: frames_given(collected.frames).unwrap_or(256),
        steps: collected.steps.unwrap_or(1_000_000),
        mode: collected.mode.unwrap_or(Some(Mode::One)),
        turn: collected.turn,
        take: collected.take.unwrap_or(Some(Take::Oldest)),
    }
}

/// A run with these frames: with `enough` of them the number in the options says nothing.
fn run_request(options: RunOptions, frames: Option<Frames>) -> Request
    ensures { result ≡ run_request options frames }
{
    match frames {
        Some(Frames::Enough) => Request::RunEnough(options),
        Some(Frames::Number(_)) | None => Request::Run(options),
    }
}

/// The request of the command with these options and inputs: what was not given has its default.
pub(crate) fn request_of(command: Command, collected: Collected, inputs: Inputs) -> Request
    ensures { result ≡ request_of command collected inputs }
{
    match command {
        Command::Run => run_request(run_options(collected), collected.frames),
        Command::Mean => Request::Mean {
            steps: collected.steps.unwrap_or(1_000_000),
        },
        Command::Check => Request::Check,
        Command::Compile => Request::Compile,
        Command::Dis => Request::Dis {
            literals: collected.literals,
        },
        Command::Upgrade => Request::Upgrade,
        Command::Dot => Request::Dot {
            code: collected.code,
        },
        Command::Exec => Request::Exec {
            options: run_options(collected),
            inputs,
        },
        Command::Asm => Request::Asm,
        Command::Trace => Request::Trace {
            options: run_options(collected),
            last: collected.last,
            format: collected
                .format
                .unwrap_or(Format::Events(EventFormat::Lines)),
        },
        Command::Profile => Request::Profile {
            options: run_options(collected),
            sizes: collected.sizes.unwrap_or(Sizes::usual()),
            svg: collected.svg,
        },
        Command::Orders => Request::Orders {
            options: run_options(collected),
            count: collected.count.unwrap_or(100),
            seed: collected.seed.unwrap_or(1),
        },
        Command::Lower => Request::Lower(collected.lowering),
    }
}

/// What follows a first character.
fn after(word: &str, first: char) -> Option<&str>
    requires { first < 128 }
    ensures { option_map (λ s. s.now) result ≡ after first word.now }
{
    word.strip_prefix(first)
}

/// A hyphen and something after it.
pub(crate) fn is_flag(word: &str) -> bool
    ensures { result ≡ is_flag word.now }
{
    match after(word, '-') {
        Some(rest) => !rest.is_empty(),
        None => false,
    }
}

/// A hyphen, the letter, and whatever follows it.
fn is_short(letter: char, word: &str) -> bool
    requires { letter < 128 }
    ensures { result ≡ is_short letter word.now }
{
    match after(word, '-') {
        Some(rest) => after(rest, letter).is_some(),
        None => false,
    }
}

pub(crate) fn asks_help(word: &str) -> bool
    ensures { result ≡ asks_help word.now }
{
    word == "--help" || is_short('h', word)
}

pub(crate) fn asks_version(word: &str) -> bool
    ensures { result ≡ asks_version word.now }
{
    word == "--version" || is_short('V', word)
}

/// What is before the first separator, an ASCII character, and what is after it if there is one.
pub fn parts_at(separator: char, text: &str) -> (&str, Option<&str>)
    requires { separator < 128 }
    ensures { (result.0.now, option_map (λ s. s.now) result.1) ≡ parts_at separator text.now }
{
    match text.split_once(separator) {
        Some((first, rest)) => (first, Some(rest)),
        None => (text, None),
    }
}

/// `--NAME` or `--NAME=VALUE`.
pub(crate) fn long_of(word: &str) -> Option<(&str, Option<&str>)>
    ensures { option_map (λ p. (p.0.now, option_map (λ s. s.now) p.1)) result ≡ long_of word.now }
{
    let rest = after(after(word, '-')?, '-')?;
    Some(parts_at('=', rest))
}

fn valued(collected: Collected, option: OptionName, value: &str) -> Step
    ensures { result ≡ valued collected option value.now }
{
    match collected.with_option(option, value) {
        Some(more) => Step::Next(more, None),
        None => Step::Mistake,
    }
}

/// The option `--literals`, which may be given once.
fn literals_included(collected: Collected) -> Step
    ensures { result ≡ literals_included collected collected.literals }
{
    match collected.literals {
        Literals::Included => Step::Mistake,
        Literals::Omitted => Step::Next(
            Collected {
                literals: Literals::Included,
                ..collected
            },
            None,
        ),
    }
}

/// The option `--map`, which may be given once.
fn map_asked(collected: Collected) -> Step
    ensures { result ≡ map_asked collected collected.lowering }
{
    match collected.lowering {
        Lowering::Map => Step::Mistake,
        Lowering::Graph => Step::Next(
            Collected {
                lowering: Lowering::Map,
                ..collected
            },
            None,
        ),
    }
}

/// The option where no `=` follows its name.
fn without_value(collected: Collected, option: OptionName) -> Step
    ensures { result ≡ without_value collected option }
{
    match option {
        OptionName::Literals => literals_included(collected),
        OptionName::Code if collected.code => Step::Mistake,
        OptionName::Code => Step::Next(
            Collected {
                code: true,
                ..collected
            },
            None,
        ),
        OptionName::Svg if collected.svg => Step::Mistake,
        OptionName::Svg => Step::Next(
            Collected {
                svg: true,
                ..collected
            },
            None,
        ),
        OptionName::Map => map_asked(collected),
        option => Step::Next(collected, Some(option)),
    }
}

fn named(collected: Collected, option: OptionName, value: Option<&str>) -> Step
    ensures { result ≡ named collected option (option_map (λ s. s.now) value.entry) }
{
    match value {
        Some(value) => valued(collected, option, value),
        None => without_value(collected, option),
    }
}

fn option_met(command: Command, collected: Collected, name: &str, value: Option<&str>) -> Step
    ensures { result ≡ option_met command collected name.now (option_map (λ s. s.now) value.entry) }
{
    match option_named(name) {
        Some(option) if takes(command, option_of(command, option)) => {
            named(collected, option_of(command, option), value)
        }
        _ => Step::Mistake,
    }
}

/// A word that is none of `--NAME`.
fn plain_met(command: Command, word: &str) -> Step
    ensures { result ≡ plain_met command word.now }
{
    if !is_flag(word) && takes_inputs(command) {
        Step::Input
    } else {
        Step::Mistake
    }
}

/// A word where no option waits for its value.
fn flag_met(command: Command, collected: Collected, word: &str) -> Step
    ensures { result ≡ flag_met command collected word.now }
{
    if word == "--" {
        return Step::End;
    }
    if asks_help(word) {
        return Step::Help;
    }
    match long_of(word) {
        Some((name, value)) => option_met(command, collected, name, value),
        None => plain_met(command, word),
    }
}

/// What the next word says. The value of an option that waits is no flag.
pub(crate) fn word_met(
    command: Command,
    collected: Collected,
    waiting: Option<OptionName>,
    word: &str,
) -> Step
    ensures { result ≡ word_met command collected waiting word.now }
{
    match waiting {
        None => flag_met(command, collected, word),
        Some(_option) if is_flag(word) => Step::Mistake,
        Some(option) => valued(collected, option, word),
    }
}
