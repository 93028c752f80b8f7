//! The export that explains a refusal.

ghost use Rattle.std.specs.Prelude.{◌≡◌, IfOk, Some, is_some};
ghost use Rattle.hints.specs.Hints.{wants_hint};
ghost use Rattle.ets_core.specs.Explained.{Explains, IsHint, PrintsOne, command_of};

use crate::giving::{is_too_long, refuse_length, refuse_memory};
use answers::{EtsResult, answer};
use commands::assembling::print_assembled;
use commands::lowered::{print_lowered, print_map};
use commands::serving::{
    print_check, print_code_picture, print_graph_picture, print_listing,
    print_listing_with_literals, print_object, print_upgrade,
};
use hints::{Hint, explain};
use outcomes::{Outcome, Refusal};
use schedule::config::StartFault;
use std::alloc::{AllocError, Global};
use std::io;

/// A command of which a refusal is explained, by its number.
#[derive(Clone, Copy, Debug)]
pub enum Command {
    Lower,
    Map,
    Check,
    Compile,
    Draw,
    List,
    ListLiterals,
    Assemble,
    Upgrade,
    DrawCode,
}

/// The command of this number, if there is one.
fn command_of(number: u32) -> Option<Command>
    ensures { result ≡ command_of number }
{
    match number {
        0 => Some(Command::Lower),
        1 => Some(Command::Map),
        2 => Some(Command::Check),
        3 => Some(Command::Compile),
        4 => Some(Command::Draw),
        5 => Some(Command::List),
        6 => Some(Command::ListLiterals),
        7 => Some(Command::Assemble),
        8 => Some(Command::Upgrade),
        9 => Some(Command::DrawCode),
        _ => None,
    }
}

/// Prints what the command prints of the input. Gives the outcome.
fn print_one(
    alloc: Global,
    command: Command,
    input: &[u8],
    printed: &mut Vec<u8>,
) -> io::Result<Outcome>
    ensures { PrintsOne command input.now result (Some printed.old.items) (Some printed.new.items) }
{
    match command {
        Command::Lower => print_lowered(alloc, input, printed),
        Command::Map => print_map(alloc, input, printed),
        Command::Check => print_check(alloc, input, printed),
        Command::Compile => print_object(alloc, input, printed),
        Command::Draw => print_graph_picture(alloc, input, printed),
        Command::List => print_listing(input, printed),
        Command::ListLiterals => print_listing_with_literals(input, printed),
        Command::Assemble => print_assembled(alloc, input, printed),
        Command::Upgrade => print_upgrade(input, printed),
        Command::DrawCode => print_code_picture(input, printed),
    }
}

/// The command's word on the command line.
fn word_of(command: Command) -> &'static str {
    match command {
        Command::Lower | Command::Map => "lower",
        Command::Check => "check",
        Command::Compile => "compile",
        Command::Draw | Command::DrawCode => "dot",
        Command::List | Command::ListLiterals => "dis",
        Command::Assemble => "asm",
        Command::Upgrade => "upgrade",
    }
}

/// The option after it, if there is one.
fn option_of(command: Command) -> Option<&'static str> {
    match command {
        Command::Map => Some("--map"),
        Command::ListLiterals => Some("--literals"),
        Command::DrawCode => Some("--code"),
        _ => None,
    }
}

/// The hint that a person gets after this command over the input, with this outcome, where one is wanted.
fn hint_of(
    alloc: Global,
    command: Command,
    input: &[u8],
    outcome: Outcome,
) -> Result<Option<Hint<Global>>, AllocError>
    ensures { IfOk result (λ hint. is_some hint ≡ wants_hint (Some outcome)) }
{
    match option_of(command) {
        None => explain(
            alloc,
            &["ets", word_of(command)],
            Some(input),
            Some(outcome),
        ),
        Some(option) => explain(
            alloc,
            &["ets", word_of(command), option],
            Some(input),
            Some(outcome),
        ),
    }
}

/// The text of that hint; no byte, where none is wanted.
fn hint_text_of(
    alloc: Global,
    command: Command,
    input: &[u8],
    outcome: Outcome,
) -> Result<Vec<u8>, AllocError>
    ensures { IfOk result (λ text. IsHint outcome text.items) }
{
    let mut text = Vec::new(alloc);
    match hint_of(alloc, command, input, outcome)? {
        Some(hint) => match hint.write(&mut text) {
            Ok(()) => Ok(text),
            Err(_refused) => Err(AllocError),
        },
        None => Ok(text),
    }
}

/// Explains what became of an input: the hint that the command of this number gives after it, and no byte where it gives none.
#[unsafe(no_mangle)]
pub extern "C" fn ets_explain(
    alloc: Global,
    command: u32,
    input: &[u8],
    text: &mut [u8],
) -> EtsResult
    ensures { Explains (command_of command) input.now text.old text.new result }
{
    if is_too_long(input) {
        return refuse_length(text);
    }
    let Some(command) = command_of(command) else {
        return answer(
            &Outcome::Refused(Refusal::Start(StartFault::BadConfig)),
            b"refused: start BadConfig\n",
            text,
        );
    };
    let mut printed = Vec::new(alloc);
    let Ok(outcome) = print_one(alloc, command, input, &mut printed) else {
        return refuse_memory(text);
    };
    if matches!(outcome, Outcome::Refused(Refusal::Memory)) {
        return refuse_memory(text);
    }
    match hint_text_of(alloc, command, input, outcome) {
        Ok(hint) => answer(&Outcome::Done, &hint, text),
        Err(_refused) => refuse_memory(text),
    }
}
