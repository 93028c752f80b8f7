//! How answers are written.

use std::alloc::AllocError;
use tags::slot::SlotState;
use tags::token::{Cont, Port, To, Token, Word};
use tags::value::{FaultKind, Origin, Value};

pub fn side_of(port: Port) -> &'static str {
    match port {
        Port::Left => "left",
        Port::Right => "right",
    }
}

pub fn push_origin(text: &mut String, origin: Origin) -> Result<(), AllocError> {
    match origin {
        Origin::Untold => text.push_str("untold"),
        Origin::At { block, node } => {
            let node = node.get();
            write!(text, "{block} {node}")
        }
    }
}

pub fn push_value(text: &mut String, value: Value) -> Result<(), AllocError> {
    match value {
        Value::Int(number) => write!(text, "{number}"),
        Value::Fault { kind, origin } => {
            text.push_str(match kind {
                FaultKind::Zero => "zero ",
                FaultKind::Range => "range ",
            })?;
            push_origin(text, origin)
        }
    }
}

pub fn push_cont(text: &mut String, cont: Cont) -> Result<(), AllocError> {
    match cont {
        Cont::Frame { frame, ip, port } => {
            let side = side_of(port);
            write!(text, "{frame} {ip} {side}")
        }
        Cont::Host { port } => write!(text, "host {port}"),
    }
}

pub fn push_word(text: &mut String, word: Word) -> Result<(), AllocError> {
    match word {
        Word::Val(value) => push_value(text, value),
        Word::Frame(frame) => write!(text, "frame {frame}"),
        Word::Back(cont) => {
            text.push_str("back ")?;
            push_cont(text, cont)
        }
    }
}

pub fn push_state(text: &mut String, state: SlotState) -> Result<(), AllocError> {
    match state {
        SlotState::Empty => text.push_str("empty"),
        SlotState::Left(word) => {
            text.push_str("left ")?;
            push_word(text, word)
        }
        SlotState::Right(word) => {
            text.push_str("right ")?;
            push_word(text, word)
        }
        SlotState::Credits(count) => write!(text, "credits {count}"),
        SlotState::Waiter(cont) => {
            text.push_str("waiter ")?;
            push_cont(text, cont)
        }
        SlotState::Draining(count) => write!(text, "draining {count}"),
    }
}

/// Writes where a token goes.
fn push_to(text: &mut String, to: To) -> Result<(), AllocError> {
    match to {
        To::Instr { frame, ip, port } => {
            let side = side_of(port);
            write!(text, "{frame} {ip} {side}")
        }
        To::Fetch { cell } => write!(text, "fetch {cell}"),
        To::Store { cell, value } => {
            write!(text, "store {cell} ")?;
            push_value(text, value)
        }
        To::Manager => text.push_str("manager"),
        To::Release { frame } => write!(text, "release {frame}"),
        To::Host { port } => write!(text, "host {port}"),
    }
}

/// Writes what a token carries, and where it goes.
pub fn push_token(text: &mut String, token: Token) -> Result<(), AllocError> {
    push_word(text, token.word)?;
    text.push_str(" to ")?;
    push_to(text, token.to)
}
