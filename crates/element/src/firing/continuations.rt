//! Where answers go.

ghost use Rattle.std.specs.Prelude.{◌≡◌, ◌<◌, ◌^◌, IfSome};
ghost use Rattle.semantics.specs.Rule as Rule;
ghost use Rattle.element.specs.Decoded.{instr_of, dest_in};
ghost use Rattle.element.specs.Fired.{point_of, HasRoom};

use super::made::Point;
use crate::instructions::{Instruction, dest_in};
use tags::token::{Cont, Port, To, Token, Word};

/// The address that lies so far after a continuation.
#[inline(always)]
pub(super) fn beyond(cont: Cont, offset: u8) -> To
    requires { HasRoom cont }
    ensures { result ≡ Rule.beyond cont offset }
{
    match cont {
        Cont::Frame { frame, ip, .. } => To::Instr {
            frame,
            ip: ip + u32::from(offset),
            port: Port::Left,
        },
        Cont::Host { port } => To::Host {
            port: port + u32::from(offset),
        },
    }
}

fn back_to(cont: Cont) -> To
    ensures { result ≡ Rule.back_to cont }
{
    match cont {
        Cont::Frame { frame, ip, port } => To::Instr { frame, ip, port },
        Cont::Host { port } => To::Host { port },
    }
}

/// The token that carries a word to a continuation.
pub fn answer(cont: Cont, word: Word) -> Token
    ensures { result ≡ Rule.token (Rule.back_to cont) word }
{
    Token {
        to: back_to(cont),
        word,
    }
}

/// Where an answer goes.
#[inline(always)]
pub(super) fn answer_to(point: Point, instr: &Instruction) -> Cont
    requires near { point.ip < 2 ^ 30 }
    requires short { IfSome (dest_in instr.now.first) (λ d. d.ahead < 2 ^ 30) }
    ensures { result ≡ Rule.answer_to (point_of point) (instr_of instr.now).firsts }
{
    match dest_in(instr.first()) {
        Some(dest) => Cont::Frame {
            frame: point.frame,
            ip: point.ip + dest.ahead,
            port: dest.port,
        },
        None => Cont::Frame {
            frame: point.frame,
            ip: point.ip,
            port: Port::Left,
        },
    }
}

/// Where a link's landing begins.
#[inline(always)]
pub(super) fn landing_at(point: Point, instr: &Instruction) -> Cont
    requires near { point.ip < 2 ^ 30 }
    requires short { IfSome (dest_in instr.now.first) (λ d. d.ahead < 2 ^ 30) }
    ensures { result ≡ Rule.landing_at (point_of point) (instr_of instr.now).firsts }
{
    let ip = match dest_in(instr.first()) {
        Some(dest) => point.ip + dest.ahead,
        None => point.ip,
    };
    Cont::Frame {
        frame: point.frame,
        ip,
        port: Port::Left,
    }
}
