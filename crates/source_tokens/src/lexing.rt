//! The tokens of a program.

ghost use Rattle.std.specs.Prelude.{◌≡◌, ◌≤◌, length, take, drop, All, Ok, IfOk, IfErr, MatchResult};
ghost use Rattle.source.specs.Tokens.{lexed};
ghost use Rattle.source_tokens.specs.Lexing.{IsFirstFault};
ghost use Rattle.source_tokens.specs.HasToken.{HasToken};

use crate::beginning::Beginning;
use source::fault::{Fault, FaultKind};
use source::token::Token;
use std::alloc::Allocator;

/// The tokens of a program, or its first fault. `Memory` is returned only where a growth was refused.
pub fn lex<A: Allocator>(alloc: A, program: &[u8]) -> Result<Vec<Token, A>, Fault>
    ensures exact { MatchResult result (λ v. lexed program.now ≡ Ok v.items) (λ e. IsFirstFault e (lexed program.now)) }
    // What is read is in the text.
    ensures stand { IfOk result (λ v. All (HasToken program.now) v.items) }
    // A fault has its place in the text, too.
    ensures within { IfErr result (λ e. e.at ≤ length program.now) }
{
    let mut tokens = Vec::new(alloc);
    let mut at = 0;
    while let Some(beginning) = Beginning::of(from(program, at)) {
        match beginning {
            Beginning::Skipped { len } => at += len,
            Beginning::Read { kind, len } => {
                let Ok(()) = tokens.push(Token { kind, at }) else {
                    return Err(Fault {
                        kind: FaultKind::Memory,
                        at,
                    });
                };
                at += len;
            }
            Beginning::Refused { kind } => return Err(Fault { kind, at }),
        }
    }
    Ok(tokens)
}

/// The bytes of a name, whose token has its place and its length.
pub fn name_at(program: &[u8], at: usize, len: usize) -> &[u8]
    ensures { result.now ≡ take len (drop at program.now) }
{
    let rest = from(program, at);
    rest.get(..len).unwrap_or(rest)
}

/// The bytes from a place on.
fn from(program: &[u8], at: usize) -> &[u8]
    ensures { result.now ≡ drop at program.now }
{
    program.get(at..).unwrap_or(&[])
}
