//! The tokens of a program.

ghost use Rattle.std.specs.Prelude.{◌≡◌, ◌≤◌, length, All, Ok, IfOk, IfErr, MatchResult};
ghost use Rattle.surface.specs.Tokens.{lexed};
ghost use Rattle.surface_tokens.specs.Lexing.{IsFirstFault};
ghost use Rattle.surface_tokens.specs.HasToken.{HasToken};

use crate::beginning::Beginning;
use std::alloc::Allocator;
use surface::fault::{Fault, FaultKind};
use surface::token::Token;

/// The tokens of a program, or its first fault. `Memory` is returned only where a growth was refused.
pub fn lex<A: Allocator>(alloc: A, program: &[u8]) -> Result<Vec<Token, A>, Fault>
    ensures exact { MatchResult result (λ v. lexed program.now ≡ Ok v.items) (λ e. IsFirstFault e (lexed program.now)) }
    // What is read is in the text.
    ensures stand { IfOk result (λ v. All (HasToken program.now) v.items) }
    // A fault has its place in the text, too.
    ensures within { IfErr result (λ e. e.at ≤ length program.now) }
{
    let mut tokens = Vec::new(alloc);
    let mut at = 0;
    while let Some(beginning) = Beginning::of(&program[at..]) {
        match beginning {
            Beginning::Skipped { len } => at += len,
            Beginning::Read { kind, len } => {
                let Ok(()) = tokens.push(Token { kind, at }) else {
                    return Err(Fault {
                        kind: FaultKind::Core {
                            kind: source::fault::FaultKind::Memory,
                        },
                        at,
                    });
                };
                at += len;
            }
            Beginning::Refused { kind } => return Err(Fault { kind, at }),
        }
    }
    Ok(tokens)
}
