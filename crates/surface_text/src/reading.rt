//! Programs that are read.

ghost use Rattle.std.specs.Prelude.{◌≡◌, List, All, Ok, IfOk, MatchResult, length};
ghost use Rattle.source.specs.Tree.{Name};
ghost use Rattle.surface.specs.Spelled.{lexeme};
ghost use Rattle.surface.specs.declared.fault.FaultKind.TheVariants.{Core};
ghost use Rattle.surface_text.specs.Naming.{IsTable};
ghost use Rattle.surface_text.specs.Outcomes.{IsShallow};
ghost use Rattle.surface_text.specs.Running.{words_named, state, ending, IsFault};
ghost use Rattle.surface_text.specs.Reading.{IsStart, IsAdvanced, IsStopped, AreRead, IsParseFault};

use crate::names::Names;
use crate::outcome::Pushes;
use crate::parser::{Parser, Stopped};
use crate::refusal::{Opened, Stop};
use graph::Name;
use law_surface_text::symbol::Symbol;
use source::token::Sign as CoreSign;
use source_tokens::position;
use std::alloc::{AllocError, Allocator};
use surface::fault::{Fault, FaultKind};
use surface::token::{Sign, Token, TokenKind};
use surface::word::Word;

/// The names of a program, each once, and its words, which give a name by its number among these.
#[derive(Drop)]
pub struct Parsed<'a, A: Allocator> {
    pub names: Vec<Name<'a>, A>,
    pub words: Vec<Word<usize>, A>,
}

/// The first fault of a program's tokens, and where the parser stopped.
#[derive(Clone, Copy)]
pub struct Unread {
    pub fault: Fault,
    pub stop: Option<Stop>,
}

/// A growth was refused.
pub(crate) const OUT_OF_MEMORY: Unread = Unread {
    fault: Fault {
        kind: FaultKind::Core {
            kind: source::fault::FaultKind::Memory,
        },
        at: 0,
    },
    stop: None,
};

/// The bracket or the brace that was opened last of those that these tokens leave open.
fn opened_last(text: &[u8], tokens: &[Token]) -> Option<Opened> {
    let mut closed = 0usize;
    for token in tokens.iter().rev() {
        match token.kind {
            TokenKind::Mark {
                sign: Sign::Core {
                    sign: CoreSign::CloseParen | CoreSign::CloseBracket | CoreSign::CloseBrace,
                },
            } => closed = closed.saturating_add(1),
            TokenKind::Mark {
                sign: Sign::Core {
                    sign: CoreSign::OpenParen | CoreSign::OpenBracket | CoreSign::OpenBrace,
                },
            } => {
                if closed == 0 {
                    return Some(Opened {
                        at: token.at,
                        line: position(text, token.at).line,
                    });
                }
                closed = closed.saturating_sub(1);
            }
            _ => (),
        }
    }
    None
}

/// The fault of a text with these tokens that is at this place.
fn refused_at(text: &[u8], tokens: &[Token], stopped: Stopped, at: usize) -> Unread
    ensures { result.fault ≡ record { kind = Core stopped.kind; at = at } }
{
    let Stopped { kind, expected } = stopped;
    let count = tokens.iter().take_while(|token| token.at < at).count();
    let before = tokens.get(..count).unwrap_or(tokens);
    let stop = match expected {
        Some(expected) => Some(Stop {
            expected,
            before: before.last().map(|token| token.at),
            open: opened_last(text, before),
        }),
        None => None,
    };
    Unread {
        fault: Fault {
            kind: FaultKind::Core { kind },
            at,
        },
        stop,
    }
}

/// What was read of a text.
#[derive(Drop)]
struct Reader<'a, A: Allocator> {
    names: Names<'a, A>,
    parser: Parser<A>,
}

impl<'a, A: Allocator + Clone> Reader<'a, A> {
    /// Nothing was read.
    fn new(alloc: A) -> Result<Self, AllocError>
        ensures { IfOk result (λ r. IsStart r.names.numbers r.names.table.items r.parser.stack.items r.parser.words.items) }
    {
        let names = Names::new(&alloc)?;
        let words = Vec::new(alloc.clone()?);
        let mut stack = Vec::new(alloc);
        stack.extend_from_slice(&[Symbol::Items])?;
        Ok(Reader {
            names,
            parser: Parser { stack, words },
        })
    }

    /// Reads a token, or returns why it does not go on.
    fn read(&mut self, pushes: &mut Pushes, text: &'a [u8], token: &Token) -> Result<(), Stopped>
        requires table { IsTable self.old.names.numbers self.old.names.table.items }
        requires shallow { All IsShallow self.old.parser.stack.items }
        ensures { MatchResult result
            (λ _. IsAdvanced token.now.at (lexeme text.now token.now) self.old.names.table.items self.old.parser.stack.items self.old.parser.words.items
            self.new.names.numbers self.new.names.table.items self.new.parser.stack.items self.new.parser.words.items)
            (λ stopped. IsStopped token.now.at (lexeme text.now token.now) self.old.names.table.items self.old.parser.stack.items
            self.old.parser.words.items stopped.kind) }
    {
        let lexeme = match self.names.lexeme(text, token) {
            Ok(lexeme) => lexeme,
            Err(kind) => {
                return Err(Stopped {
                    kind,
                    expected: None,
                });
            }
        };
        self.parser.read(pushes, token.at, lexeme)
    }

    /// The program, where no token of the text is left.
    fn finish(self, text: &[u8], tokens: &[Token]) -> Result<Parsed<'a, A>, Unread>
        ensures { MatchResult result
            (λ p. (p.names.items ≡ self.entry.names.table.items)
            × ((names : List Name) → ending (length text.now) (state names self.entry.parser.stack.items self.entry.parser.words.items)
            ≡ Ok (words_named names p.words.items)))
            (λ u. IsFault u.fault (ending (length text.now) (state self.entry.names.table.items self.entry.parser.stack.items self.entry.parser.words.items))) }
    {
        match self.parser.finish() {
            Ok(words) => Ok(Parsed {
                names: self.names.table,
                words,
            }),
            Err(stopped) => Err(refused_at(text, tokens, stopped, text.len())),
        }
    }
}

/// The program that has these tokens of the text, by its names and its words: there is exactly one. Else the first token at which no program that fits
/// the grammar and is at most 200 deep goes on, or the end, and why. `Memory` is returned only where a growth was refused, or where the dimensions of
/// a parameter cannot be counted in a `usize`. The time is that of the tokens by the logarithm of the number of names.
pub fn parse<'a, A: Allocator + Clone>(
    alloc: A,
    text: &'a [u8],
    tokens: &[Token],
) -> Result<Parsed<'a, A>, Unread>
    ensures { MatchResult result (λ p. AreRead text.now tokens.now p.names.items p.words.items) (λ u. IsParseFault text.now tokens.now u.fault) }
{
    let Ok(mut reader) = Reader::new(alloc) else {
        return Err(OUT_OF_MEMORY);
    };
    let mut pushes = Pushes::new();
    for token in tokens {
        if let Err(stopped) = reader.read(&mut pushes, text, token) {
            return Err(refused_at(text, tokens, stopped, token.at));
        }
    }
    reader.finish(text, tokens)
}
