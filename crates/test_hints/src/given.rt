//! The outcome of a command, as the table gives it.

use assembler::{AsmCause, AsmRefusal, Unfit};
use outcomes::{Ending, MadeFault, Outcome, Refusal};
use semantics::report::End;
use tags::value::{FaultKind, NodeNumber, Origin};

/// The number that the word is; 0 where it is none.
fn number(word: Option<&str>) -> u64 {
    match word {
        Some(word) => word.parse().unwrap_or(0),
        None => 0,
    }
}

fn ended(end: End, frames: u64, credits: u64, readers: u64) -> Outcome {
    Outcome::Reported(Ending::Run {
        end,
        frames,
        credits,
        readers,
        fault: None,
    })
}

/// A run at rest, of which an output has a fault of this kind, made at this node of this block.
fn faulty(kind: &str, block: Option<&str>, node: Option<&str>) -> Outcome {
    let kind = match kind {
        "zero" => FaultKind::Zero,
        _ => FaultKind::Range,
    };
    let origin = match block {
        Some(_) => Origin::At {
            block: u8::try_from(number(block)).unwrap_or(0),
            node: NodeNumber::new((number(node) % 1024) as u16),
        },
        None => Origin::Untold,
    }
    .code();
    Outcome::Reported(Ending::Run {
        end: End::Rest,
        frames: 0,
        credits: 0,
        readers: 0,
        fault: Some(MadeFault { kind, origin }),
    })
}

/// The refusal of this part, at this block or line.
fn refusal_of(part: &str, place: u64) -> Refusal {
    match part {
        "input" => Refusal::Input,
        "slots" => Refusal::TooManySlots(place),
        "far" => Refusal::TooFar(place),
        "listing" => Refusal::Asm(AsmRefusal {
            cause: AsmCause::Unfit(Unfit::ManyLiterals),
            line: place,
        }),
        _ => Refusal::Memory,
    }
}

/// The outcome of a command, as these words give it. `None` where a write failed.
pub fn outcome_of(words: &str) -> Option<Outcome> {
    let mut words = words.split(' ');
    let outcome = match words.next()? {
        "done" => Outcome::Done,
        "differed" => Outcome::Differed,
        "faulty" => faulty(words.next()?, words.next(), words.next()),
        "steps" => ended(End::Steps, 0, 0, 0),
        "memory" => ended(End::Memory, 0, 0, 0),
        "rest" => ended(End::Rest, 0, 0, number(words.next())),
        "starved" => {
            let frames = number(words.next());
            ended(End::Starved, frames, number(words.next()), 0)
        }
        "stuck" => {
            let rule = u8::try_from(number(words.next())).unwrap_or(0);
            ended(End::Stuck { rule }, 0, 0, 0)
        }
        "refused" => {
            let part = words.next()?;
            Outcome::Refused(refusal_of(part, number(words.next())))
        }
        _ => return None,
    };
    Some(outcome)
}
