//! What is held of a machine.

ghost use Rattle.std.specs.Prelude.{◌≡◌, ◌≤◌};
ghost use Rattle.replay.specs.DoesAs.{IsCounted, Moves};

use crate::cells::Cells;
use crate::fault::ReplayRefusal;
use crate::moment::{Deed, Moment};
use crate::slots::Slots;
use element::instructions::Instructions;
use std::alloc::Allocator;
use tags::token::Token;

/// What is held of a machine while its events are replayed.
#[derive(Drop)]
pub struct State<A: Allocator> {
    pub slots: Slots<A>,
    pub cells: Cells<A>,
    /// How many tokens there are.
    pub tokens: u64,
    /// How many frames all elements have.
    pub frames: u64,
    /// How many of them are out.
    pub frames_out: u64,
    /// How many requests for frames wait.
    pub requests: u64,
}

/// What an event did, and how many tokens it made.
#[derive(Clone, Copy, Debug, PartialEq, Eq)]
pub struct Did {
    pub deed: Deed,
    pub made: u64,
}

// How many tokens there are after an event that made `made` of them.
fn count(tokens: u64, made: u64) -> Result<u64, ReplayRefusal>
    ensures { IsCounted tokens made result }
{
    let Some(left) = tokens.checked_sub(1) else {
        return Err(ReplayRefusal::NotARun);
    };
    let Some(tokens) = left.checked_add(made) else {
        return Err(ReplayRefusal::Memory);
    };
    Ok(tokens)
}

impl<A: Allocator> State<A> {
    /// The moment of the next event, which takes this token. After an error no event may be reported.
    pub fn next<C: Instructions>(&mut self, code: &C, token: Token) -> Result<Moment, ReplayRefusal>
    where
        A: Clone,
        requires narrow { C.width code.now ≤ 512 }
        ensures moves { Moves (C.program code.now) self.old token result self.new }
        ensures frames { self.new.frames ≡ self.old.frames }
    {
        let did = self.act(code, token)?;
        self.tokens = count(self.tokens, did.made)?;
        Ok(Moment {
            deed: did.deed,
            tokens: self.tokens,
            full_slots: self.slots.full,
            frames_out: self.frames_out,
        })
    }
}
