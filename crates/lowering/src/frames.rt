//! The parts that are open, the innermost first.

ghost use Rattle.std.specs.Prelude.{◌≡◌, ◌∷◌, [], None, Some, MatchOption, IfOk, OnOk};
ghost use Rattle.lowering.specs.State.{around};
ghost use Rattle.lowering.specs.Opened.{frame_of, loop_end_of};
ghost use Rattle.lowering.specs.Innermost.{header_in, list_in, targets_in, first_arm_in, second_arm_in, firsts_in, turn_in, loop_end_in};

use crate::frame::{Arms, Begun, Frame, Header, LoopEnd, Open, SecondArm, Turning};
use crate::names::Target;
use semantics::graph::Source;
use std::alloc::{AllocError, Allocator};
use std::collections::VecDeque;
use std::marker::Model;
use std::mem;

/// The open parts. A word that closes a part takes the innermost one, whatever it is, and does no more if it is of another kind.
#[derive(Drop)]
pub struct Frames<'a, A: Allocator> {
    parts: VecDeque<Frame<'a, A>, A>,
}

impl<'a, A: Allocator> Model for Frames<'a, A> {
    ghost use Rattle.std.specs.Prelude.{List};
    ghost use Rattle.lowering.specs.State.{Frame};

    ghost Value = { List Frame };

    ghost view = { λ f. f.parts.items };
}

impl<'a, A: Allocator> Frames<'a, A> {
    /// Nothing is open.
    pub fn new(alloc: A) -> Frames<'a, A>
        ensures { result ≡ [] }
    {
        Frames {
            parts: VecDeque::new(alloc),
        }
    }

    /// A part is open.
    pub fn push(&mut self, part: Open<'a, A>) -> Result<(), AllocError>
        ensures { OnOk result (self.new ≡ frame_of part.entry ∷ self.old) }
    {
        self.parts.push_front(Frame { open: part })?;
        Ok(())
    }

    /// Takes the innermost part, a function.
    pub fn pop_header(&mut self) -> Option<Header<'a, A>>
        ensures rest { self.new ≡ around self.old }
        ensures header { MatchOption result (header_in self.old ≡ None) (λ h. header_in self.old ≡ Some h) }
    {
        let Frame { open } = self.parts.pop_front()?;
        match open {
            Open::Header { header } => Some(header),
            other => {
                mem::drop(other);
                None
            }
        }
    }

    /// Takes the innermost part, a list: the sources before it.
    pub fn pop_list(&mut self) -> Option<Vec<Source, A>>
        ensures rest { self.new ≡ around self.old }
        ensures list { MatchOption result (list_in self.old ≡ None) (λ outer. list_in self.old ≡ Some outer.items) }
    {
        let Frame { open } = self.parts.pop_front()?;
        match open {
            Open::InList { outer } => Some(outer),
            other => {
                mem::drop(other);
                None
            }
        }
    }

    /// Takes the innermost part, a `let`: its targets.
    pub fn pop_targets(&mut self) -> Option<Vec<Target<'a>, A>>
        ensures rest { self.new ≡ around self.old }
        ensures targets { MatchOption result (targets_in self.old ≡ None) (λ ts. targets_in self.old ≡ Some ts.items) }
    {
        let Frame { open } = self.parts.pop_front()?;
        match open {
            Open::Targets { targets } => Some(targets),
            other => {
                mem::drop(other);
                None
            }
        }
    }

    /// Takes the innermost part, the first arm of a conditional.
    pub fn pop_first_arm(&mut self) -> Option<Arms<'a, A>>
        ensures rest { self.new ≡ around self.old }
        ensures arms { MatchOption result (first_arm_in self.old ≡ None) (λ arms. first_arm_in self.old ≡ Some arms) }
    {
        let Frame { open } = self.parts.pop_front()?;
        match open {
            Open::FirstArm { arms } => Some(arms),
            other => {
                mem::drop(other);
                None
            }
        }
    }

    /// Takes the innermost part, the second arm of a conditional.
    pub fn pop_second_arm(&mut self) -> Option<SecondArm<'a, A>>
        ensures rest { self.new ≡ around self.old }
        ensures second { MatchOption result (second_arm_in self.old ≡ None) (λ second. second_arm_in self.old ≡ Some second) }
    {
        let Frame { open } = self.parts.pop_front()?;
        match open {
            Open::Right { second } => Some(second),
            other => {
                mem::drop(other);
                None
            }
        }
    }

    /// Takes the innermost part, the first values of a loop.
    pub fn pop_firsts(&mut self) -> Option<Begun<'a, A>>
        ensures rest { self.new ≡ around self.old }
        ensures begun { MatchOption result (firsts_in self.old ≡ None) (λ begun. firsts_in self.old ≡ Some begun) }
    {
        let Frame { open } = self.parts.pop_front()?;
        match open {
            Open::Firsts { begun } => Some(begun),
            other => {
                mem::drop(other);
                None
            }
        }
    }

    /// Takes the innermost part, the turn of a loop.
    pub fn pop_turn(&mut self) -> Option<Turning<'a, A>>
        ensures rest { self.new ≡ around self.old }
        ensures turn { MatchOption result (turn_in self.old ≡ None) (λ turn. turn_in self.old ≡ Some turn) }
    {
        let Frame { open } = self.parts.pop_front()?;
        match open {
            Open::Turned { turn } => Some(turn),
            other => {
                mem::drop(other);
                None
            }
        }
    }

    /// Takes the innermost part, what ends with a loop.
    pub fn pop_loop_end(&mut self) -> Option<LoopEnd<'a, A>>
        ensures rest { self.new ≡ around self.old }
        ensures end { MatchOption result (loop_end_in self.old ≡ None) (λ end. loop_end_in self.old ≡ Some (loop_end_of end)) }
    {
        let Frame { open } = self.parts.pop_front()?;
        match open {
            Open::Looping { arms } => Some(LoopEnd::Arm { arms }),
            Open::Ending { values } => Some(LoopEnd::Test { values }),
            other => {
                mem::drop(other);
                None
            }
        }
    }
}
