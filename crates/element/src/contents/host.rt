//! What element 0 does with a token for the host.

ghost use Rattle.std.specs.Prelude.{◌≡◌, ◌<◌, ◌^◌, length, List};
ghost use Rattle.tags.specs.declared.token.Token.{Token};
ghost use Rattle.tags.specs.declared.token.To.{To};
ghost use Rattle.element.specs.Holding.{held_in, part_of, with_part, IsSoundLane};
ghost use Rattle.semantics.specs.Program.{Program};
ghost use Rattle.element.specs.Acts.{ActsAs};
ghost use Rattle.element.specs.Changed.{IsHostChange, CanFill, filled};

use super::Contents;
use crate::lane::Stepped;
use std::alloc::Allocator;
use tags::token::{Token, Word};
use tags::value::Value;

/// What a token for the host fills.
#[derive(Clone, Copy, Debug, PartialEq, Eq)]
pub enum HostChange {
    Output(Value),
    Done,
}

impl<'m, A: Allocator> Contents<'m, A> {
    pub(super) fn at_host(&mut self, at: usize, token: Token, port: u32) -> Stepped
        requires there { at < length self.old.queue.items }
        requires few { self.old.queue.gone < 2 ^ 63 }
        requires address { token.to ≡ To.Host port }
        requires served { self.old.element ≡ 0 }
        ensures { (p : Program) (before : List Token) → IsSoundLane p (held_in self.old) → ActsAs p (held_in self.old) at token before result
            (held_in self.new) before }
    {
        match self.host_change(port, token.word) {
            Ok(change) => {
                self.fill(port, change);
                self.take(at);
                Stepped::Did
            }
            Err(rule) => Stepped::Stuck { rule },
        }
    }

    // What a token for the host fills, or the rule that excludes it.
    fn host_change(&self, port: u32, word: Word) -> Result<HostChange, u8>
        ensures { IsHostChange (part_of self.now) port word result }
    {
        let count = self.outputs.len();
        let place = port as usize;
        if place > count {
            return Err(6);
        }
        if place == count {
            return if self.done {
                Err(6)
            } else {
                Ok(HostChange::Done)
            };
        }
        match (self.outputs.as_slice()[place], word) {
            (Some(_), _) => Err(6),
            (None, Word::Val(value)) => Ok(HostChange::Output(value)),
            (None, _) => Err(4),
        }
    }

    fn fill(&mut self, port: u32, change: HostChange)
        requires { CanFill (part_of self.old) port change }
        ensures held { held_in self.new ≡ with_part (held_in self.old) (filled (part_of self.old) port change) }
        ensures queue { self.new.queue ≡ self.old.queue }
    {
        match change {
            HostChange::Output(value) => {
                self.outputs.as_mut_slice()[port as usize] = Some(value);
            }
            HostChange::Done => self.done = true,
        }
    }
}
