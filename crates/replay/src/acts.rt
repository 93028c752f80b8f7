//! What each token does.

ghost use Rattle.std.specs.Prelude.{◌≡◌, ◌≤◌, OnOk, length, option_to_list};
ghost use Rattle.tags.specs.declared.token.To.{To};
ghost use Rattle.tags.specs.declared.token.Word.{Word};
ghost use Rattle.semantics.specs.Program.{Program};
ghost use Rattle.semantics.specs.Rule as Rule;
ghost use Rattle.element.specs.Decoded.{instr_of, dest_in};
ghost use Rattle.element.specs.Fired.{tokens_of, HasRoomInWord, HasRoomInSlot};
ghost use Rattle.replay.specs.Moments.{at_slot};
ghost use Rattle.replay.specs.DoesAs.{held_in, Sets, IsAnswer, DoesAs};

use crate::cells::Cell;
use crate::fault::ReplayRefusal;
use crate::moment::Deed;
use crate::slots::Slots;
use crate::state::{Did, State};
use element::firing::{Made, NONE, Operand, Outcome, Point, fire};
use element::instructions::{Instruction, Instructions, dest_in};
use semantics::program::Op;
use std::alloc::{AllocError, Allocator};
use tags::slot::SlotState;
use tags::token::{Cont, FrameId, Port, To, Token, Word};
use tags::value::Value;

// Whether an offset can be added to what the word carries.
fn has_room(word: &Word) -> bool
    ensures { IsAnswer (HasRoomInWord word.now) result }
{
    match *word {
        Word::Back(Cont::Frame { ip, .. }) => ip < 2_147_483_648,
        Word::Back(Cont::Host { port }) => port < 2_147_483_648,
        _ => true,
    }
}

fn has_room_in_slot(slot: &SlotState) -> bool
    ensures { IsAnswer (HasRoomInSlot slot.now) result }
{
    match slot {
        SlotState::Left(word) | SlotState::Right(word) => has_room(word),
        _ => true,
    }
}

// How many tokens a half word is for.
fn count_half(half: u32) -> u64
    ensures exact { result ≡ length (option_to_list (dest_in half)) }
    ensures few { result ≤ 1 }
{
    match dest_in(half) {
        Some(_) => 1,
        None => 0,
    }
}

// How many tokens are made.
fn count_made(made: &Made) -> u64
    ensures { (s : Rule.Point) → result ≡ length (tokens_of s made.now) }
{
    u64::from(made.released.is_some())
        + u64::from(made.outside.is_some())
        + count_half(made.first)
        + count_half(made.second)
}

// What a token did at an instruction whose slot had the one state before and has the other then.
pub(crate) fn deed_at(before: &SlotState, after: &SlotState) -> Deed
    ensures { result ≡ at_slot before.now after.now }
{
    match *before {
        SlotState::Empty => match *after {
            SlotState::Left(_) | SlotState::Right(_) => Deed::Waited,
            _ => Deed::Fired,
        },
        SlotState::Credits(_) => match *after {
            SlotState::Waiter(_) => Deed::Queued,
            SlotState::Draining(_) => Deed::Waited,
            _ => Deed::Fired,
        },
        _ => Deed::Fired,
    }
}

impl<A: Allocator> Slots<A> {
    // The state of the slot that an instruction uses; of none it is empty.
    fn state_in(&self, frame: FrameId, slot: Option<u32>) -> SlotState
        ensures { result ≡ held_in self.now frame slot }
    {
        match slot {
            Some(slot) => self.state(frame, slot),
            None => SlotState::Empty,
        }
    }

    fn set_in(
        &mut self,
        frame: FrameId,
        slot: Option<u32>,
        state: SlotState,
    ) -> Result<(), AllocError>
    where
        A: Clone,
        ensures { OnOk result (Sets self.old frame slot state self.new) }
    {
        match slot {
            Some(slot) => self.set(frame, slot, state),
            None => Ok(()),
        }
    }
}

impl<A: Allocator> State<A> {
    // A token arrives at an instruction.
    fn at_instruction<C: Instructions>(
        &mut self,
        code: &C,
        point: Point,
        port: Port,
        word: Word,
    ) -> Result<Did, ReplayRefusal>
    where
        A: Clone,
        requires narrow { C.width code.now ≤ 512 }
        ensures does_as { DoesAs (C.program code.now) self.old (Rule.token (To.Instr point.frame point.ip port) word) result self.new }
        ensures frames { self.new.frames ≡ self.old.frames }
        ensures tokens { self.new.tokens ≡ self.old.tokens }
    {
        let Some(instr) = code.instr(point.ip) else {
            return Err(ReplayRefusal::NotARun);
        };
        let slot = instr.op.slot_in(instr.slot());
        let state = self.slots.state_in(point.frame, slot);
        if !has_room(&word) || !has_room_in_slot(&state) {
            return Err(ReplayRefusal::NotARun);
        }
        let mut made = NONE;
        let operand = Operand { port, word };
        match fire(code, point, &instr, state, operand, &mut made) {
            Outcome::Becomes { slot: after } => {
                self.slots.set_in(point.frame, slot, after)?;
                let made = count_made(&made);
                Ok(Did {
                    deed: deed_at(&state, &after),
                    made,
                })
            }
            Outcome::Excluded { .. } => Err(ReplayRefusal::NotARun),
        }
    }

    // A fetch finds a value, or its reader waits.
    fn at_fetch(&mut self, cell: u32, cont: Cont) -> Result<Did, ReplayRefusal>
    where
        A: Clone,
        ensures does_as { (p : Program) → DoesAs p self.old (Rule.token (To.Fetch cell) (Word.Back cont)) result self.new }
        ensures frames { self.new.frames ≡ self.old.frames }
        ensures tokens { self.new.tokens ≡ self.old.tokens }
    {
        let before = match self.cells.cell(cell) {
            Cell::Full => {
                return Ok(Did {
                    deed: Deed::Answered,
                    made: 1,
                });
            }
            Cell::Vacant => 0,
            Cell::Deferred { readers } => readers,
        };
        let Some(readers) = before.checked_add(1) else {
            return Err(ReplayRefusal::Memory);
        };
        self.cells.set(cell, Cell::Deferred { readers })?;
        Ok(Did {
            deed: Deed::Deferred,
            made: 0,
        })
    }

    // A value is stored, and readers that wait for it are answered.
    fn at_store(&mut self, cell: u32, value: Value, cont: Cont) -> Result<Did, ReplayRefusal>
    where
        A: Clone,
        ensures does_as { (p : Program) → DoesAs p self.old (Rule.token (To.Store cell value) (Word.Back cont)) result self.new }
        ensures frames { self.new.frames ≡ self.old.frames }
        ensures tokens { self.new.tokens ≡ self.old.tokens }
    {
        let readers = match self.cells.cell(cell) {
            Cell::Full => return Err(ReplayRefusal::NotARun),
            Cell::Vacant => 0,
            Cell::Deferred { readers } => readers,
        };
        let Some(made) = readers.checked_add(1) else {
            return Err(ReplayRefusal::Memory);
        };
        self.cells.set(cell, Cell::Full)?;
        let deed = if readers == 0 {
            Deed::Stored
        } else {
            Deed::Served
        };
        Ok(Did { deed, made })
    }

    // A request is given a frame, or waits.
    fn at_manager(&mut self, cont: Cont) -> Result<Did, ReplayRefusal>
        ensures does_as { (p : Program) → DoesAs p self.old (Rule.token To.Manager (Word.Back cont)) result self.new }
        ensures frames { self.new.frames ≡ self.old.frames }
        ensures tokens { self.new.tokens ≡ self.old.tokens }
    {
        if self.frames_out < self.frames {
            self.frames_out += 1;
            return Ok(Did {
                deed: Deed::Given,
                made: 1,
            });
        }
        let Some(requests) = self.requests.checked_add(1) else {
            return Err(ReplayRefusal::Memory);
        };
        self.requests = requests;
        Ok(Did {
            deed: Deed::Queued,
            made: 0,
        })
    }

    // A frame that is handed back goes to a request that waits, or is free.
    fn at_release(&mut self, frame: FrameId, word: Word) -> Result<Did, ReplayRefusal>
        ensures does_as { (p : Program) → DoesAs p self.old (Rule.token (To.Release frame) word) result self.new }
        ensures frames { self.new.frames ≡ self.old.frames }
        ensures tokens { self.new.tokens ≡ self.old.tokens }
    {
        if let Some(requests) = self.requests.checked_sub(1) {
            self.requests = requests;
            return Ok(Did {
                deed: Deed::HandedOn,
                made: 1,
            });
        }
        let Some(frames_out) = self.frames_out.checked_sub(1) else {
            return Err(ReplayRefusal::NotARun);
        };
        self.frames_out = frames_out;
        Ok(Did {
            deed: Deed::Freed,
            made: 0,
        })
    }

    /// What the token does. After an error no event may be reported.
    pub fn act<C: Instructions>(&mut self, code: &C, token: Token) -> Result<Did, ReplayRefusal>
    where
        A: Clone,
        requires narrow { C.width code.now ≤ 512 }
        ensures does_as { DoesAs (C.program code.now) self.old token result self.new }
        ensures frames { self.new.frames ≡ self.old.frames }
        ensures tokens { self.new.tokens ≡ self.old.tokens }
    {
        match (token.to, token.word) {
            (To::Instr { frame, ip, port }, word) => {
                self.at_instruction(code, Point { frame, ip }, port, word)
            }
            (To::Fetch { cell }, Word::Back(cont)) => self.at_fetch(cell, cont),
            (To::Store { cell, value }, Word::Back(cont)) => self.at_store(cell, value, cont),
            (To::Manager, Word::Back(cont)) => self.at_manager(cont),
            (To::Release { frame }, word) => self.at_release(frame, word),
            (To::Host { .. }, _) => Ok(Did {
                deed: Deed::Arrived,
                made: 0,
            }),
            _ => Err(ReplayRefusal::NotARun),
        }
    }
}
