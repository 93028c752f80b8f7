//! The books of a run while they are kept.

ghost use Rattle.std.specs.Prelude.{◌≡◌, ◌<◌, ◌≤◌, ◌++◌, ◌∷◌, ◌^◌, [], true, false, None, Some, length, map, set, nat_lt, slice_get, All, List, ℕ, IfOk, IfErr, IfSome, IfNone, OnOk};
ghost use Rattle.semantics.specs.Program.{Program};
ghost use Rattle.replay.specs.Books.{frame_change, host_change};
ghost use Rattle.element.specs.Holding.{fixed_of, IsFor, IsSoundLane};
ghost use Rattle.element.specs.Steps.{Does};
ghost use Rattle.tags.specs.declared.token.Token.{Token};
ghost use Rattle.replay.specs.Entering.{IsExtent, IsWhole, IsBlank, IsThere, IsReady, StateIs, Took, Enters, EntersAll, Passes, Begins, AreBooks};
ghost use Rattle.replay.specs.Entering.{Says, IsExcluded, IsFirstExcluded, IsUnfit, AreUnfit, HasNoRun, start_tokens, on_way, numbers_from};
ghost use Rattle.replay.specs.Entering.{place_used, deed_by, change_by, place_change, request_change, fetch_change};

use crate::acts::deed_at;
use crate::entry::{Books, Change, Entry};
use crate::extent::Extent;
use crate::fault::ReplayRefusal;
use crate::moment::Deed;
use crate::slots::Place;
use crate::token_index::TokenIndex;
use element::instructions::Instructions;
use element::lane::{Lane, Stepped};
use packed::token::PackedToken;
use std::alloc::{AllocError, Allocator};
use tags::slot::SlotState;
use tags::token::{Cont, Port, To, Token, Word};
use tags::value::Value;

/// A lane that is all of the machine, with the tokens that are on their way. An event takes as long however many these are.
#[derive(Drop)]
pub struct Ledger<'m, C: Instructions, A: Allocator> {
    pub extent: Extent,
    /// It has a token only during an event.
    pub lane: Lane<'m, C, A>,
    /// Each token that was made, in the place of its number, until it is taken.
    pub places: Vec<Option<Token>, A>,
    /// Says where to look for a token.
    pub index: TokenIndex<A>,
}

// Whether the tokens are equal.
fn is_same(left: &Token, right: &Token) -> bool
    ensures yes { result ≡ true → left.now ≡ right.now }
    ensures no { result ≡ false → left.now ≡ right.now → ⊥ }
{
    *left == *right
}

// The slot that the token's instruction uses, if it uses one.
fn place_used<C: Instructions>(code: &C, to: &To) -> Option<Place>
    ensures exact { result ≡ place_used (C.program code.now) to.now }
    ensures short { IfSome result (λ place. place.slot < C.width code.now) }
{
    let To::Instr { frame, ip, .. } = *to else {
        return None;
    };
    let Some(instr) = code.instr(ip) else {
        return None;
    };
    match instr.op.slot_in(instr.slot()) {
        Some(slot) => Some(Place { frame, slot }),
        None => None,
    }
}

// The deed of a token that found a slot in the one state, left it in the other, and made so many tokens.
fn deed_by(to: &To, before: &SlotState, after: &SlotState, made: usize) -> Deed
    ensures { result ≡ deed_by to.now before.now after.now made }
{
    match *to {
        To::Instr { .. } => deed_at(before, after),
        To::Fetch { .. } if made == 0 => Deed::Deferred,
        To::Fetch { .. } => Deed::Answered,
        To::Store { .. } if made < 2 => Deed::Stored,
        To::Store { .. } => Deed::Served,
        To::Manager if made == 0 => Deed::Queued,
        To::Manager => Deed::Given,
        To::Release { .. } if made == 0 => Deed::Freed,
        To::Release { .. } => Deed::HandedOn,
        To::Host { .. } => Deed::Arrived,
    }
}

fn place_change(used: Option<Place>, after: SlotState) -> Change
    ensures { result ≡ place_change used after }
{
    match used {
        None => Change::Nothing,
        Some(Place { frame, slot }) => Change::Slot {
            frame,
            slot,
            state: after,
        },
    }
}

fn fetch_change(cell: u32, word: Word, made: usize) -> Change
    ensures { result ≡ fetch_change cell word made }
{
    match word {
        Word::Back(cont) if made == 0 => Change::Reader { cell, cont },
        _ => Change::Nothing,
    }
}

fn frame_change(word: Word) -> Change
    ensures { result ≡ frame_change word }
{
    match word {
        Word::Frame(frame) => Change::Out { frame },
        _ => Change::Nothing,
    }
}

fn request_change(word: Word, answer: Option<Token>) -> Change
    ensures { result ≡ request_change word answer }
{
    match answer {
        Some(answer) => frame_change(answer.word),
        None => match word {
            Word::Back(cont) => Change::Queued { cont },
            _ => Change::Nothing,
        },
    }
}

// A word for a port below the outputs fills that output; the port after them takes the done signal.
fn host_change(outputs: u32, port: u32, word: Word) -> Change
    ensures { result ≡ host_change (nat_lt port outputs) port word }
{
    if port < outputs {
        match word {
            Word::Val(value) => Change::Output { port, value },
            _ => Change::Nothing,
        }
    } else {
        Change::Done { port, word }
    }
}

// The change that a token made, by the slot that it used and the state of that then.
fn change_by(
    outputs: u32,
    token: &Token,
    used: Option<Place>,
    after: SlotState,
    made: &[Token],
) -> Change
    ensures { result ≡ change_by outputs token.now.to token.now.word used after made.now }
{
    match token.to {
        To::Instr { .. } => place_change(used, after),
        To::Fetch { cell } => fetch_change(cell, token.word, made.len()),
        To::Store { cell, value } => Change::Filled { cell, value },
        To::Manager => request_change(token.word, made.first().copied()),
        To::Release { frame } if made.is_empty() => Change::Free { frame },
        To::Release { frame } => Change::Handed { frame },
        To::Host { port } => host_change(outputs, port, token.word),
    }
}

/// The tokens of the start: the continuation of the host goes to main's first instruction, and each input to the next ones.
pub fn start_tokens<A: Allocator>(
    alloc: A,
    main: u32,
    inputs: &[i64],
) -> Result<Vec<Token, A>, AllocError>
    requires short { main < 2 ^ 30 }
    requires few { length inputs.now ≤ 16 }
    ensures { IfOk result (λ v. v.items ≡ start_tokens main inputs.now) }
{
    let mut tokens = Vec::new(alloc);
    tokens.push(Token {
        to: To::Instr {
            frame: 0,
            ip: main,
            port: Port::Left,
        },
        word: Word::Back(Cont::Host { port: 0 }),
    })?;
    let mut ip = main;
    for input in inputs {
        ip += 1;
        tokens.push(Token {
            to: To::Instr {
                frame: 0,
                ip,
                port: Port::Left,
            },
            word: Word::Val(Value::Int(*input)),
        })?;
    }
    Ok(tokens)
}

// The tokens get the next places.
fn place_all<A: Allocator>(
    places: &mut Vec<Option<Token>, A>,
    tokens: &[Token],
) -> Result<(), AllocError>
    ensures { OnOk result (places.new.items ≡ places.old.items ++ map Some tokens.now) }
{
    for token in tokens {
        places.push(Some(*token))?;
    }
    Ok(())
}

// The token of one place more, if it has one.
fn add_token<A: Allocator>(
    tokens: &mut Vec<Token, A>,
    place: Option<Token>,
) -> Result<(), AllocError>
    ensures { OnOk result (tokens.new.items ≡ tokens.old.items ++ on_way (place ∷ [])) }
{
    if let Some(token) = place {
        tokens.push(token)?;
    }
    Ok(())
}

// The tokens that are on their way.
fn tokens_in<A: Allocator>(alloc: A, places: &[Option<Token>]) -> Result<Vec<Token, A>, AllocError>
    ensures { IfOk result (λ tokens. tokens.items ≡ on_way places.now) }
{
    let mut tokens = Vec::new(alloc);
    for place in places {
        add_token(&mut tokens, *place)?;
    }
    Ok(tokens)
}

// The number of one place more, if that has a token.
fn add_number<A: Allocator>(
    numbers: &mut Vec<u64, A>,
    number: u64,
    place: Option<Token>,
) -> Result<(), AllocError>
    ensures { OnOk result (numbers.new.items ≡ numbers.old.items ++ numbers_from number (place ∷ [])) }
{
    if place.is_some() {
        numbers.push(number)?;
    }
    Ok(())
}

// The numbers of the tokens that are on their way.
fn numbers_in<A: Allocator>(alloc: A, places: &[Option<Token>]) -> Result<Vec<u64, A>, AllocError>
    ensures { IfOk result (λ numbers. numbers.items ≡ numbers_from 0 places.now) }
{
    let mut numbers = Vec::new(alloc);
    for number in 0..places.len() {
        add_number(&mut numbers, number as u64, places[number])?;
    }
    Ok(numbers)
}

impl<'m, C: Instructions, A: Allocator> Ledger<'m, C, A> {
    // Whether the token of this number is on its way and is this one.
    fn has(&self, number: usize, token: &Token) -> bool
        ensures yes { result ≡ true → slice_get self.now.places.items number ≡ Some (Some token.now) }
        ensures no { result ≡ false → slice_get self.now.places.items number ≡ Some (Some token.now) → ⊥ }
    {
        match self.places.get(number) {
            Some(Some(held)) => is_same(held, token),
            _ => false,
        }
    }

    // The number that the token may have, as the index says.
    fn likely_number(&self, token: &Token) -> Option<usize> {
        let number = self.index.first(token)?;
        usize::try_from(number).ok()
    }

    // The number of the token. All places are searched only where it has not the number that it may have.
    fn number_of(&self, token: &Token) -> Option<usize>
        ensures there { IfSome result (λ number. slice_get self.now.places.items number ≡ Some (Some token.now)) }
        ensures none { IfNone result ((number : ℕ) → slice_get self.now.places.items number ≡ Some (Some token.now) → ⊥) }
    {
        if let Some(likely) = self.likely_number(token) {
            if self.has(likely, token) {
                return Some(likely);
            }
        }
        for number in 0..self.places.len() {
            if self.has(number, token) {
                return Some(number);
            }
        }
        None
    }

    // What the slot holds. Where there is none it is empty.
    fn state_at(&self, place: Option<Place>) -> SlotState
        requires whole { (p : Program) × IsWhole p self.now.extent self.now.lane }
        requires there { IfSome place (IsThere self.now.extent) }
        ensures { StateIs self.now.lane place result }
    {
        match place {
            None => SlotState::Empty,
            Some(Place { frame, slot }) => self.lane.slot_state(frame, slot),
        }
    }

    // The lane's tokens.
    fn tokens_held(&self, alloc: A) -> Result<Vec<Token, A>, AllocError>
        ensures { IfOk result (λ tokens. tokens.items ≡ self.now.lane.held.queue) }
    {
        let queue = self.lane.queue();
        let mut tokens = Vec::new(alloc);
        for at in 0..queue.len() {
            tokens.push(queue.get(at))?;
        }
        Ok(tokens)
    }

    // The lane takes its oldest token. `NotARun` says that a rule excludes the token.
    fn step(&mut self, alloc: &A) -> Result<(), ReplayRefusal>
    where
        A: Clone,
        requires some { 0 < length self.old.lane.held.queue }
        requires sound { IsSoundLane self.old.lane.program self.old.lane.held }
        ensures did { OnOk result ((sent : List Token) × Does self.old.lane.program self.old.lane.held 0 [] self.new.lane.held sent) }
        ensures excluded { IfErr result (λ fault. Says fault (IsFirstExcluded self.old.lane)) }
        ensures sound { IsSoundLane self.new.lane.program self.new.lane.held }
        ensures fixed { fixed_of self.new.lane ≡ fixed_of self.old.lane }
        ensures extent { self.new.extent ≡ self.old.extent }
        ensures places { self.new.places ≡ self.old.places }
    {
        let mut sent = Vec::new(alloc.clone()?);
        match self.lane.step::<()>(0, &mut sent) {
            Some(Stepped::Did) => Ok(()),
            Some(Stepped::Idle) => Err(ReplayRefusal::NotARun),
            Some(Stepped::Clash { .. }) => Err(ReplayRefusal::NotARun),
            Some(Stepped::Stuck { .. }) => Err(ReplayRefusal::NotARun),
            Some(Stepped::Memory) | None => Err(ReplayRefusal::Memory),
        }
    }

    // The lane takes the token, and is left without those that it makes, which are answered. `NotARun` says that a rule excludes the token.
    fn fire(&mut self, alloc: &A, token: Token) -> Result<Vec<Token, A>, ReplayRefusal>
    where
        A: Clone,
        requires idle { self.old.lane.held.queue ≡ [] }
        requires near { IsFor (fixed_of self.old.lane) token }
        requires sound { IsSoundLane self.old.lane.program self.old.lane.held }
        ensures did { IfOk result (λ made. Took self.old.lane.program self.old.lane token made.items self.new.lane) }
        ensures near { IfOk result (λ made. All (IsFor (fixed_of self.old.lane)) made.items) }
        ensures excluded { IfErr result (λ fault. Says fault (IsExcluded self.old.lane token)) }
        ensures sound { IsSoundLane self.new.lane.program self.new.lane.held }
        ensures fixed { fixed_of self.new.lane ≡ fixed_of self.old.lane }
        ensures extent { self.new.extent ≡ self.old.extent }
        ensures places { self.new.places ≡ self.old.places }
    {
        self.lane.receive(PackedToken::pack(token))?;
        self.step(alloc)?;
        let made = self.tokens_held(alloc.clone()?)?;
        self.lane.clear_queue();
        Ok(made)
    }

    // The token of this number is on its way no more, and those that it made are.
    fn replace(&mut self, number: usize, token: &Token, made: &[Token]) -> Result<(), AllocError>
    where
        A: Clone,
        requires { number < length self.old.places.items }
        ensures places { OnOk result (self.new.places.items ≡ set self.old.places.items number None ++ map Some made.now) }
        ensures lane { self.new.lane ≡ self.old.lane }
        ensures extent { self.new.extent ≡ self.old.extent }
    {
        self.places[number] = None;
        self.index.take(token)?;
        self.index.put_all(made, self.places.len() as u64)?;
        place_all(&mut self.places, made)
    }

    // Enters an event. `NotARun` says that the machine has no such event. After an error the ledger is of no use.
    fn enter(
        &mut self,
        alloc: &A,
        code: &C,
        event: &(u32, Token),
    ) -> Result<Entry<A>, ReplayRefusal>
    where
        A: Clone,
        requires whole { IsWhole (C.program code.now) self.old.extent self.old.lane }
        requires extent { IsExtent (C.program code.now) (C.width code.now) self.old.extent }
        requires ready { IsReady self.old }
        ensures whole { IsWhole (C.program code.now) self.new.extent self.new.lane }
        ensures extent { self.new.extent ≡ self.old.extent }
        ensures ready { IfOk result (λ x. IsReady self.new) }
        ensures entered { IfOk result (λ x. Enters (C.program code.now) self.old event.now x self.new) }
        ensures unfit { IfErr result (λ fault. Says fault (IsUnfit (C.program code.now) self.old event.now)) }
    {
        let token = event.1;
        if token.to.element(self.extent.elements) != event.0 {
            return Err(ReplayRefusal::NotARun);
        }
        let Some(number) = self.number_of(&token) else {
            return Err(ReplayRefusal::NotARun);
        };
        let used = place_used(code, &token.to);
        let before = self.state_at(used);
        let made = self.fire(alloc, token)?;
        let after = self.state_at(used);
        self.replace(number, &token, &made)?;
        let deed = deed_by(&token.to, &before, &after, made.len());
        let change = change_by(self.extent.outputs, &token, used, after, &made);
        Ok(Entry {
            number: number as u64,
            deed,
            change,
            made,
        })
    }

    // Enters each of the events. `NotARun` says that there is no run in order by them. After an error the ledger is of no use.
    fn enter_all(
        &mut self,
        alloc: A,
        code: &C,
        events: &[(u32, Token)],
    ) -> Result<Vec<Entry<A>, A>, ReplayRefusal>
    where
        A: Clone,
        requires whole { IsWhole (C.program code.now) self.old.extent self.old.lane }
        requires extent { IsExtent (C.program code.now) (C.width code.now) self.old.extent }
        requires ready { IsReady self.old }
        ensures entered { IfOk result (λ v. EntersAll (C.program code.now) self.old events.now v.items) }
        ensures unfit { IfErr result (λ fault. Says fault (AreUnfit (C.program code.now) self.old events.now)) }
    {
        let mut entries = Vec::with_capacity(alloc.clone()?, events.len())?;
        for event in events {
            let entry = self.enter(&alloc, code, event)?;
            entries.push(entry)?;
        }
        Ok(entries)
    }

    // Enters each of the events, and keeps of each only its change, also where that is none. `NotARun` says that there is no run in order by them.
    // After an error the ledger is of no use.
    fn pass_all(
        &mut self,
        alloc: &A,
        code: &C,
        events: &[(u32, Token)],
    ) -> Result<Vec<Change, A>, ReplayRefusal>
    where
        A: Clone,
        requires whole { IsWhole (C.program code.now) self.old.extent self.old.lane }
        requires extent { IsExtent (C.program code.now) (C.width code.now) self.old.extent }
        requires ready { IsReady self.old }
        ensures whole { IsWhole (C.program code.now) self.new.extent self.new.lane }
        ensures extent { self.new.extent ≡ self.old.extent }
        ensures ready { IfOk result (λ v. IsReady self.new) }
        ensures passed { IfOk result (λ v. Passes (C.program code.now) self.old events.now v.items self.new) }
        ensures unfit { IfErr result (λ fault. Says fault (AreUnfit (C.program code.now) self.old events.now)) }
    {
        let mut changes = Vec::new(alloc.clone()?);
        for event in events {
            let entry = self.enter(alloc, code, event)?;
            changes.push(entry.change)?;
        }
        Ok(changes)
    }

    // Enters the tokens of the start.
    fn begin(&mut self, alloc: A, code: &C, inputs: &[i64]) -> Result<(), AllocError>
    where
        A: Clone,
        requires blank { IsBlank (C.program code.now) self.old }
        requires extent { IsExtent (C.program code.now) (C.width code.now) self.old.extent }
        requires few { length inputs.now ≤ 16 }
        ensures whole { IsWhole (C.program code.now) self.new.extent self.new.lane }
        ensures extent { self.new.extent ≡ self.old.extent }
        ensures ready { OnOk result (IsReady self.new) }
        ensures begun { OnOk result (Begins (C.program code.now) inputs.now self.new) }
    {
        let tokens = start_tokens(alloc, self.extent.main, inputs)?;
        self.index.put_all(&tokens, 0)?;
        place_all(&mut self.places, &tokens)?;
        Ok(())
    }

    /// The books of a run on these inputs: enters the tokens of the start, and then each of the events, and gives the entries of `events`, before
    /// which there were those of `earlier`. The machine hands out the free frame of least number, and gives a released frame to the request that
    /// has waited longest. What is answered is a run of the machine by these events. `NotARun` says that there is no such run by them. After an
    /// error the ledger is of no use.
    pub fn keep(
        &mut self,
        alloc: A,
        code: &C,
        inputs: &[i64],
        earlier: &[(u32, Token)],
        events: &[(u32, Token)],
    ) -> Result<Books<A>, ReplayRefusal>
    where
        A: Clone,
        requires blank { IsBlank (C.program code.now) self.old }
        requires extent { IsExtent (C.program code.now) (C.width code.now) self.old.extent }
        requires few { length inputs.now ≤ 16 }
        ensures books { IfOk result (AreBooks (C.program code.now) self.old.extent inputs.now earlier.now events.now) }
        ensures unfit { IfErr result (λ fault. Says fault (HasNoRun (C.program code.now) self.old.extent inputs.now (earlier.now ++ events.now))) }
    {
        self.begin(alloc.clone()?, code, inputs)?;
        let changes = self.pass_all(&alloc, code, earlier)?;
        let tokens = tokens_in(alloc.clone()?, &self.places)?;
        let numbers = numbers_in(alloc.clone()?, &self.places)?;
        let next = self.places.len() as u64;
        let entries = self.enter_all(alloc, code, events)?;
        Ok(Books {
            changes,
            tokens,
            numbers,
            next,
            entries,
        })
    }
}
