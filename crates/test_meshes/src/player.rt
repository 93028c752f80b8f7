//! One element of a ring: it passes each token on to the next element, until the token has been all round.
ghost use Rattle.std.specs.Prelude.{◌≡◌, ◌<◌, ◌≤◌, ◌+◌, ◌^◌, ◌++◌, [], length, IfSome, IfOk, OnOk, filter, ◌==◌};
ghost use Rattle.tags.specs.Addresses.{element_of};
ghost use Rattle.mesh.specs.Seats.{AllTo, Has, fresh_seat};
ghost use Rattle.test_meshes.specs.Playing.{IsAt, IsPlaying};

use mesh::{Mesh, Seat};
use std::alloc::{AllocError, Global};
use std::mem;
use std::sync::Wait;
use tags::token::{Port, To, Token, Word};

const MOST: u64 = 1 << 40;

/// The start tokens of element `e` have the numbers from `e * NUMBERS` on.
pub const NUMBERS: u32 = 100_000;

/// The tokens that came back to their first element. Their numbers should be those from `first` on, each once, in order.
#[derive(Clone, Copy, Drop)]
pub struct Tally {
    pub first: u32,
    pub arrived: u32,
    pub astray: bool,
}

impl Tally {
    fn arrive(&mut self, token: &Token) {
        let Word::Frame(number) = token.word else {
            self.astray = true;
            return;
        };
        if number != self.first.wrapping_add(self.arrived) {
            self.astray = true;
        }
        self.arrived = self.arrived.wrapping_add(1);
    }
}

/// An element with its seat.
#[derive(Drop)]
pub struct Player {
    pub seat: Seat<Vec<Token>>,
    /// The tokens that it made and has not posted yet.
    pub kept: Vec<Token>,
    pub elements: u32,
    pub next: u32,
    pub previous: u32,
    /// How many tokens it made.
    pub made: u64,
    pub tally: Tally,
    /// The reason to stop that it saw, or 0.
    pub reason: u64,
    /// Whether it found no memory while it played.
    pub failed: bool,
}

/// The token as it goes on to the next element; `None` where it has been all round.
fn hand_on(token: &Token, next: u32, elements: u32) -> Option<Token>
    requires { next < elements }
    ensures { IfSome result (λ t. element_of elements t.to ≡ next) }
{
    let To::Instr { ip, .. } = token.to else {
        return None;
    };
    if ip >= elements {
        return None;
    }
    Some(Token {
        to: To::Instr {
            frame: next,
            ip: ip + 1,
            port: Port::Left,
        },
        word: token.word,
    })
}

/// The tokens of a bundle that go on.
fn forward(
    alloc: Global,
    bundle: &[Token],
    next: u32,
    elements: u32,
    tally: &mut Tally,
) -> Result<Vec<Token>, AllocError>
    requires { next < elements }
    ensures { IfOk result (λ made. AllTo elements next made.items) }
{
    let mut made = Vec::new(alloc);
    for token in bundle {
        match hand_on(token, next, elements) {
            Some(more) => made.push(more)?,
            None => tally.arrive(token),
        }
    }
    Ok(made)
}

/// Commits a bundle that the player was given, and stores what it made of it.
fn pass_on(
    alloc: Global,
    mesh: &Mesh<Vec<Token>, Global>,
    p: &mut Player,
    bundle: &[Token],
) -> Result<(), AllocError>
    requires at { IsAt mesh.now p.old }
    requires held { Has p.old.seat.own.held (bundle.now ++ p.old.kept.items) }
    requires mine { AllTo mesh.now.elements p.old.seat.own.element bundle.now }
    requires kept { AllTo mesh.now.elements p.old.next p.old.kept.items }
    ensures { OnOk result (IsPlaying mesh.now p.new) }
{
    if bundle.is_empty() {
        return Ok(());
    }
    let made = forward(alloc, bundle, p.next, p.elements, &mut p.tally)?;
    let count = made.len() as u64;
    if count > MOST || p.made > MOST - count {
        p.tally.astray = true;
        return Err(AllocError);
    }
    mesh.commit(&mut p.seat, bundle, &made);
    p.made += count;
    p.kept.extend_from_slice(&made)?;
    Ok(())
}

/// Offers all that the player keeps.
fn offer(alloc: Global, mesh: &Mesh<Vec<Token>, Global>, p: &mut Player)
    requires { IsPlaying mesh.now p.old }
    ensures { IsPlaying mesh.now p.new }
{
    if p.kept.is_empty() {
        return;
    }
    let bundle = mem::replace(&mut p.kept, Vec::new(alloc));
    if let Err(back) = mesh.post(&mut p.seat, p.next, bundle) {
        p.kept = back;
    }
}

/// Takes what the previous element posted, if anything.
fn receive(alloc: Global, mesh: &Mesh<Vec<Token>, Global>, p: &mut Player) -> Result<(), AllocError>
    requires { IsPlaying mesh.now p.old }
    ensures { OnOk result (IsPlaying mesh.now p.new) }
{
    match mesh.take(&mut p.seat, p.previous) {
        Some(bundle) => pass_on(alloc, mesh, p, &bundle),
        None => Ok(()),
    }
}

/// Sets the reason to stop, unless it is 0.
fn call_stop(mesh: &Mesh<Vec<Token>, Global>, p: &mut Player, reason: u64)
    requires { IsPlaying mesh.now p.old }
    ensures { IsPlaying mesh.now p.new }
{
    if reason == 0 {
        return;
    }
    let _set = mesh.stop(&mut p.seat, reason);
}

impl Player {
    /// A player with a fresh seat. It has passed on those start tokens that are its own.
    pub fn new(
        alloc: Global,
        mesh: &Mesh<Vec<Token>, Global>,
        seat: Seat<Vec<Token>>,
        element: u32,
        elements: u32,
        start: &[Token],
    ) -> Result<Player, AllocError>
        requires mesh { (elements ≡ mesh.now.elements) × (start.now ≡ mesh.now.start) × (element < elements) × (elements ≤ 16) }
        requires seat { seat ≡ fresh_seat mesh.now element }
        ensures { IfOk result (λ p. IsPlaying mesh.now p) }
    {
        let own = own_tokens(alloc, start, element, elements)?;
        let mut p = Player {
            seat,
            kept: Vec::new(alloc),
            elements,
            next: (element + 1) % elements,
            previous: (element + elements - 1) % elements,
            made: 0,
            tally: Tally {
                first: element * NUMBERS,
                arrived: 0,
                astray: false,
            },
            reason: 0,
            failed: false,
        };
        pass_on(alloc, mesh, &mut p, &own)?;
        Ok(p)
    }

    /// Plays until no token is live.
    pub fn run<R: Wait>(
        &mut self,
        rt: &R,
        alloc: Global,
        mesh: &Mesh<Vec<Token>, Global>,
    ) -> Result<(), AllocError>
        requires { IsPlaying mesh.now self.old }
        ensures { OnOk result (IsPlaying mesh.now self.new) }
    {
        'rounds: for _ in rt.forever() {
            receive(alloc, mesh, self)?;
            offer(alloc, mesh, self);
            if mesh.live(&mut self.seat) == 0 {
                return Ok(());
            }
        }
        unreachable!()
    }

    /// Plays until it sees a reason to stop. Sets one itself where `sets` is not 0.
    pub fn run_to_stop<R: Wait>(
        &mut self,
        rt: &R,
        alloc: Global,
        mesh: &Mesh<Vec<Token>, Global>,
        sets: u64,
    ) -> Result<(), AllocError>
        requires { IsPlaying mesh.now self.old }
        ensures { OnOk result (IsPlaying mesh.now self.new) }
    {
        call_stop(mesh, self, sets);
        'rounds: for _ in rt.forever() {
            receive(alloc, mesh, self)?;
            offer(alloc, mesh, self);
            self.reason = mesh.stopped(&mut self.seat);
            if self.reason != 0 {
                return Ok(());
            }
        }
        unreachable!()
    }
}

/// Those of the start tokens that are addressed to this element.
fn own_tokens(
    alloc: Global,
    start: &[Token],
    element: u32,
    elements: u32,
) -> Result<Vec<Token>, AllocError>
    requires { 0 < elements }
    ensures { IfOk result (λ own. own.items ≡ filter (λ t. element_of elements t.to == element) start.now) }
{
    start
        .iter()
        .copied()
        .filter(|t| t.to.element(elements) == element)
        .collect(alloc)
}
