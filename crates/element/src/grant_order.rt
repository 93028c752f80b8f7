//! Which request for a frame is granted first, so that frames are handed out in about the order of a run that makes one call
//! after another.

ghost use Rattle.std.specs.Prelude.{◌<◌, ◌≤◌, length};

use crate::instructions::{Instruction, Instructions, dest_in};
use arrayvec::ArrayVec;
use packed::token::PackedToken;
use semantics::program::Op;
use std::alloc::{AllocError, Allocator};
use tags::token::{Cont, FrameId, To, Word};
use token_queue::queue::TokenQueue;

/// How many instructions are looked at, at most, to see what a frame is for.
const LOOKS: usize = 64;

/// When a frame was handed out: how many calls had been granted, this one with them, and which turn of a loop of that call it is.
#[derive(Clone, Copy, Debug, PartialEq, Eq)]
struct Age {
    calls: u64,
    turn: u64,
}

/// What a request for a frame is judged by: the frame that asks, and the instruction that the answer goes to.
#[derive(Clone, Copy, Debug, PartialEq, Eq)]
struct Rank {
    age: Age,
    ip: u32,
}

impl Rank {
    /// The rank of what is no request of a frame.
    const LEAST: Rank = Rank {
        age: Age {
            calls: 0,
            turn: u64::MAX,
        },
        ip: u32::MAX,
    };

    /// Whether it is granted before the other one: the youngest call first, its turns in order, and the answers to a turn in order.
    #[inline(always)]
    fn is_before(&self, other: &Rank) -> bool {
        if self.age.calls != other.age.calls {
            return other.age.calls < self.age.calls;
        }
        if self.age.turn != other.age.turn {
            return self.age.turn < other.age.turn;
        }
        self.ip < other.ip
    }
}

/// A request that is held back, and its place among those that are, in the order in which they came.
#[derive(Clone, Copy, Debug)]
struct Held {
    rank: Rank,
    place: usize,
}

/// Whether the frame is one for a call that goes to this instruction.
#[derive(Clone, Copy, Debug)]
struct Use {
    ip: u32,
    is_call: bool,
}

impl Use {
    /// What is known of no instruction.
    const UNKNOWN: Use = Use {
        ip: u32::MAX,
        is_call: false,
    };
}

/// When each frame was handed out, as far as it is known, and the requests that are held back.
#[derive(Drop)]
pub struct GrantOrder<A: Allocator> {
    ages: Vec<Age, A>,
    calls: u64,
    /// The requests in the order in which they are granted, the first one last.
    held: Vec<Held, A>,
    /// What is known of instructions, each in the place of its number modulo that of the places.
    uses: [Use; LOOKS],
}

// The number of the instruction that a half word of a destination leads to, if it leads to one.
fn next_of(ip: u32, half: u32) -> Option<u32> {
    match dest_in(half) {
        Some(dest) => ip.checked_add(dest.ahead),
        None => None,
    }
}

// Puts the instructions behind a copy last, as many as there is room for.
fn follow(ips: &mut ArrayVec<u32, LOOKS>, ip: u32, copy: &Instruction) {
    for half in [copy.first(), copy.second()] {
        if let Some(next) = next_of(ip, half) {
            if ips.try_push(next).is_err() {
                return;
            }
        }
    }
}

// Whether an answer that goes to this instruction names the frame of a call: copies lead it to a link, among others.
fn leads_to_link<C: Instructions>(code: &C, ip: u32) -> bool {
    let mut ips = ArrayVec::from([ip; LOOKS]);
    ips.truncate(1);
    for at in 0..LOOKS {
        let Some(ip) = ips.get(at).copied() else {
            return false;
        };
        let Some(instr) = code.instr(ip) else {
            return false;
        };
        match instr.op {
            Op::Link { .. } => return true,
            Op::Copy => follow(&mut ips, ip, &instr),
            _ => {}
        }
    }
    false
}

impl<A: Allocator> GrantOrder<A> {
    /// An order in which no frame is known. It takes no memory.
    pub fn new(alloc: &A) -> Result<GrantOrder<A>, AllocError>
    where
        A: Clone,
    {
        Ok(GrantOrder {
            ages: Vec::new(alloc.clone()?),
            calls: 0,
            held: Vec::new(alloc.clone()?),
            uses: [Use::UNKNOWN; LOOKS],
        })
    }

    /// Makes room for so many frames. After an error nothing is changed.
    pub fn make_room(&mut self, frames: usize) -> Result<(), AllocError> {
        if self.ages.len() < frames {
            let age = Age { calls: 0, turn: 0 };
            self.ages.resize(frames, age)?;
        }
        Ok(())
    }

    // The rank of a request.
    #[inline(always)]
    fn rank(&self, request: &PackedToken) -> Rank {
        let Word::Back(Cont::Frame { frame, ip, .. }) = request.word().unpack() else {
            return Rank::LEAST;
        };
        match self.ages.get(frame as usize) {
            Some(age) => Rank { age: *age, ip },
            None => Rank::LEAST,
        }
    }

    /// The place of the request that is granted first among the first `held` tokens of a queue.
    pub fn best_of(&self, queue: &TokenQueue<A>, held: usize) -> usize
        requires some { 0 < held }
        requires within { held ≤ length queue.now.items }
        ensures { result < held }
    {
        let mut best = 0;
        let mut rank = self.rank(&queue.packed(0));
        for at in 1..held {
            let other = self.rank(&queue.packed(at));
            if other.is_before(&rank) {
                best = at;
                rank = other;
            }
        }
        best
    }

    /// Forgets the requests that are held back, and makes room for so many. After an error there is as much room as before.
    pub fn make_room_held(&mut self, requests: usize) -> Result<(), AllocError> {
        self.held.clear();
        self.held.reserve(requests)
    }

    /// Notes that a request is held back, behind those that are.
    pub fn hold(&mut self, request: &PackedToken) {
        let mut at = self.held.len();
        if at == self.held.capacity() {
            return;
        }
        let rank = self.rank(request);
        self.held.push_reserved(Held { rank, place: at });
        'places: while let Some(before) = at.checked_sub(1) {
            if rank.is_before(&self.held[before].rank) {
                return;
            }
            self.held.swap(before, at);
            at = before;
        }
    }

    /// Notes that the request that is granted first was granted, which was in this place, and which frame it got, if it got one. Those behind
    /// it move up.
    #[inline(always)]
    pub fn grant<C: Instructions>(&mut self, code: &C, place: usize, given: Option<FrameId>) {
        let Some(granted) = self.held.pop() else {
            return;
        };
        self.move_up(place);
        if let Some(given) = given {
            self.note_grant(code, &granted.rank, given);
        }
    }

    // Those that came after the one in this place move up. They are mostly granted soon, and so lie last.
    #[inline(always)]
    fn move_up(&mut self, place: usize) {
        let mut behind = self.held.len().saturating_sub(place);
        for held in self.held.iter_mut().rev() {
            if behind == 0 {
                return;
            }
            if place < held.place {
                held.place -= 1;
                behind -= 1;
            }
        }
    }

    // Notes the frame that a request of this rank got.
    #[inline(always)]
    fn note_grant<C: Instructions>(&mut self, code: &C, rank: &Rank, given: FrameId) {
        if rank.ip != Rank::LEAST.ip {
            let is_call = self.is_call(code, rank.ip);
            self.set_age(&rank.age, is_call, given);
        }
    }

    /// The place of the request that is granted first among these, which are held back.
    #[inline(always)]
    pub fn best(&self, requests: &[PackedToken]) -> usize
        requires { 0 < length requests.now }
        ensures { result < length requests.now }
    {
        if let Some(first) = self.held.last() {
            if first.place < requests.len() {
                return first.place;
            }
        }
        requests.len() - 1
    }

    // Whether the frame that is given to this instruction is one for a call.
    #[inline(always)]
    fn is_call<C: Instructions>(&mut self, code: &C, ip: u32) -> bool {
        let place = ip as usize % LOOKS;
        let known = self.uses[place];
        if known.ip == ip {
            return known.is_call;
        }
        let is_call = leads_to_link(code, ip);
        self.uses[place] = Use { ip, is_call };
        is_call
    }

    /// Notes the frame that a request got: the token `answer` was made last, and answers it if it is one that was granted.
    #[inline(always)]
    pub fn note<C: Instructions>(&mut self, code: &C, request: &PackedToken, answer: &PackedToken) {
        if !matches!(request.to(), To::Manager) {
            return;
        }
        let Word::Back(Cont::Frame { frame, ip, .. }) = request.word().unpack() else {
            return;
        };
        let To::Instr {
            frame: to,
            ip: at,
            ..
        } = answer.to()
        else {
            return;
        };
        let Word::Frame(given) = answer.word().unpack() else {
            return;
        };
        if to == frame && at == ip {
            let rank = self.rank(request);
            self.note_grant(code, &rank, given);
        }
    }

    // Sets the age of a frame that was given for a call of a frame of the age `old`, or for the next turn of its loop.
    fn set_age(&mut self, old: &Age, is_call: bool, given: FrameId) {
        let mut age = Age {
            calls: old.calls,
            turn: old.turn.wrapping_add(1),
        };
        if is_call {
            self.calls = self.calls.wrapping_add(1);
            age = Age {
                calls: self.calls,
                turn: 0,
            };
        }
        if let Some(place) = self.ages.get_mut(given as usize) {
            *place = age;
        }
    }
}
