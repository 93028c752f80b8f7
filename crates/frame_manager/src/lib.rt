//! The frame manager: which frames are out, and who waits for one.
#![tactic(auto)]

ghost use Rattle.std.specs.Prelude.{◌≡◌, ◌<◌, IfOk, length};
ghost use Rattle.frame_manager.specs.Flags.{out_count};
ghost use Rattle.frame_manager.specs.Managed.{at_first};
ghost use Rattle.frame_manager.specs.Answered.{Requested, Released, RequestIsEvent, ReleaseIsEvent};

mod bits;
mod frames;

use frames::Frames;
use std::alloc::{AllocError, Allocator};
use std::collections::VecDeque;
use std::marker::Model;
use tags::token::{Cont, FrameId};

/// The frame that was to be released is not out.
#[derive(Clone, Copy, Debug, PartialEq, Eq)]
pub struct NotOut;

/// Hands out the free frame of least number. A request waits where no frame is free, and the one that has waited
/// longest gets the next frame that is released.
#[derive(Drop)]
pub struct Manager<A: Allocator> {
    frames: Frames<A>,
    out: u32,
    waiting: VecDeque<Cont, A>,
}

impl<A: Allocator> Model for Manager<A> {
    ghost use Rattle.std.specs.Prelude.{◌≡◌, ◌<◌, ◌^◌, length};
    ghost use Rattle.frame_manager.specs.Managed.{Managed};
    ghost use Rattle.frame_manager.specs.Flags.{out_count};

    ghost Value = { Managed };

    ghost view = { λ m. record { out = m.frames; requests = m.waiting.items } };

    ghost invariant = { λ m. (length m.frames < 2 ^ 32) × (m.out ≡ out_count m.frames) };
}

impl<A: Allocator + Clone> Manager<A> {
    /// The manager of `frames` frames: frame 0 is out, and the others are free. It makes the room that `release` needs.
    pub fn new(alloc: A, frames: u32) -> Result<Manager<A>, AllocError>
        requires { 0 < frames }
        ensures { IfOk result (λ m. m ≡ at_first frames) }
    {
        let mut flags = Frames::all_out(alloc.clone()?, frames)?;
        for frame in 1..frames as usize {
            flags.free(frame);
        }
        Ok(Manager {
            frames: flags,
            out: 1,
            waiting: VecDeque::new(alloc),
        })
    }
}

impl<A: Allocator> Manager<A> {
    /// Hands out the free frame of least number. `None`: no frame is free, and the request waits. An error changes
    /// nothing.
    #[inline(always)]
    pub fn request(&mut self, cont: Cont) -> Result<Option<FrameId>, AllocError>
        ensures exact { Requested self.old cont result self.new }
        ensures event { RequestIsEvent self.old cont result self.new }
    {
        match self.request_within(cont) {
            Ok(given) => Ok(given),
            Err(_) => {
                self.waiting.push_back(cont)?;
                Ok(None)
            }
        }
    }

    /// As `request`, but it takes no memory: it is an error where no frame is free and there is no room for one more request.
    #[inline(always)]
    pub fn request_within(&mut self, cont: Cont) -> Result<Option<FrameId>, AllocError>
        ensures exact { Requested self.old cont result self.new }
        ensures event { RequestIsEvent self.old cont result self.new }
    {
        match self.frames.first_free() {
            Some(frame) => {
                self.frames.take(frame);
                self.out += 1;
                Ok(Some(frame as FrameId))
            }
            None => {
                let waiting = &mut self.waiting;
                if waiting.len() == waiting.capacity() {
                    return Err(AllocError);
                }
                waiting.push_back_reserved(cont);
                Ok(None)
            }
        }
    }

    /// Takes a frame back. The request that has waited longest gets it, and is returned with it. This takes no memory.
    #[inline(always)]
    pub fn release(&mut self, frame: FrameId) -> Result<Option<(Cont, FrameId)>, NotOut>
        ensures exact { Released self.old frame result self.new }
        ensures event { ReleaseIsEvent self.old frame result self.new }
    {
        if !self.frames.is_out(frame as usize) {
            return Err(NotOut);
        }
        match self.waiting.pop_front() {
            Some(cont) => Ok(Some((cont, frame))),
            None => {
                self.frames.free(frame as usize);
                self.out -= 1;
                Ok(None)
            }
        }
    }

    /// How many frames are out.
    pub fn out(&self) -> u32
        ensures { result ≡ out_count self.now.out }
    {
        self.out
    }

    /// How many requests wait.
    pub fn waiting(&self) -> usize
        ensures { result ≡ length self.now.requests }
    {
        self.waiting.len()
    }
}
