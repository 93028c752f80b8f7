//! Which frames are out.

ghost use Rattle.std.specs.Prelude.{◌≡◌, ℕ, ◌<◌, ◌^◌, true, false, IfOk, IfSome, IfNone, length, replicate, slice_set};
ghost use Rattle.frame_manager.specs.Flags.{flag_at, IsLeastFree};
ghost use Rattle.frame_manager.specs.Managed.{NoneFree};

use crate::bits;
use std::alloc::{AllocError, Allocator};
use std::marker::Model;

/// For each frame whether it is out. The free frames are a set of bits, and so are the words of that set that are
/// not 0, so that the least free frame is found in a few steps.
#[derive(Drop)]
pub struct Frames<A: Allocator> {
    count: usize,
    words: Vec<u64, A>,
    groups: Vec<u64, A>,
}

impl<A: Allocator> Model for Frames<A> {
    ghost use Rattle.std.specs.Prelude.{List, Bool};
    ghost use Rattle.frame_manager.specs.Flags.{out_flags, IsSummed};

    ghost Value = { List Bool };

    ghost view = { λ f. out_flags f.count f.words.items };

    ghost invariant = { λ f. IsSummed f.count f.words.items f.groups.items };
}

fn zeros<A: Allocator>(alloc: A, count: usize) -> Result<Vec<u64, A>, AllocError>
    ensures { IfOk result (λ v. v.items ≡ replicate count 0) }
{
    vec![in alloc; 0u64; count]
}

impl<A: Allocator + Clone> Frames<A> {
    /// `count` frames, all out.
    pub fn all_out(alloc: A, count: u32) -> Result<Frames<A>, AllocError>
        ensures { IfOk result (λ f. f ≡ replicate count true) }
    {
        let count = count as usize;
        let words = zeros(alloc.clone()?, count / 64 + 1)?;
        let groups = zeros(alloc, count / 4096 + 1)?;
        Ok(Frames {
            count,
            words,
            groups,
        })
    }
}

impl<A: Allocator> Frames<A> {
    pub fn is_out(&self, frame: usize) -> bool
        ensures { result ≡ flag_at self.now frame }
    {
        frame < self.count && !bits::contains(&self.words, frame)
    }

    /// The free frame of least number.
    pub fn first_free(&self) -> Option<usize>
        ensures some { IfSome result (IsLeastFree self.now) }
        ensures none { IfNone result (NoneFree self.now) }
    {
        let place = bits::first(&self.groups)?;
        let word = self.words[place];
        Some(64 * place + word.trailing_zeros() as usize)
    }

    pub fn take(&mut self, frame: usize)
        requires { frame < length self.old }
        ensures { self.new ≡ slice_set self.old frame true }
    {
        bits::remove(&mut self.words, frame);
        if self.words[frame / 64] == 0 {
            bits::remove(&mut self.groups, frame / 64);
        }
    }

    pub fn free(&mut self, frame: usize)
        requires { frame < length self.old }
        ensures { self.new ≡ slice_set self.old frame false }
    {
        bits::insert(&mut self.words, frame);
        bits::insert(&mut self.groups, frame / 64);
    }
}
