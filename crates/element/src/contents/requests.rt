//! What element 0 does with a token for the frame manager.

ghost use Rattle.std.specs.Prelude.{◌≡◌, ◌<◌, ◌^◌, length, IsSome};
ghost use Rattle.tags.specs.declared.token.To.{To};
ghost use Rattle.element.specs.Holding.{held_in, shape_of, IsSoundLane};
ghost use Rattle.element.specs.Parts.{bounds};
ghost use Rattle.semantics.specs.Program.{Program};
ghost use Rattle.element.specs.Near.{IsNearToken};
ghost use Rattle.element.specs.Acts.{ActsAs};
ghost use Rattle.element.specs.Changed.{IsRequested, IsReleased};

use super::Contents;
use crate::firing::answer;
use crate::lane::Stepped;
use frame_manager::{Manager, NotOut};
use packed::token::PackedToken;
use std::alloc::{AllocError, Allocator};
use tags::token::{Cont, FrameId, Token, Word};

impl<'m, A: Allocator> Contents<'m, A> {
    pub(super) fn at_manager(
        &mut self,
        at: usize,
        token: Token,
        sent: &mut Vec<PackedToken, A>,
    ) -> Stepped
        requires some { 0 < self.old.elements }
        requires there { at < length self.old.queue.items }
        requires few { self.old.queue.gone < 2 ^ 63 }
        requires address { token.to ≡ To.Manager }
        requires served { self.old.element ≡ 0 }
        requires manager { IsSome self.old.manager }
        ensures { (p : Program) → IsSoundLane p (held_in self.old) → IsNearToken (bounds p (shape_of self.old)) token
            → ActsAs p (held_in self.old) at token sent.old.items result (held_in self.new) sent.new.items }
    {
        let Word::Back(cont) = token.word else {
            return Stepped::Stuck { rule: 4 };
        };
        if self.make_room(1, sent).is_err() {
            return Stepped::Memory;
        }
        match request(&mut self.manager, cont) {
            Ok(Some(frame)) => {
                self.take(at);
                self.send(answer(cont, Word::Frame(frame)), sent);
                Stepped::Did
            }
            Ok(None) => {
                self.take(at);
                Stepped::Did
            }
            Err(_) => Stepped::Memory,
        }
    }

    pub(super) fn at_release(
        &mut self,
        at: usize,
        token: Token,
        frame: FrameId,
        sent: &mut Vec<PackedToken, A>,
    ) -> Stepped
        requires some { 0 < self.old.elements }
        requires there { at < length self.old.queue.items }
        requires few { self.old.queue.gone < 2 ^ 63 }
        requires address { token.to ≡ To.Release frame }
        requires served { self.old.element ≡ 0 }
        requires manager { IsSome self.old.manager }
        ensures { (p : Program) → IsSoundLane p (held_in self.old) → ActsAs p (held_in self.old) at token sent.old.items result (held_in self.new)
            sent.new.items }
    {
        if self.make_room(1, sent).is_err() {
            return Stepped::Memory;
        }
        match release(&mut self.manager, frame) {
            Ok(Some((cont, frame))) => {
                self.take(at);
                self.send(answer(cont, Word::Frame(frame)), sent);
                Stepped::Did
            }
            Ok(None) => {
                self.take(at);
                Stepped::Did
            }
            Err(NotOut) => Stepped::Stuck { rule: 5 },
        }
    }
}

// Asks the manager for a frame.
#[inline(always)]
pub(super) fn request<A: Allocator>(
    manager: &mut Option<Manager<A>>,
    cont: Cont,
) -> Result<Option<FrameId>, AllocError>
    requires { IsSome manager.old }
    ensures { IsRequested manager.old cont result manager.new }
{
    match manager {
        Some(manager) => manager.request(cont),
        None => unreachable!(),
    }
}

// The same where no memory is taken: an error is that there is no room.
#[inline(always)]
pub(super) fn request_within<A: Allocator>(
    manager: &mut Option<Manager<A>>,
    cont: Cont,
) -> Result<Option<FrameId>, AllocError>
    requires { IsSome manager.old }
    ensures { IsRequested manager.old cont result manager.new }
{
    match manager {
        Some(manager) => manager.request_within(cont),
        None => unreachable!(),
    }
}

#[inline(always)]
pub(super) fn release<A: Allocator>(
    manager: &mut Option<Manager<A>>,
    frame: FrameId,
) -> Result<Option<(Cont, FrameId)>, NotOut>
    requires { IsSome manager.old }
    ensures { IsReleased manager.old frame result manager.new }
{
    match manager {
        Some(manager) => manager.release(frame),
        None => unreachable!(),
    }
}
