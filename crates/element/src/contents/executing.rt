//! What an element does with a token for an instruction.

ghost use Rattle.std.specs.Prelude.{◌≡◌, ◌==◌, ◌+◌, ◌%◌, ◌<◌, ◌≤◌, ◌^◌, true, false, List, [], ◌∷◌, length, IfSome, Some, vec_len};
ghost use Rattle.std.specs.Vec.{vec_capacity};
ghost use Rattle.tags.specs.declared.token.Port.TheVariants.{Left, Right};
ghost use Rattle.tags.specs.declared.token.To.{To};
ghost use Rattle.semantics.specs.declared.program.Op.{Op};
ghost use Rattle.element.specs.Holding.{held_in, part_of, taken, with_part};
ghost use Rattle.tags.specs.declared.slot.SlotState.TheVariants.{Empty};
ghost use Rattle.frame_store.specs.BankViews.{bank_states};
ghost use Rattle.semantics.specs.Program.{Program, instr_at};
ghost use Rattle.semantics.specs.Rule as Rule;
ghost use Rattle.semantics.specs.Rule.{fire_two};
ghost use Rattle.element.specs.Decoded.{instr_of, IsShort, IsPair, IsLone, IsCredit};
ghost use Rattle.element.specs.Acts.{CanAct, ActsAs, FiresAs};
ghost use Rattle.element.specs.Requests.{is_for_manager};
ghost use Rattle.element.specs.Changed.{with_state, with_place};
ghost use Rattle.element.specs.Fired.{point_of, passed_on, left_on, HasRoomInWord};
ghost use Rattle.element.specs.declared.lane.Stepped.TheVariants.{Did};
ghost use Rattle.tags.specs.declared.token.Token.{Token};

use super::Contents;
use crate::company::Company;
use crate::firing::{
    AppliesLeft, AppliesRight, Asks, Computes, Copies, Counts, Credit, Fetches, Gives, Leaves,
    Leaving, Links, Literals, Meeting, NONE, Operand, Operates, Outcome, Pair, Passed, Passes,
    Point, Releases, Returns, SIGNAL, Sends, Stores, Switches, Syncs, Takes, fire, frame_request,
    meet,
};
use crate::instructions::{Instruction, Instructions};
use crate::lane::Stepped;
use frame_store::slot::Slot;
use packed::token::PackedToken;
use packed::word::PackedWord;
use semantics::program::Op;
use std::alloc::Allocator;
use tags::token::{FrameId, Port, To, Token};

/// The way of a token on the left port.
pub struct OnLeft;

/// The way of a token on the right port.
pub struct OnRight;

/// A token's arrival at an instruction: its place in the queue, where the instruction is, and the port.
#[derive(Clone, Copy)]
pub struct Arrival {
    pub at: usize,
    pub point: Point,
    pub port: Port,
}

/// The arrival of a packed token, with the token.
#[derive(Clone, Copy)]
pub struct PackedArrival {
    pub at: usize,
    pub point: Point,
    pub port: Port,
    pub token: PackedToken,
}

/// The two words that meet at an instruction.
#[derive(Clone, Copy)]
pub struct Matched {
    pub left: PackedWord,
    pub right: PackedWord,
}

impl<'m, A: Allocator> Contents<'m, A> {
    // What a token does at once, and whether it does: most that need no more than the words as they lie, a slot and room for three
    // tokens here and for two among those for others, which there has to be. Else nothing is changed.
    // Each port has a way of its own, and each site of the call code of its own.
    #[inline(always)]
    pub(super) fn acts_at_once<C: Instructions, T: Company, Site>(
        &mut self,
        code: &C,
        at: usize,
        token: &PackedToken,
        sent: &mut Vec<PackedToken, A>,
    ) -> bool
    where
        A: Clone,
        requires known { 0 < T.COUNT → self.old.elements ≡ T.COUNT }
        requires can { CanAct (C.program code.now) (C.width code.now) (held_in self.old) at token.now }
        requires spare { length self.old.queue.items + 3 ≤ self.old.queue.room }
        requires sent_spare { (T.COUNT == 1) ≡ false → vec_len sent.old + 2 ≤ vec_capacity sent.old }
        ensures did { result ≡ true → ActsAs (C.program code.now) (held_in self.old) at token.now sent.old.items Did (held_in self.new) sent.new.items }
        ensures not { result ≡ false → held_in self.new ≡ held_in self.old }
        ensures unsent { result ≡ false → sent.new.items ≡ sent.old.items }
        ensures held { T.HOLDS ≡ true → result ≡ true → is_for_manager token.now.to ≡ false }
        ensures len { length self.new.queue.items ≤ length self.old.queue.items + 2 }
        ensures capacity { self.new.queue.room ≡ self.old.queue.room }
        ensures sent_len { vec_len sent.new ≤ vec_len sent.old + 2 }
        ensures sent_capacity { vec_capacity sent.new ≡ vec_capacity sent.old }
    {
        let Some(input) = token.input_below(code.count()) else {
            return self.acts_elsewhere::<C, T>(code, at, token, sent);
        };
        let point = Point {
            frame: input.frame,
            ip: input.ip,
        };
        match input.port {
            Port::Left => self.acts_left::<C, T, (Site, OnLeft)>(code, at, token, point, sent),
            Port::Right => self.acts_right::<C, T, (Site, OnRight)>(code, at, token, point, sent),
        }
    }

    // The same on the left port. Arms that say the same let each operation go straight on to its end.
    fn acts_left<C: Instructions, T: Company, Site>(
        &mut self,
        code: &C,
        at: usize,
        token: &PackedToken,
        point: Point,
        sent: &mut Vec<PackedToken, A>,
    ) -> bool
        requires known { 0 < T.COUNT → self.old.elements ≡ T.COUNT }
        requires can { CanAct (C.program code.now) (C.width code.now) (held_in self.old) at token.now }
        requires address { token.now.to ≡ To.Instr point.frame point.ip Left }
        requires spare { length self.old.queue.items + 3 ≤ self.old.queue.room }
        requires sent_spare { (T.COUNT == 1) ≡ false → vec_len sent.old + 2 ≤ vec_capacity sent.old }
        ensures did { result ≡ true → ActsAs (C.program code.now) (held_in self.old) at token.now sent.old.items Did (held_in self.new) sent.new.items }
        ensures not { result ≡ false → held_in self.new ≡ held_in self.old }
        ensures unsent { result ≡ false → sent.new.items ≡ sent.old.items }
        ensures len { length self.new.queue.items ≤ length self.old.queue.items + 2 }
        ensures capacity { self.new.queue.room ≡ self.old.queue.room }
        ensures sent_len { vec_len sent.new ≤ vec_len sent.old + 2 }
        ensures sent_capacity { vec_capacity sent.new ≡ vec_capacity sent.old }
    {
        let Some(instr) = code.instr(point.ip) else {
            return false;
        };
        let arrival = PackedArrival {
            at,
            point,
            port: Port::Left,
            token: *token,
        };
        match instr.op {
            Op::Apply2 { .. } => {
                self.at_pair::<C, Operates, T, Site>(code, &arrival, &instr, sent)
            }
            Op::Sync => self.at_pair::<C, Syncs, T, Site>(code, &arrival, &instr, sent),
            Op::Switch => self.at_pair::<C, Switches, T, Site>(code, &arrival, &instr, sent),
            Op::Send { .. } => self.at_pair::<C, Sends, T, Site>(code, &arrival, &instr, sent),
            Op::Return { .. } => {
                self.at_pair::<C, Returns, T, Site>(code, &arrival, &instr, sent)
            }
            Op::Ask { .. } => self.at_pair::<C, Asks, T, Site>(code, &arrival, &instr, sent),
            Op::Store { .. } => { self.at_pair::<C, Stores, T, Site>(code, &arrival, &instr, sent) }
            Op::Release { .. } => {
                self.at_pair::<C, Releases, T, Site>(code, &arrival, &instr, sent)
            }
            Op::Apply1 { .. } => { self.at_lone::<C, Computes, Site>(code, &arrival, &instr) }
            Op::Apply2Right { .. } => {
                self.at_lone::<C, AppliesRight, Site>(code, &arrival, &instr)
            }
            Op::Apply2Left { .. } => {
                self.at_lone::<C, AppliesLeft, Site>(code, &arrival, &instr)
            }
            Op::Lit { .. } => { self.at_lone::<C, Literals, Site>(code, &arrival, &instr) }
            Op::Copy => self.at_lone::<C, Copies, Site>(code, &arrival, &instr),
            Op::Take { .. } => { self.at_credit::<C, Takes, T, Site>(code, &arrival, &instr, sent) }
            Op::Give { .. } => { self.at_credit::<C, Gives, T, Site>(code, &arrival, &instr, sent) }
            Op::Frame => self.at_frame::<C, T, Site>(code, &arrival, &instr, sent),
            Op::Link { .. } => {
                self.at_leaving::<C, Links, T, Site>(code, &arrival, &instr, sent)
            }
            Op::Fetch { .. } => {
                self.at_leaving::<C, Fetches, T, Site>(code, &arrival, &instr, sent)
            }
            _ => false,
        }
    }

    // The same on the right port, which only an instruction with two inputs has.
    fn acts_right<C: Instructions, T: Company, Site>(
        &mut self,
        code: &C,
        at: usize,
        token: &PackedToken,
        point: Point,
        sent: &mut Vec<PackedToken, A>,
    ) -> bool
        requires known { 0 < T.COUNT → self.old.elements ≡ T.COUNT }
        requires can { CanAct (C.program code.now) (C.width code.now) (held_in self.old) at token.now }
        requires address { token.now.to ≡ To.Instr point.frame point.ip Right }
        requires spare { length self.old.queue.items + 3 ≤ self.old.queue.room }
        requires sent_spare { (T.COUNT == 1) ≡ false → vec_len sent.old + 2 ≤ vec_capacity sent.old }
        ensures did { result ≡ true → ActsAs (C.program code.now) (held_in self.old) at token.now sent.old.items Did (held_in self.new) sent.new.items }
        ensures not { result ≡ false → held_in self.new ≡ held_in self.old }
        ensures unsent { result ≡ false → sent.new.items ≡ sent.old.items }
        ensures len { length self.new.queue.items ≤ length self.old.queue.items + 2 }
        ensures capacity { self.new.queue.room ≡ self.old.queue.room }
        ensures sent_len { vec_len sent.new ≤ vec_len sent.old + 2 }
        ensures sent_capacity { vec_capacity sent.new ≡ vec_capacity sent.old }
    {
        let Some(instr) = code.instr(point.ip) else {
            return false;
        };
        let arrival = PackedArrival {
            at,
            point,
            port: Port::Right,
            token: *token,
        };
        match instr.op {
            Op::Apply2 { .. } => {
                self.at_pair::<C, Operates, T, Site>(code, &arrival, &instr, sent)
            }
            Op::Sync => self.at_pair::<C, Syncs, T, Site>(code, &arrival, &instr, sent),
            Op::Switch => self.at_pair::<C, Switches, T, Site>(code, &arrival, &instr, sent),
            Op::Send { .. } => self.at_pair::<C, Sends, T, Site>(code, &arrival, &instr, sent),
            Op::Return { .. } => {
                self.at_pair::<C, Returns, T, Site>(code, &arrival, &instr, sent)
            }
            Op::Ask { .. } => self.at_pair::<C, Asks, T, Site>(code, &arrival, &instr, sent),
            Op::Store { .. } => { self.at_pair::<C, Stores, T, Site>(code, &arrival, &instr, sent) }
            Op::Release { .. } => {
                self.at_pair::<C, Releases, T, Site>(code, &arrival, &instr, sent)
            }
            _ => false,
        }
    }

    // An instruction with two inputs: the first token waits in the slot for the second, as it lies. Two arms do the same where
    // what was asked lets each be compiled shorter: on either port it is known which of the words is the token's.
    #[inline(always)]
    fn at_pair<C: Instructions, K: Pair, T: Company, Site>(
        &mut self,
        code: &C,
        arrival: &PackedArrival,
        instr: &Instruction,
        sent: &mut Vec<PackedToken, A>,
    ) -> bool
        requires known { 0 < T.COUNT → self.old.elements ≡ T.COUNT }
        requires can { CanAct (C.program code.now) (C.width code.now) (held_in self.old) arrival.now.at arrival.now.token }
        requires address { arrival.now.token.to ≡ To.Instr arrival.now.point.frame arrival.now.point.ip arrival.now.port }
        requires found { instr_at (C.program code.now) arrival.now.point.ip ≡ Some (instr_of instr.now) }
        requires short { IsShort (C.width code.now) arrival.now.point.ip instr.now }
        requires pair { IsPair instr.now.op }
        requires spare { length self.old.queue.items + 3 ≤ self.old.queue.room }
        requires sent_spare { (T.COUNT == 1) ≡ false → vec_len sent.old + 2 ≤ vec_capacity sent.old }
        ensures did { result ≡ true → ActsAs (C.program code.now) (held_in self.old) arrival.now.at arrival.now.token sent.old.items Did (held_in self.new) sent.new.items }
        ensures not { result ≡ false → held_in self.new ≡ held_in self.old }
        ensures unsent { result ≡ false → sent.new.items ≡ sent.old.items }
        ensures len { length self.new.queue.items ≤ length self.old.queue.items + 2 }
        ensures capacity { self.new.queue.room ≡ self.old.queue.room }
        ensures sent_len { vec_len sent.new ≤ vec_len sent.old + 2 }
        ensures sent_capacity { vec_capacity sent.new ≡ vec_capacity sent.old }
    {
        let place = self.place_of_slot::<T>(arrival.point.frame, instr.slot());
        let held = self.slot_at(place);
        match meet(&held, arrival.point, arrival.port, &arrival.token) {
            Meeting::Waits { slot } => self.wait(arrival.at, place, slot),
            Meeting::Apart => false,
            Meeting::Both { left, right } => {
                let matched = Matched { left, right };
                match arrival.port {
                    Port::Left => self.both::<C, K, T>(code, arrival, place, instr, &matched, sent),
                    Port::Right => self.both::<C, K, T>(
                        code, arrival, place, instr, &matched, sent,
                    ),
                }
            }
        }
    }

    // An instruction with one input, whose word goes to its own destinations. The port is looked at last, so that the choice
    // of the instruction goes straight on into what it does.
    #[inline(always)]
    fn at_lone<C: Instructions, K: Passes, Site>(
        &mut self,
        code: &C,
        arrival: &PackedArrival,
        instr: &Instruction,
    ) -> bool
        requires can { CanAct (C.program code.now) (C.width code.now) (held_in self.old) arrival.now.at arrival.now.token }
        requires address { arrival.now.token.to ≡ To.Instr arrival.now.point.frame arrival.now.point.ip arrival.now.port }
        requires found { instr_at (C.program code.now) arrival.now.point.ip ≡ Some (instr_of instr.now) }
        requires short { IsShort (C.width code.now) arrival.now.point.ip instr.now }
        requires lone { IsLone instr.now.op }
        requires spare { length self.old.queue.items + 3 ≤ self.old.queue.room }
        ensures did { result ≡ true → (before : List Token) → ActsAs (C.program code.now) (held_in self.old) arrival.now.at arrival.now.token before
            Did (held_in self.new) before }
        ensures not { result ≡ false → held_in self.new ≡ held_in self.old }
        ensures len { length self.new.queue.items ≤ length self.old.queue.items + 2 }
        ensures capacity { self.new.queue.room ≡ self.old.queue.room }
    {
        match K::passes(instr, &arrival.token.word()) {
            Some(passed) => match arrival.port {
                Port::Right => false,
                Port::Left => self.pass(arrival, None, &passed),
            },
            None => false,
        }
    }

    // An instruction with one input that makes a token for another frame or for a cell.
    #[inline(always)]
    fn at_leaving<C: Instructions, K: Leaves, T: Company, Site>(
        &mut self,
        code: &C,
        arrival: &PackedArrival,
        instr: &Instruction,
        sent: &mut Vec<PackedToken, A>,
    ) -> bool
        requires known { 0 < T.COUNT → self.old.elements ≡ T.COUNT }
        requires can { CanAct (C.program code.now) (C.width code.now) (held_in self.old) arrival.now.at arrival.now.token }
        requires address { arrival.now.token.to ≡ To.Instr arrival.now.point.frame arrival.now.point.ip arrival.now.port }
        requires found { instr_at (C.program code.now) arrival.now.point.ip ≡ Some (instr_of instr.now) }
        requires short { IsShort (C.width code.now) arrival.now.point.ip instr.now }
        requires lone { IsLone instr.now.op }
        requires spare { length self.old.queue.items + 3 ≤ self.old.queue.room }
        requires sent_spare { (T.COUNT == 1) ≡ false → vec_len sent.old + 2 ≤ vec_capacity sent.old }
        ensures did { result ≡ true → ActsAs (C.program code.now) (held_in self.old) arrival.now.at arrival.now.token sent.old.items Did (held_in self.new) sent.new.items }
        ensures not { result ≡ false → held_in self.new ≡ held_in self.old }
        ensures unsent { result ≡ false → sent.new.items ≡ sent.old.items }
        ensures len { length self.new.queue.items ≤ length self.old.queue.items + 2 }
        ensures capacity { self.new.queue.room ≡ self.old.queue.room }
        ensures sent_len { vec_len sent.new ≤ vec_len sent.old + 2 }
        ensures sent_capacity { vec_capacity sent.new ≡ vec_capacity sent.old }
    {
        match K::leave(code, arrival.point, instr, &arrival.token.word()) {
            Some(leaving) => match arrival.port {
                Port::Right => false,
                Port::Left => self.pass_out::<T>(arrival, None, leaving, sent),
            },
            None => false,
        }
    }

    // An instruction that takes or gives a credit.
    #[inline(always)]
    fn at_credit<C: Instructions, K: Counts, T: Company, Site>(
        &mut self,
        code: &C,
        arrival: &PackedArrival,
        instr: &Instruction,
        sent: &mut Vec<PackedToken, A>,
    ) -> bool
        requires known { 0 < T.COUNT → self.old.elements ≡ T.COUNT }
        requires can { CanAct (C.program code.now) (C.width code.now) (held_in self.old) arrival.now.at arrival.now.token }
        requires address { arrival.now.token.to ≡ To.Instr arrival.now.point.frame arrival.now.point.ip arrival.now.port }
        requires found { instr_at (C.program code.now) arrival.now.point.ip ≡ Some (instr_of instr.now) }
        requires short { IsShort (C.width code.now) arrival.now.point.ip instr.now }
        requires credit { IsCredit instr.now.op }
        requires spare { length self.old.queue.items + 3 ≤ self.old.queue.room }
        requires sent_spare { (T.COUNT == 1) ≡ false → vec_len sent.old + 2 ≤ vec_capacity sent.old }
        ensures did { result ≡ true → ActsAs (C.program code.now) (held_in self.old) arrival.now.at arrival.now.token sent.old.items Did (held_in self.new) sent.new.items }
        ensures not { result ≡ false → held_in self.new ≡ held_in self.old }
        ensures unsent { result ≡ false → sent.new.items ≡ sent.old.items }
        ensures len { length self.new.queue.items ≤ length self.old.queue.items + 2 }
        ensures capacity { self.new.queue.room ≡ self.old.queue.room }
        ensures sent_len { vec_len sent.new ≤ vec_len sent.old + 2 }
        ensures sent_capacity { vec_capacity sent.new ≡ vec_capacity sent.old }
    {
        let place = self.place_of_slot::<T>(arrival.point.frame, instr.slot());
        let held = self.slot_at(place);
        match K::at_once(instr, &held, &arrival.token.word()) {
            Credit::Later => false,
            Credit::SlotOnly { slot } => match arrival.port {
                Port::Right => false,
                Port::Left => self.wait(arrival.at, place, slot),
            },
            Credit::Answered { slot, token } => match arrival.port {
                Port::Right => false,
                Port::Left => self.answer::<T>(arrival.at, place, slot, token, sent),
            },
        }
    }

    // An instruction that asks for a frame, on the element of the frame manager.
    #[inline(always)]
    fn at_frame<C: Instructions, T: Company, Site>(
        &mut self,
        code: &C,
        arrival: &PackedArrival,
        instr: &Instruction,
        sent: &mut Vec<PackedToken, A>,
    ) -> bool
        requires known { 0 < T.COUNT → self.old.elements ≡ T.COUNT }
        requires can { CanAct (C.program code.now) (C.width code.now) (held_in self.old) arrival.now.at arrival.now.token }
        requires address { arrival.now.token.to ≡ To.Instr arrival.now.point.frame arrival.now.point.ip arrival.now.port }
        requires found { instr_at (C.program code.now) arrival.now.point.ip ≡ Some (instr_of instr.now) }
        requires short { IsShort (C.width code.now) arrival.now.point.ip instr.now }
        requires frame { instr.now.op ≡ Op.Frame }
        requires spare { length self.old.queue.items + 3 ≤ self.old.queue.room }
        requires sent_spare { (T.COUNT == 1) ≡ false → vec_len sent.old + 2 ≤ vec_capacity sent.old }
        ensures did { result ≡ true → ActsAs (C.program code.now) (held_in self.old) arrival.now.at arrival.now.token sent.old.items Did (held_in self.new) sent.new.items }
        ensures not { result ≡ false → held_in self.new ≡ held_in self.old }
        ensures unsent { result ≡ false → sent.new.items ≡ sent.old.items }
        ensures len { length self.new.queue.items ≤ length self.old.queue.items + 2 }
        ensures capacity { self.new.queue.room ≡ self.old.queue.room }
        ensures sent_len { vec_len sent.new ≤ vec_len sent.old + 2 }
        ensures sent_capacity { vec_capacity sent.new ≡ vec_capacity sent.old }
    {
        match arrival.port {
            Port::Right => false,
            Port::Left => {
                self.ask::<T>(
                    arrival.at,
                    PackedToken::pack(frame_request(arrival.point, instr)),
                    sent,
                )
            }
        }
    }

    // The token is taken out, and one for the frame manager is made.
    #[inline(always)]
    fn ask<T: Company>(
        &mut self,
        at: usize,
        token: PackedToken,
        sent: &mut Vec<PackedToken, A>,
    ) -> bool
        requires known { 0 < T.COUNT → self.old.elements ≡ T.COUNT }
        requires some { self.old.element < self.old.elements }
        requires manager { token.to ≡ To.Manager }
        requires there { at < length self.old.queue.items }
        requires few { self.old.queue.gone < 2 ^ 63 }
        requires spare { length self.old.queue.items + 3 ≤ self.old.queue.room }
        requires sent_spare { (T.COUNT == 1) ≡ false → vec_len sent.old + 2 ≤ vec_capacity sent.old }
        ensures did { result ≡ true → FiresAs (Some (token ∷ [])) (part_of self.old) (held_in self.old) at sent.old.items Did
            (held_in self.new) sent.new.items }
        ensures not { result ≡ false → held_in self.new ≡ held_in self.old }
        ensures unsent { result ≡ false → sent.new.items ≡ sent.old.items }
        ensures len { length self.new.queue.items ≤ length self.old.queue.items + 2 }
        ensures capacity { self.new.queue.room ≡ self.old.queue.room }
        ensures sent_len { vec_len sent.new ≤ vec_len sent.old + 2 }
        ensures sent_capacity { vec_capacity sent.new ≡ vec_capacity sent.old }
    {
        self.take(at);
        self.send_to_first::<T>(token, sent);
        true
    }

    // The slot at the place changes, the token is taken out, and one is made.
    #[inline(always)]
    fn answer<T: Company>(
        &mut self,
        at: usize,
        place: usize,
        held: Slot,
        token: PackedToken,
        sent: &mut Vec<PackedToken, A>,
    ) -> bool
        requires known { 0 < T.COUNT → self.old.elements ≡ T.COUNT }
        requires some { self.old.element < self.old.elements }
        requires place { place < length (bank_states self.old.bank) }
        requires there { at < length self.old.queue.items }
        requires few { self.old.queue.gone < 2 ^ 63 }
        requires spare { length self.old.queue.items + 3 ≤ self.old.queue.room }
        requires sent_spare { (T.COUNT == 1) ≡ false → vec_len sent.old + 2 ≤ vec_capacity sent.old }
        ensures did { result ≡ true → FiresAs (Some (token ∷ [])) (with_state (part_of self.old) place held)
            (held_in self.old) at sent.old.items Did (held_in self.new) sent.new.items }
        ensures not { result ≡ false → held_in self.new ≡ held_in self.old }
        ensures unsent { result ≡ false → sent.new.items ≡ sent.old.items }
        ensures len { length self.new.queue.items ≤ length self.old.queue.items + 2 }
        ensures capacity { self.new.queue.room ≡ self.old.queue.room }
        ensures sent_len { vec_len sent.new ≤ vec_len sent.old + 2 }
        ensures sent_capacity { vec_capacity sent.new ≡ vec_capacity sent.old }
    {
        self.take(at);
        self.put_at(place, held);
        self.send_packed::<T>(token, sent);
        true
    }

    // The slot at the place changes, the token is taken out, and nothing is made.
    #[inline(always)]
    fn wait(&mut self, at: usize, place: usize, held: Slot) -> bool
        requires place { place < length (bank_states self.old.bank) }
        requires there { at < length self.old.queue.items }
        requires few { self.old.queue.gone < 2 ^ 63 }
        ensures held { held_in self.new ≡ taken (with_part (held_in self.old) (with_state (part_of self.old) place held)) at }
        ensures did { result ≡ true }
        ensures len { length self.new.queue.items ≤ length self.old.queue.items + 2 }
        ensures capacity { self.new.queue.room ≡ self.old.queue.room }
    {
        self.take(at);
        self.put_at(place, held);
        true
    }

    // Both words are there. The result is the same on both ports; the caller keeps the ports apart.
    #[inline(always)]
    fn both<C: Instructions, K: Pair, T: Company>(
        &mut self,
        code: &C,
        arrival: &PackedArrival,
        place: usize,
        instr: &Instruction,
        matched: &Matched,
        sent: &mut Vec<PackedToken, A>,
    ) -> bool
        requires known { 0 < T.COUNT → self.old.elements ≡ T.COUNT }
        requires some { self.old.element < self.old.elements }
        requires place { place < length (bank_states self.old.bank) }
        requires short { IsShort (C.width code.now) arrival.now.point.ip instr.now }
        requires address { (q : Port) × (arrival.now.token.to ≡ To.Instr arrival.now.point.frame arrival.now.point.ip q) }
        requires own { arrival.now.point.frame % self.old.elements ≡ self.old.element }
        requires there { arrival.now.at < length self.old.queue.items }
        requires few { self.old.queue.gone < 2 ^ 63 }
        requires room { HasRoomInWord matched.now.left }
        requires spare { length self.old.queue.items + 3 ≤ self.old.queue.room }
        requires sent_spare { (T.COUNT == 1) ≡ false → vec_len sent.old + 2 ≤ vec_capacity sent.old }
        ensures did { result ≡ true → FiresAs (fire_two (C.program code.now) (point_of arrival.now.point) (instr_of instr.now)
            instr.now.op matched.now.left matched.now.right) (with_state (part_of self.old) place Empty) (held_in self.old) arrival.now.at sent.old.items Did
            (held_in self.new) sent.new.items }
        ensures not { result ≡ false → held_in self.new ≡ held_in self.old }
        ensures unsent { result ≡ false → sent.new.items ≡ sent.old.items }
        ensures len { length self.new.queue.items ≤ length self.old.queue.items + 2 }
        ensures capacity { self.new.queue.room ≡ self.old.queue.room }
        ensures sent_len { vec_len sent.new ≤ vec_len sent.old + 2 }
        ensures sent_capacity { vec_capacity sent.new ≡ vec_capacity sent.old }
    {
        let left = &matched.left;
        let right = &matched.right;
        match K::passes(instr, left, right) {
            Some(passed) => self.pass(arrival, Some(place), &passed),
            None => match K::leave(code, arrival.point, instr, left, right) {
                Some(leaving) => { self.pass_out::<T>(arrival, Some(place), leaving, sent) }
                None => match K::release(arrival.point, instr, left, right) {
                    Some(after) => self.release::<T>(
                        arrival.at,
                        place,
                        arrival.point.frame,
                        after,
                        sent,
                    ),
                    None => false,
                },
            },
        }
    }

    // The slot at the place, if there is one, is empty then.
    #[inline(always)]
    fn clear(&mut self, cleared: Option<usize>)
        requires place { IfSome cleared (λ place. place < length (bank_states self.old.bank)) }
        ensures held { held_in self.new ≡ with_part (held_in self.old) (with_place (part_of self.old) cleared Empty) }
        ensures queue { self.new.queue ≡ self.old.queue }
        ensures elements { self.new.elements ≡ self.old.elements }
        ensures element { self.new.element ≡ self.old.element }
    {
        if let Some(place) = cleared {
            self.put_at(place, Slot::empty());
        }
    }

    // The slot at the place, if there is one, is empty then, the token is taken out, and a word goes to two destinations of
    // its frame.
    #[inline(always)]
    fn pass(&mut self, arrival: &PackedArrival, cleared: Option<usize>, passed: &Passed) -> bool
        requires near { arrival.now.point.ip < 2 ^ 30 }
        requires address { (q : Port) × (arrival.now.token.to ≡ To.Instr arrival.now.point.frame arrival.now.point.ip q) }
        requires own { arrival.now.point.frame % self.old.elements ≡ self.old.element }
        requires place { IfSome cleared (λ place. place < length (bank_states self.old.bank)) }
        requires there { arrival.now.at < length self.old.queue.items }
        requires few { self.old.queue.gone < 2 ^ 63 }
        requires spare { length self.old.queue.items + 3 ≤ self.old.queue.room }
        ensures did { result ≡ true → (before : List Token) → FiresAs (Some (passed_on (point_of arrival.now.point) passed.now))
            (with_place (part_of self.old) cleared Empty) (held_in self.old) arrival.now.at before Did (held_in self.new) before }
        ensures not { result ≡ false → held_in self.new ≡ held_in self.old }
        ensures len { length self.new.queue.items ≤ length self.old.queue.items + 2 }
        ensures capacity { self.new.queue.room ≡ self.old.queue.room }
    {
        self.take(arrival.at);
        self.clear(cleared);
        self.send_near(arrival, &passed.word, passed.first);
        self.send_near(arrival, &passed.word, passed.second);
        true
    }

    // The slot at the place, if there is one, is empty then, the token is taken out, a token goes away, and signals go to two
    // destinations of the own frame.
    #[inline(always)]
    fn pass_out<T: Company>(
        &mut self,
        arrival: &PackedArrival,
        cleared: Option<usize>,
        leaving: Leaving,
        sent: &mut Vec<PackedToken, A>,
    ) -> bool
        requires known { 0 < T.COUNT → self.old.elements ≡ T.COUNT }
        requires some { self.old.element < self.old.elements }
        requires near { arrival.now.point.ip < 2 ^ 30 }
        requires address { (q : Port) × (arrival.now.token.to ≡ To.Instr arrival.now.point.frame arrival.now.point.ip q) }
        requires own { arrival.now.point.frame % self.old.elements ≡ self.old.element }
        requires place { IfSome cleared (λ place. place < length (bank_states self.old.bank)) }
        requires there { arrival.now.at < length self.old.queue.items }
        requires few { self.old.queue.gone < 2 ^ 63 }
        requires spare { length self.old.queue.items + 3 ≤ self.old.queue.room }
        requires sent_spare { (T.COUNT == 1) ≡ false → vec_len sent.old + 2 ≤ vec_capacity sent.old }
        ensures did { result ≡ true → FiresAs (Some (left_on (point_of arrival.now.point) leaving))
            (with_place (part_of self.old) cleared Empty) (held_in self.old) arrival.now.at sent.old.items Did (held_in self.new) sent.new.items }
        ensures not { result ≡ false → held_in self.new ≡ held_in self.old }
        ensures unsent { result ≡ false → sent.new.items ≡ sent.old.items }
        ensures len { length self.new.queue.items ≤ length self.old.queue.items + 2 }
        ensures capacity { self.new.queue.room ≡ self.old.queue.room }
        ensures sent_len { vec_len sent.new ≤ vec_len sent.old + 2 }
        ensures sent_capacity { vec_capacity sent.new ≡ vec_capacity sent.old }
    {
        self.take(arrival.at);
        self.clear(cleared);
        self.send_packed::<T>(leaving.token, sent);
        let signal = PackedWord::int(0);
        self.send_near(arrival, &signal, leaving.first);
        self.send_near(arrival, &signal, leaving.second);
        true
    }

    // The slot at the place is empty then, the token is taken out, one releases the frame, and one goes into another frame.
    #[inline(always)]
    fn release<T: Company>(
        &mut self,
        at: usize,
        place: usize,
        frame: FrameId,
        after: PackedToken,
        sent: &mut Vec<PackedToken, A>,
    ) -> bool
        requires known { 0 < T.COUNT → self.old.elements ≡ T.COUNT }
        requires some { self.old.element < self.old.elements }
        requires place { place < length (bank_states self.old.bank) }
        requires there { at < length self.old.queue.items }
        requires few { self.old.queue.gone < 2 ^ 63 }
        requires spare { length self.old.queue.items + 3 ≤ self.old.queue.room }
        requires sent_spare { (T.COUNT == 1) ≡ false → vec_len sent.old + 2 ≤ vec_capacity sent.old }
        ensures did { result ≡ true → FiresAs (Some (Rule.token (To.Release frame) Rule.signal ∷ after ∷ []))
            (with_state (part_of self.old) place Empty) (held_in self.old) at sent.old.items Did (held_in self.new) sent.new.items }
        ensures not { result ≡ false → held_in self.new ≡ held_in self.old }
        ensures unsent { result ≡ false → sent.new.items ≡ sent.old.items }
        ensures len { length self.new.queue.items ≤ length self.old.queue.items + 2 }
        ensures capacity { self.new.queue.room ≡ self.old.queue.room }
        ensures sent_len { vec_len sent.new ≤ vec_len sent.old + 2 }
        ensures sent_capacity { vec_capacity sent.new ≡ vec_capacity sent.old }
    {
        self.take(at);
        self.put_at(place, Slot::empty());
        let to = To::Release { frame };
        self.send_to_first::<T>(PackedToken::pack(Token { to, word: SIGNAL }), sent);
        self.send_packed::<T>(after, sent);
        true
    }

    // Any instruction. It is read again, so that what is done at once keeps it in registers.
    pub(super) fn read_again<C: Instructions>(
        &mut self,
        code: &C,
        token: &Token,
        arrival: &Arrival,
        sent: &mut Vec<PackedToken, A>,
    ) -> Stepped
        requires can { CanAct (C.program code.now) (C.width code.now) (held_in self.old) arrival.now.at token.now }
        requires address { token.now.to ≡ To.Instr arrival.now.point.frame arrival.now.point.ip arrival.now.port }
        ensures { ActsAs (C.program code.now) (held_in self.old) arrival.now.at token.now sent.old.items result (held_in self.new) sent.new.items }
    {
        let Some(instr) = code.instr(arrival.point.ip) else {
            return Stepped::Stuck { rule: 1 };
        };
        self.at_any(code, token, arrival, &instr, sent)
    }

    // Any instruction that was read.
    fn at_any<C: Instructions>(
        &mut self,
        code: &C,
        token: &Token,
        arrival: &Arrival,
        instr: &Instruction,
        sent: &mut Vec<PackedToken, A>,
    ) -> Stepped
        requires can { CanAct (C.program code.now) (C.width code.now) (held_in self.old) arrival.now.at token.now }
        requires address { token.now.to ≡ To.Instr arrival.now.point.frame arrival.now.point.ip arrival.now.port }
        requires found { instr_at (C.program code.now) arrival.now.point.ip ≡ Some (instr_of instr.now) }
        requires short { IsShort (C.width code.now) arrival.now.point.ip instr.now }
        ensures { ActsAs (C.program code.now) (held_in self.old) arrival.now.at token.now sent.old.items result (held_in self.new) sent.new.items }
    {
        let slot = self.slot_of(arrival.point.frame, instr);
        let operand = Operand {
            port: arrival.port,
            word: token.word,
        };
        let mut made = NONE;
        match fire(code, arrival.point, instr, slot, operand, &mut made) {
            Outcome::Excluded { rule } => Stepped::Stuck { rule },
            Outcome::Becomes { slot } => {
                if self.make_room(4, sent).is_err() {
                    return Stepped::Memory;
                }
                self.keep(arrival.point.frame, instr, slot);
                self.take(arrival.at);
                self.send_all(arrival.point, &made, sent);
                Stepped::Did
            }
        }
    }
}
