//! Who names each port of a block.

ghost use Rattle.std.specs.Prelude.{◌≡◌, ◌+◌, ◌<◌, ◌≤◌, ◌^◌, IfOk, length, slice_set, true, false};
ghost use Rattle.semantics.specs.Plan as of_plans;
ghost use Rattle.folding.specs.declared.namers.Namer.TheVariants.{One, Many};
ghost use Rattle.folding.specs.Namers as of_namers;

use code::{CodeBlock, Instr, Plan};
use semantics::program::{Dest, Op};
use std::alloc::{AllocError, Allocator};
use std::marker::Model;
use tags::token::Port;

/// Who names a port.
#[derive(Clone, Copy)]
pub(crate) enum Namer {
    Nobody,
    /// One of the first or of the second destinations of an instruction.
    One { from: usize, second: bool },
    /// More than one destination, or other blocks, which send to an entry or a landing.
    Many,
}

impl Namer {
    /// The namer of a port that is named once more.
    fn again(self, more: Namer) -> Namer
        ensures { result ≡ of_namers.again self more }
    {
        match self {
            Namer::Nobody => more,
            _ => Namer::Many,
        }
    }
}

pub(crate) fn namer_at(namers: &[Namer], place: usize) -> Namer
    ensures { result ≡ of_namers.namer_at namers.now place }
{
    match namers.get(place) {
        Some(namer) => *namer,
        None => Namer::Nobody,
    }
}

/// Notes what names a port so far ahead of an instruction, if it is there.
fn note_at(namers: &mut [Namer], from: usize, ahead: u32, namer: Namer)
    requires { from ≤ length namers.old }
    ensures { namers.new ≡ of_namers.noted_at namers.old (from + ahead) namer }
{
    let ahead = ahead as usize;
    if ahead < namers.len() - from {
        namers[from + ahead] = namers[from + ahead].again(namer);
    }
}

/// Notes that a port so far ahead of an instruction gets words from other blocks, if it is there.
fn note_outside(namers: &mut [Namer], from: usize, ahead: usize)
    requires { from ≤ length namers.old }
    ensures { namers.new ≡ slice_set namers.old (from + ahead) Many }
{
    if ahead < namers.len() - from {
        namers[from + ahead] = Namer::Many;
    }
}

/// Notes that `count` ports in a row get words from other blocks: those that begin `ahead` instructions after an instruction.
fn note_row(namers: &mut [Namer], from: usize, ahead: u32, count: u64)
    requires from { from ≤ length namers.old }
    requires few { count < 2 ^ 33 }
    ensures { namers.new ≡ of_namers.note_row namers.old (from + ahead) count }
{
    for k in 0..count {
        note_outside(namers, from, ahead as usize + k as usize);
    }
}

/// Notes the landings that begin at such destinations.
fn note_landings(namers: &mut [Namer], from: usize, size: u64, dests: &[Dest])
    requires from { from ≤ length namers.old }
    requires few { size < 2 ^ 33 }
    ensures { namers.new ≡ of_namers.note_landings namers.old from size dests.now }
{
    for dest in dests {
        note_row(namers, from, dest.ahead, size);
    }
}

/// How many instructions in a row a link to a block has as its landing.
fn landing<A: Allocator>(plan: &Plan<A>, block: u16) -> u64
    ensures exact { result ≡ of_plans.landing plan.now block }
    ensures few { result < 2 ^ 33 }
{
    match plan.program.blocks.get(block as usize) {
        None => 0,
        Some(linked) if u32::from(block) < plan.plain => u64::from(linked.outputs) + 1,
        Some(linked) => u64::from(linked.inputs) + 3,
    }
}

/// The namers of the ports of a block.
#[derive(Drop)]
pub(crate) struct Namers<A: Allocator> {
    /// For each instruction who names its left port.
    pub lefts: Vec<Namer, A>,
    /// For each instruction who names its right port.
    pub rights: Vec<Namer, A>,
}

impl<A: Allocator> Model for Namers<A> {
    ghost use Rattle.folding.specs.Namers.{Namers};

    ghost Value = { Namers };

    ghost view = { λ n. record { lefts = n.lefts.items; rights = n.rights.items } };
}

impl<A: Allocator> Namers<A> {
    fn note(&mut self, from: usize, dest: Dest, namer: Namer)
        requires lefts { from ≤ length self.old.lefts }
        requires rights { from ≤ length self.old.rights }
        ensures { self.new ≡ of_namers.noted self.old (from + dest.ahead) dest.port namer }
    {
        match dest.port {
            Port::Left => note_at(&mut self.lefts, from, dest.ahead, namer),
            Port::Right => note_at(&mut self.rights, from, dest.ahead, namer),
        }
    }

    /// Notes the first destinations of the instruction of that number.
    fn note_firsts(&mut self, number: usize, firsts: &[Dest])
        requires lefts { number ≤ length self.old.lefts }
        requires rights { number ≤ length self.old.rights }
        ensures exact { self.new ≡ of_namers.note_dests self.old number false firsts.now }
        ensures all_lefts { length self.new.lefts ≡ length self.old.lefts }
        ensures all_rights { length self.new.rights ≡ length self.old.rights }
    {
        let namer = Namer::One {
            from: number,
            second: false,
        };
        for dest in firsts {
            self.note(number, *dest, namer);
        }
    }

    /// Notes the second destinations of the instruction of that number.
    fn note_seconds(&mut self, number: usize, seconds: &[Dest])
        requires lefts { number ≤ length self.old.lefts }
        requires rights { number ≤ length self.old.rights }
        ensures exact { self.new ≡ of_namers.note_dests self.old number true seconds.now }
        ensures all_lefts { length self.new.lefts ≡ length self.old.lefts }
        ensures all_rights { length self.new.rights ≡ length self.old.rights }
    {
        let namer = Namer::One {
            from: number,
            second: true,
        };
        for dest in seconds {
            self.note(number, *dest, namer);
        }
    }

    /// Notes all that the instruction of that number names.
    fn note_instr(&mut self, plan: &Plan<A>, number: usize, instr: &Instr<A>)
        requires lefts { number ≤ length self.old.lefts }
        requires rights { number ≤ length self.old.rights }
        ensures exact { self.new ≡ of_namers.note_instr plan.now self.old number instr.now }
        ensures all_lefts { length self.new.lefts ≡ length self.old.lefts }
        ensures all_rights { length self.new.rights ≡ length self.old.rights }
    {
        self.note_firsts(number, &instr.firsts);
        self.note_seconds(number, &instr.seconds);
        if let Op::Link { block } = instr.op {
            note_landings(&mut self.lefts, number, landing(plan, block), &instr.firsts);
        }
    }
}

impl<A: Allocator + Clone> Namers<A> {
    /// The namers of the ports of a block, by one pass over its destinations.
    pub fn of(alloc: A, plan: &Plan<A>, block: &CodeBlock<A>) -> Result<Namers<A>, AllocError>
        ensures { IfOk result (λ n. n ≡ of_namers.namers_of plan.now block.now) }
    {
        let count = block.instrs.len();
        let mut lefts = vec![in alloc.clone()?; Namer::Nobody; count]?;
        let rights = vec![in alloc; Namer::Nobody; count]?;
        note_row(&mut lefts, 0, 0, u64::from(block.inputs) + 1);
        let mut namers = Namers { lefts, rights };
        for (number, instr) in block.instrs.iter().enumerate() {
            namers.note_instr(plan, number, instr);
        }
        Ok(namers)
    }
}
