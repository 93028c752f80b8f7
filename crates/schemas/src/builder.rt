//! The code of a block as it grows: instructions with their destinations so far.

ghost use Rattle.std.specs.Prelude.{◌≡◌, ℕ, ◌+◌, ◌<◌, ◌≤◌, ◌^◌, [], ◌∷◌, ◌++◌, not, length, IfOk, OnOk};
ghost use Rattle.semantics.specs.Wired as Wired;
ghost use Rattle.semantics.specs.Plan as Plans;
ghost use Rattle.tags.specs.declared.value.Origin.TheVariants.{Untold};
ghost use Rattle.semantics.specs.declared.program.Mark.TheVariants.{Unmarked};
ghost use Rattle.schemas.specs.Builds as Builds;

use code::Instr;
use semantics::graph::{Region, Source};
use semantics::program::{Dest, Mark, Op};
use std::alloc::{AllocError, Allocator};
use std::marker::Model;
use tags::token::Port;
use tags::value::Origin;

/// Where a value leaves: an instruction of a row, with the place of the first one and the number in the row, and whether
/// by its second destinations.
#[derive(Clone, Copy)]
pub struct Outlet {
    pub place: u32,
    pub port: u32,
    pub second: bool,
}

impl Outlet {
    /// The first destinations of the instruction at that place.
    pub fn first(place: u32) -> Outlet
        ensures { result ≡ Builds.first_of place }
    {
        Outlet {
            place,
            port: 0,
            second: false,
        }
    }

    /// The second destinations of the instruction at that place.
    pub fn second(place: u32) -> Outlet
        ensures { result ≡ Builds.second_of place }
    {
        Outlet {
            place,
            port: 0,
            second: true,
        }
    }
}

/// The instructions of a block so far. Contracts see the record of these lists.
#[derive(Drop)]
pub(crate) struct Builder<A: Allocator> {
    instrs: Vec<Instr<A>, A>,
    /// The mark of each instruction.
    marks: Vec<Mark, A>,
    /// The region of each instruction; that of a switch is given by its mark.
    regions: Vec<Region, A>,
    /// How many holders there are.
    holders: u32,
    /// The holder of the last `open`.
    opened: u32,
    /// The first output port of each node.
    exits: Vec<Outlet, A>,
}

impl<A: Allocator> Model for Builder<A> {
    ghost use Rattle.std.specs.Prelude.{◌≤◌, length};
    ghost use Rattle.schemas.specs.Builds.{Build};

    ghost Value = { Build };

    ghost view = { λ b. record {
      instrs = b.instrs.items;
      marks = b.marks.items;
      regions = b.regions.items;
      holders = b.holders;
      opened = b.opened;
      exits = b.exits.items;
    } };

    ghost invariant = { λ b. b.holders ≤ length b.instrs.items };
}

fn is_open(op: Op) -> bool
    ensures { result ≡ Plans.is_open op }
{
    matches!(op, Op::Open { .. })
}

/// Adds a destination to the instruction that leaves there.
fn add_dest<A: Allocator>(instr: &mut Instr<A>, from: Outlet, dest: Dest) -> Result<(), AllocError>
    ensures { OnOk result (instr.new ≡ Builds.with_dest instr.old from.second dest) }
{
    if from.second {
        instr.seconds.push(dest)?;
    } else {
        instr.firsts.push(dest)?;
    }
    Ok(())
}

impl<A: Allocator + Clone> Builder<A> {
    pub fn new(alloc: A) -> Result<Builder<A>, AllocError>
        ensures { IfOk result (λ b. b ≡ Builds.nothing) }
    {
        Ok(Builder {
            instrs: Vec::new(alloc.clone()?),
            marks: Vec::new(alloc.clone()?),
            regions: Vec::new(alloc.clone()?),
            holders: 0,
            opened: 0,
            exits: Vec::new(alloc),
        })
    }

    /// The holder of the next instruction, if that is its operation; 0 where it uses no slot.
    fn slot(&self, op: Op) -> u32
        ensures { result ≡ Builds.slot_in self.now op }
    {
        if op.takes_two() || is_open(op) {
            self.holders
        } else if op.is_credit() {
            self.opened
        } else {
            0
        }
    }

    /// Adds an instruction that goes nowhere yet, and returns its place.
    pub fn add(
        &mut self,
        op: Op,
        origin: Origin,
        mark: Mark,
        region: Region,
    ) -> Result<u32, AllocError>
        requires room { length self.old.instrs < 2 ^ 31 }
        ensures place { IfOk result (λ p. p ≡ length self.old.instrs) }
        ensures exact { OnOk result (self.new ≡ Builds.added self.old op origin mark region) }
        ensures longer { OnOk result (length self.new.instrs ≡ length self.old.instrs + 1) }
    {
        let place = self.instrs.len() as u32;
        let slot = self.slot(op);
        let alloc = self.instrs.allocator();
        let firsts = Vec::new(alloc.clone()?);
        let seconds = Vec::new(alloc.clone()?);
        self.marks.push(mark)?;
        self.regions.push(region)?;
        self.instrs.push(Instr {
            op,
            origin,
            slot,
            firsts,
            seconds,
        })?;
        if is_open(op) {
            self.opened = self.holders;
        }
        if op.takes_two() || is_open(op) {
            self.holders += 1;
        }
        Ok(place)
    }

    /// Adds an instruction that makes no fault and is no switch.
    pub fn quiet(&mut self, op: Op, region: Region) -> Result<u32, AllocError>
        requires room { length self.old.instrs < 2 ^ 31 }
        ensures place { IfOk result (λ p. p ≡ length self.old.instrs) }
        ensures exact { OnOk result (self.new ≡ Builds.quieted self.old op region) }
        ensures longer { OnOk result (length self.new.instrs ≡ length self.old.instrs + 1) }
    {
        self.add(op, Origin::Untold, Mark::Unmarked, region)
    }

    /// Connects what leaves there to a port of the instruction at a place.
    pub fn connect(&mut self, from: Outlet, to: u32, port: Port) -> Result<(), AllocError>
        ensures exact { OnOk result (self.new ≡ Builds.connected self.old from to port) }
        ensures same { OnOk result (length self.new.instrs ≡ length self.old.instrs) }
    {
        let place = from.place as usize + from.port as usize;
        let dest = Dest {
            ahead: to.saturating_sub(from.place).saturating_sub(from.port),
            port,
        };
        if place < self.instrs.len() {
            add_dest(&mut self.instrs[place], from, dest)?;
        }
        Ok(())
    }

    /// Where an output port leaves.
    pub fn outlet(&self, source: Source) -> Outlet
        ensures { result ≡ Builds.outlet_of self.now source }
    {
        match self.exits.get(source.node as usize) {
            Some(exit) => Outlet {
                place: exit.place,
                port: source.port,
                second: exit.second,
            },
            None => Outlet {
                place: 0,
                port: source.port,
                second: false,
            },
        }
    }

    /// Where the trigger of a region leaves: from the entry of the continuation, or from a side of a conditional's switch.
    pub fn trigger(&self, region: Region) -> Outlet
        ensures { result ≡ Builds.trigger_of self.now region }
    {
        match region {
            Region::Root => Outlet::first(0),
            Region::Arm { cond, side } => Outlet {
                place: self
                    .outlet(Source {
                        node: cond,
                        port: 0,
                    })
                    .place,
                port: 0,
                second: !side,
            },
        }
    }

    /// Notes where the ports of the next node leave.
    pub fn exit(&mut self, outlet: Outlet) -> Result<(), AllocError>
        ensures exact { OnOk result (self.new ≡ Builds.exited self.old outlet) }
        ensures same { OnOk result (length self.new.instrs ≡ length self.old.instrs) }
    {
        self.exits.push(outlet)?;
        Ok(())
    }
}

impl<A: Allocator + Clone> Builder<A> {
    /// Adds an instruction whose left port takes what leaves there, and returns its place.
    pub fn behind(&mut self, from: Outlet, op: Op, region: Region) -> Result<u32, AllocError>
        requires room { length self.old.instrs < 2 ^ 31 }
        ensures place { IfOk result (λ p. p ≡ length self.old.instrs) }
        ensures exact { OnOk result (self.new ≡ Builds.behind self.old from op region) }
        ensures longer { OnOk result (length self.new.instrs ≡ length self.old.instrs + 1) }
    {
        let place = self.quiet(op, region)?;
        self.connect(from, place, Port::Left)?;
        Ok(place)
    }

    /// Adds an instruction at which two words meet, and returns its place.
    pub fn meet(
        &mut self,
        op: Op,
        mark: Mark,
        region: Region,
        left: Outlet,
        right: Outlet,
    ) -> Result<u32, AllocError>
        requires room { length self.old.instrs < 2 ^ 31 }
        ensures place { IfOk result (λ p. p ≡ length self.old.instrs) }
        ensures exact { OnOk result (self.new ≡ Builds.meeting self.old op mark region left right) }
        ensures longer { OnOk result (length self.new.instrs ≡ length self.old.instrs + 1) }
    {
        let place = self.add(op, Origin::Untold, mark, region)?;
        self.connect(left, place, Port::Left)?;
        self.connect(right, place, Port::Right)?;
        Ok(place)
    }

    /// Connects output ports to the two ports of the instruction at a place, the first one to the left one.
    pub fn operands(&mut self, place: u32, sources: &[Source]) -> Result<(), AllocError>
        ensures exact { OnOk result (self.new ≡ Builds.operands self.old place 0 sources.now) }
        ensures same { OnOk result (length self.new.instrs ≡ length self.old.instrs) }
    {
        for (position, source) in sources.iter().enumerate() {
            let outlet = self.outlet(*source);
            self.connect(outlet, place, side(position))?;
        }
        Ok(())
    }

    /// Connects all these output ports to the left port of the instruction at a place.
    pub fn alternatives(&mut self, place: u32, sources: &[Source]) -> Result<(), AllocError>
        ensures exact { OnOk result (self.new ≡ Builds.alternatives self.old place sources.now) }
        ensures same { OnOk result (length self.new.instrs ≡ length self.old.instrs) }
    {
        for source in sources {
            let outlet = self.outlet(*source);
            self.connect(outlet, place, Port::Left)?;
        }
        Ok(())
    }

    /// Adds `count` copies in a row.
    pub fn copies(&mut self, count: u32, region: Region) -> Result<(), AllocError>
        requires room { length self.old.instrs < 2 ^ 30 }
        requires few { count ≤ 16 }
        ensures exact { OnOk result (self.new ≡ Builds.copies self.old region count) }
        ensures longer { OnOk result (length self.new.instrs ≡ length self.old.instrs + count) }
    {
        for _copy in 0..count {
            self.quiet(Op::Copy, region)?;
        }
        Ok(())
    }

    /// The place of the next instruction.
    pub fn here(&self) -> u32
        requires { length self.now.instrs < 2 ^ 31 }
        ensures { result ≡ length self.now.instrs }
    {
        self.instrs.len() as u32
    }
}

/// The port of an operand: the first one arrives at the left.
fn side(position: usize) -> Port
    ensures { result ≡ Builds.side position }
{
    if position == 0 {
        Port::Left
    } else {
        Port::Right
    }
}

/// The first source of a list.
pub(crate) fn first_source(sources: &[Source]) -> Source
    ensures { result ≡ Builds.first_source sources.now }
{
    match sources.first() {
        Some(source) => *source,
        None => Source { node: 0, port: 0 },
    }
}

impl<A: Allocator> Builder<A> {
    /// The instructions so far.
    pub fn instrs(&self) -> &[Instr<A>]
        ensures { result.now ≡ self.now.instrs }
    {
        &self.instrs
    }

    /// The mark of the instruction at a place.
    pub fn mark(&self, place: usize) -> Mark
        ensures { result ≡ Builds.mark_of self.now.marks place }
    {
        match self.marks.get(place) {
            Some(mark) => *mark,
            None => Mark::Unmarked,
        }
    }

    /// The region of the instruction at a place.
    pub fn region(&self, place: usize) -> Region
        ensures { result ≡ Builds.region_of self.now.regions place }
    {
        match self.regions.get(place) {
            Some(region) => *region,
            None => Region::Root,
        }
    }

    /// How many holders there are.
    pub fn holders(&self) -> u32
        ensures { result ≡ self.now.holders }
    {
        self.holders
    }

    /// The instructions with their marks.
    pub fn into_parts(self) -> (Vec<Instr<A>, A>, Vec<Mark, A>)
        ensures instrs { result.0.items ≡ self.instrs }
        ensures marks { result.1.items ≡ self.marks }
    {
        let Builder {
            instrs,
            marks,
            regions: _,
            holders: _,
            opened: _,
            exits: _,
        } = self;
        (instrs, marks)
    }
}
