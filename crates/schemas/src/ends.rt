//! The ends of each region, and how they are joined.

ghost use Rattle.std.specs.Prelude.{◌≡◌, ℕ, ◌+◌, ◌-◌, ◌*◌, ◌<◌, ◌≤◌, ◌^◌, length, IfOk, OnOk};
ghost use Rattle.schemas.specs.Builds as Builds;
ghost use Rattle.schemas.specs.Ends as Ends;

use crate::builder::{Builder, Outlet};
use crate::flow::Node;
use code::Instr;
use semantics::graph::{Kind, Region};
use semantics::program::{Mark, Op};
use std::alloc::{AllocError, Allocator};
use tags::token::Port;

/// An end of a region: a signal that `release` waits for, where the region is entered.
#[derive(Clone, Copy)]
pub struct End {
    pub region: Region,
    pub outlet: Outlet,
}

fn push_if<A: Allocator>(
    ends: &mut Vec<End, A>,
    test: bool,
    region: Region,
    outlet: Outlet,
) -> Result<(), AllocError>
    ensures exact { OnOk result (ends.new.items ≡ Ends.pushed_if ends.old.items test region outlet) }
    ensures longer { OnOk result (length ends.new.items ≤ length ends.old.items + 1) }
{
    if test {
        ends.push(End { region, outlet })?;
    }
    Ok(())
}

/// Whether an instruction is an end of its region: it goes nowhere, and is no `take`, which answers only another frame.
fn is_end<A: Allocator>(instr: &Instr<A>) -> bool
    ensures { result ≡ Ends.is_end instr.now }
{
    !matches!(instr.op, Op::Take { .. }) && instr.firsts.is_empty()
}

/// Notes the ends at an instruction. Each side of a conditional's switch is an end of that arm, if it goes nowhere.
fn note<A: Allocator>(
    ends: &mut Vec<End, A>,
    mark: Mark,
    region: Region,
    instr: &Instr<A>,
    place: u32,
) -> Result<(), AllocError>
    ensures exact { OnOk result (ends.new.items ≡ Ends.noted ends.old.items mark region instr.now place) }
    ensures longer { OnOk result (length ends.new.items ≤ length ends.old.items + 2) }
{
    match mark {
        Mark::OfCond { cond } => {
            push_if(
                ends,
                instr.firsts.is_empty(),
                Region::Arm { cond, side: true },
                Outlet::first(place),
            )?;
            push_if(
                ends,
                instr.seconds.is_empty(),
                Region::Arm { cond, side: false },
                Outlet::second(place),
            )
        }
        Mark::OfFlag => Ok(()),
        Mark::Unmarked => push_if(ends, is_end(instr), region, Outlet::first(place)),
    }
}

/// The ends of all regions so far, in order of the instructions.
pub(crate) fn ends_of<A: Allocator>(
    alloc: A,
    builder: &Builder<A>,
) -> Result<Vec<End, A>, AllocError>
    requires room { length builder.now.instrs < 2 ^ 31 }
    ensures exact { IfOk result (λ v. v.items ≡ Ends.ends_of builder.now) }
    ensures few { IfOk result (λ v. length v.items ≤ 2 * length builder.now.instrs) }
{
    let mut ends = Vec::new(alloc);
    for (place, instr) in builder.instrs().iter().enumerate() {
        note(
            &mut ends,
            builder.mark(place),
            builder.region(place),
            instr,
            place as u32,
        )?;
    }
    Ok(ends)
}

fn same_region(region: Region, other: Region) -> bool
    ensures { result ≡ Ends.same_region region other }
{
    match (region, other) {
        (Region::Root, Region::Root) => true,
        (
            Region::Arm { cond, side },
            Region::Arm {
                cond: other,
                side: other_side,
            },
        ) => cond == other && side == other_side,
        _ => false,
    }
}

/// Joins one end more with the signal so far, if it is an end of that region.
fn join_end<A: Allocator + Clone>(
    builder: &mut Builder<A>,
    signal: Option<Outlet>,
    end: End,
    region: Region,
) -> Result<Option<Outlet>, AllocError>
    requires room { length builder.old.instrs < 2 ^ 31 }
    ensures signal { IfOk result (λ s. s ≡ (Ends.join_end builder.old signal end region).signal) }
    ensures exact { OnOk result (builder.new ≡ (Ends.join_end builder.old signal end region).build) }
    ensures longer { OnOk result (length builder.new.instrs ≤ length builder.old.instrs + 1) }
{
    if !same_region(end.region, region) {
        return Ok(signal);
    }
    match signal {
        None => Ok(Some(end.outlet)),
        Some(before) => {
            let join = builder.meet(Op::Sync, Mark::Unmarked, region, before, end.outlet)?;
            Ok(Some(Outlet::first(join)))
        }
    }
}

/// Joins the ends of a region to one signal, by a chain of `sync`.
#[tactic(auto, unfolding(crate::specs::Ends::join_ends))]
fn join_ends<A: Allocator + Clone>(
    builder: &mut Builder<A>,
    ends: &[End],
    region: Region,
) -> Result<Option<Outlet>, AllocError>
    requires room { length builder.old.instrs + length ends.now < 2 ^ 31 }
    ensures signal { IfOk result (λ s. s ≡ (Ends.join_ends builder.old Ends.no_signal region ends.now).signal) }
    ensures exact { OnOk result (builder.new ≡ (Ends.join_ends builder.old Ends.no_signal region ends.now).build) }
    ensures longer { OnOk result (length builder.new.instrs ≤ length builder.old.instrs + length ends.now) }
{
    let mut signal = None;
    for end in ends {
        signal = join_end(builder, signal, *end, region)?;
    }
    Ok(signal)
}

/// Connects a signal, if there is one, to a port.
fn connect_signal<A: Allocator + Clone>(
    builder: &mut Builder<A>,
    signal: Option<Outlet>,
    place: u32,
    port: Port,
) -> Result<(), AllocError>
    ensures exact { OnOk result (builder.new ≡ Ends.signalled builder.old signal place port) }
    ensures same { OnOk result (length builder.new.instrs ≡ length builder.old.instrs) }
{
    match signal {
        Some(outlet) => builder.connect(outlet, place, port),
        None => Ok(()),
    }
}

/// The copy in which a conditional ends: the signals of its arms go to it, and it is an end of the conditional's region.
fn push_copy<A: Allocator + Clone>(
    builder: &mut Builder<A>,
    ends: &mut Vec<End, A>,
    yes: Option<Outlet>,
    no: Option<Outlet>,
    region: Region,
) -> Result<(), AllocError>
    requires room { length builder.old.instrs < 2 ^ 31 - 1 }
    ensures build { OnOk result (builder.new ≡ (Ends.copied builder.old yes no ends.old.items region).build) }
    ensures ends { OnOk result (ends.new.items ≡ (Ends.copied builder.old yes no ends.old.items region).ends) }
    ensures longer { OnOk result (length builder.new.instrs ≡ length builder.old.instrs + 1) }
    ensures more { OnOk result (length ends.new.items ≡ length ends.old.items + 1) }
{
    let copy = builder.quiet(Op::Copy, region)?;
    connect_signal(builder, yes, copy, Port::Left)?;
    connect_signal(builder, no, copy, Port::Left)?;
    ends.push(End {
        region,
        outlet: Outlet::first(copy),
    })?;
    Ok(())
}

/// The end of a conditional whose arms have these signals: the copy, or nothing where there is neither signal.
fn end_arms<A: Allocator + Clone>(
    builder: &mut Builder<A>,
    ends: &mut Vec<End, A>,
    yes: Option<Outlet>,
    no: Option<Outlet>,
    region: Region,
) -> Result<(), AllocError>
    requires room { length builder.old.instrs < 2 ^ 31 - 1 }
    ensures build { OnOk result (builder.new ≡ (Ends.ended builder.old yes no ends.old.items region).build) }
    ensures ends { OnOk result (ends.new.items ≡ (Ends.ended builder.old yes no ends.old.items region).ends) }
    ensures longer { OnOk result (length builder.new.instrs ≤ length builder.old.instrs + 1) }
    ensures more { OnOk result (length ends.new.items ≤ length ends.old.items + 1) }
{
    match (yes, no) {
        (None, None) => Ok(()),
        (yes, no) => push_copy(builder, ends, yes, no, region),
    }
}

/// The end of a conditional: the joined ends of either arm go to one copy, an end of the conditional's region. Where
/// neither arm has an end, there is nothing to wait for, and no copy.
///
/// In a well-formed graph both arms have ends or neither has one. The first node of an arm is an `enter`, whose other side
/// is an end of the other arm. So if both arms have nodes, both have ends. If one alone has nodes, no merge takes from it,
/// and it has an end of its own: the done signal of a call or a loop, the copy of a conditional in whose arms there are
/// nodes, or else the last of its nodes that have code, from which nothing takes. There is a trigger switch only where a call
/// or a loop is in an arm, and its other side leads to one or is an end.
#[tactic(auto, unfolding(crate::specs::Ends::closed))]
pub(crate) fn close<A: Allocator + Clone>(
    builder: &mut Builder<A>,
    ends: &mut Vec<End, A>,
    cond: u32,
    region: Region,
) -> Result<(), AllocError>
    requires room { length builder.old.instrs + 2 * length ends.old.items < 2 ^ 31 - 1 }
    ensures build { OnOk result (builder.new ≡ (Ends.closed builder.old ends.old.items cond region).build) }
    ensures ends { OnOk result (ends.new.items ≡ (Ends.closed builder.old ends.old.items cond region).ends) }
    ensures longer { OnOk result (length builder.new.instrs ≤ length builder.old.instrs + 2 * length ends.old.items + 1) }
    ensures more { OnOk result (length ends.new.items ≤ length ends.old.items + 1) }
{
    let yes = join_ends(builder, ends, Region::Arm { cond, side: true })?;
    let no = join_ends(builder, ends, Region::Arm { cond, side: false })?;
    end_arms(builder, ends, yes, no, region)
}

/// The same of a node, if it is a conditional.
fn close_node<A: Allocator + Clone>(
    builder: &mut Builder<A>,
    ends: &mut Vec<End, A>,
    number: u32,
    node: &Node<A>,
) -> Result<(), AllocError>
    requires room { length builder.old.instrs + 2 * length ends.old.items < 2 ^ 31 - 1 }
    ensures build { OnOk result (builder.new ≡ (Ends.closed_node (Ends.closing builder.old ends.old.items) number node.now).build) }
    ensures ends { OnOk result (ends.new.items ≡ (Ends.closed_node (Ends.closing builder.old ends.old.items) number node.now).ends) }
    ensures longer { OnOk result (length builder.new.instrs ≤ length builder.old.instrs + 2 * length ends.old.items + 1) }
    ensures more { OnOk result (length ends.new.items ≤ length ends.old.items + 1) }
{
    match &node.kind {
        Kind::Cond => close(builder, ends, number, node.region),
        _ => Ok(()),
    }
}

/// The ends of the conditionals among such nodes, whose first one has that number: the last conditional first, so that
/// each is before those that it lies in.
#[tactic(auto, unfolding(crate::specs::Ends::closed_nodes))]
pub(crate) fn close_nodes<A: Allocator + Clone>(
    builder: &mut Builder<A>,
    ends: &mut Vec<End, A>,
    first: u32,
    nodes: &[Node<A>],
) -> Result<(), AllocError>
    requires first { first ≤ 16 }
    requires nodes { length nodes.now ≤ 1024 }
    requires instrs { length builder.old.instrs ≤ 2 ^ 25 }
    requires ends { length ends.old.items ≤ 2 ^ 19 - 2048 }
    ensures build { OnOk result (builder.new ≡ (Ends.closed_nodes (Ends.closing builder.old ends.old.items) first nodes.now).build) }
    ensures ends { OnOk result (ends.new.items ≡ (Ends.closed_nodes (Ends.closing builder.old ends.old.items) first nodes.now).ends) }
    ensures longer { OnOk result (length builder.new.instrs ≤ 2 ^ 25 + 1024 * (2 ^ 20 + 1)) }
    ensures more { OnOk result (length ends.new.items ≤ 2 ^ 19) }
{
    for index in (0..nodes.len()).rev() {
        close_node(builder, ends, first + index as u32, &nodes[index])?;
    }
    Ok(())
}

/// The end of a block: `release` takes the continuation and the joined ends of the root.
#[tactic(auto, unfolding(crate::specs::Ends::released))]
pub(crate) fn release<A: Allocator + Clone>(
    builder: &mut Builder<A>,
    ends: &[End],
    offset: u8,
) -> Result<(), AllocError>
    requires room { length builder.old.instrs + length ends.now < 2 ^ 31 - 1 }
    ensures exact { OnOk result (builder.new ≡ Ends.released builder.old ends.now offset) }
{
    let signal = join_ends(builder, ends, Region::Root)?;
    let release = builder.behind(Outlet::first(0), Op::Release { offset }, Region::Root)?;
    connect_signal(builder, signal, release, Port::Right)
}
