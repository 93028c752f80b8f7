//! The code of each kind of node.

ghost use Rattle.std.specs.Prelude.{◌≡◌, ◌+◌, ◌<◌, ◌≤◌, ◌^◌, length, IfOk, OnOk};
ghost use Rattle.semantics.specs.declared.program.Mark.TheVariants.{OfCond};
ghost use Rattle.semantics.specs.declared.program.Op.TheVariants.{Switch};
ghost use Rattle.schemas.specs.Builds as Builds;
ghost use Rattle.schemas.specs.Rows as Rows;

use crate::builder::{Builder, Outlet, first_source};
use semantics::graph::{Region, Source};
use semantics::program::{Mark, Op};
use std::alloc::{AllocError, Allocator};
use tags::token::Port;
use tags::value::Origin;

/// A literal or an operator: its instruction.
pub(crate) fn operator<A: Allocator + Clone>(
    builder: &mut Builder<A>,
    op: Op,
    origin: Origin,
    region: Region,
    sources: &[Source],
) -> Result<(), AllocError>
    requires room { length builder.old.instrs < 2 ^ 30 }
    ensures exact { OnOk result (builder.new ≡ Rows.operator builder.old op origin region sources.now) }
    ensures longer { OnOk result (length builder.new.instrs ≡ length builder.old.instrs + 1) }
{
    let place = builder.add(op, origin, Mark::Unmarked, region)?;
    builder.operands(place, sources)?;
    builder.exit(Outlet::first(place))
}

/// A `fetch` or a `store` whose answer has several uses: its instruction, and a copy that the answer goes to.
pub(crate) fn shared_answer<A: Allocator + Clone>(
    builder: &mut Builder<A>,
    op: Op,
    origin: Origin,
    region: Region,
    sources: &[Source],
) -> Result<(), AllocError>
    requires room { length builder.old.instrs < 2 ^ 30 }
    ensures exact { OnOk result (builder.new ≡ Rows.shared_answer builder.old op origin region sources.now) }
    ensures longer { OnOk result (length builder.new.instrs ≡ length builder.old.instrs + 2) }
{
    let place = builder.add(op, origin, Mark::Unmarked, region)?;
    builder.operands(place, sources)?;
    let copy = builder.behind(Outlet::first(place), Op::Copy, region)?;
    builder.exit(Outlet::first(copy))
}

/// A conditional of whose triggers something takes one: the switch of its source by its source, which gives them.
pub(crate) fn trigger_switch<A: Allocator + Clone>(
    builder: &mut Builder<A>,
    cond: u32,
    region: Region,
    sources: &[Source],
) -> Result<(), AllocError>
    requires room { length builder.old.instrs < 2 ^ 30 }
    ensures exact { OnOk result (builder.new ≡ Rows.trigger_switch builder.old cond region sources.now) }
    ensures longer { OnOk result (length builder.new.instrs ≡ length builder.old.instrs + 1) }
{
    let predicate = builder.outlet(first_source(sources));
    let place = builder.meet(
        Op::Switch,
        Mark::OfCond { cond },
        region,
        predicate,
        predicate,
    )?;
    builder.exit(Outlet::first(place))
}

/// An `enter` in an arm of that conditional: a switch of its source by the conditional's source, whose place is returned.
/// The side of the other arm is an end there.
pub(crate) fn enter<A: Allocator + Clone>(
    builder: &mut Builder<A>,
    cond: u32,
    arm: Region,
    sources: &[Source],
    predicate: Source,
) -> Result<u32, AllocError>
    requires room { length builder.old.instrs < 2 ^ 30 }
    ensures place { IfOk result (λ p. p ≡ length builder.old.instrs) }
    ensures exact { OnOk result (builder.new ≡ Builds.meeting builder.old Switch (OfCond cond) arm
        (Builds.outlet_of builder.old (Builds.first_source sources.now)) (Builds.outlet_of builder.old predicate)) }
    ensures longer { OnOk result (length builder.new.instrs ≡ length builder.old.instrs + 1) }
{
    let value = builder.outlet(first_source(sources));
    let by = builder.outlet(predicate);
    builder.meet(Op::Switch, Mark::OfCond { cond }, arm, value, by)
}

/// A merge: a copy that both sources go to.
pub(crate) fn merge<A: Allocator + Clone>(
    builder: &mut Builder<A>,
    region: Region,
    sources: &[Source],
) -> Result<(), AllocError>
    requires room { length builder.old.instrs < 2 ^ 30 }
    ensures exact { OnOk result (builder.new ≡ Rows.merge builder.old region sources.now) }
    ensures longer { OnOk result (length builder.new.instrs ≡ length builder.old.instrs + 1) }
{
    let place = builder.quiet(Op::Copy, region)?;
    builder.alternatives(place, sources)?;
    builder.exit(Outlet::first(place))
}

/// One `send` for each source, to the entries of a block in the frame that leaves there.
fn sends<A: Allocator + Clone>(
    builder: &mut Builder<A>,
    frame: Outlet,
    block: u16,
    region: Region,
    sources: &[Source],
) -> Result<(), AllocError>
    requires room { length builder.old.instrs < 2 ^ 30 }
    requires few { length sources.now ≤ 16 }
    ensures exact { OnOk result (builder.new ≡ Rows.sends builder.old frame block region 0 sources.now) }
    ensures longer { OnOk result (length builder.new.instrs ≡ length builder.old.instrs + length sources.now) }
{
    for (position, source) in sources.iter().enumerate() {
        let value = builder.outlet(*source);
        let op = Op::Send {
            block,
            entry: position as u16 + 1,
        };
        builder.meet(op, Mark::Unmarked, region, frame, value)?;
    }
    Ok(())
}

/// The invocation of a block in the frame that is asked for there: a copy of the frame, `link`, one `send` for each
/// source, and the copies that the outputs go to, which begin the landing.
fn invoke<A: Allocator + Clone>(
    builder: &mut Builder<A>,
    frame: u32,
    block: u16,
    outputs: u32,
    region: Region,
    sources: &[Source],
) -> Result<(), AllocError>
    requires room { length builder.old.instrs < 2 ^ 29 }
    requires few { length sources.now ≤ 16 }
    requires outputs { outputs ≤ 16 }
    ensures exact { OnOk result (builder.new ≡ Rows.invoke builder.old frame block outputs region sources.now) }
    ensures longer { OnOk result (length builder.new.instrs ≤ length builder.old.instrs + 34) }
{
    let copy = builder.behind(Outlet::first(frame), Op::Copy, region)?;
    let link = builder.behind(Outlet::first(copy), Op::Link { block }, region)?;
    sends(builder, Outlet::first(copy), block, region, sources)?;
    let landing = builder.here();
    builder.copies(outputs, region)?;
    builder.connect(Outlet::first(link), landing, Port::Left)?;
    builder.exit(Outlet::first(landing))
}

/// The invocation of a block in a frame that is asked for when a signal arrives: `frame`, the invocation, and the copy
/// that the done signal goes to, an end.
#[tactic(auto, unfolding(crate::specs::Rows::called))]
fn called<A: Allocator + Clone>(
    builder: &mut Builder<A>,
    signal: Outlet,
    block: u16,
    outputs: u32,
    region: Region,
    sources: &[Source],
) -> Result<(), AllocError>
    requires room { length builder.old.instrs < 2 ^ 28 }
    requires few { length sources.now ≤ 16 }
    requires outputs { outputs ≤ 16 }
    ensures exact { OnOk result (builder.new ≡ Rows.called builder.old signal block outputs region sources.now) }
    ensures longer { OnOk result (length builder.new.instrs ≤ length builder.old.instrs + 36) }
{
    let frame = builder.behind(signal, Op::Frame, region)?;
    invoke(builder, frame, block, outputs, region, sources)?;
    builder.quiet(Op::Copy, region)?;
    Ok(())
}

/// A call: its frame is asked for by the region's trigger.
pub(crate) fn call<A: Allocator + Clone>(
    builder: &mut Builder<A>,
    block: u16,
    outputs: u32,
    region: Region,
    sources: &[Source],
) -> Result<(), AllocError>
    requires room { length builder.old.instrs < 2 ^ 28 }
    requires few { length sources.now ≤ 16 }
    requires outputs { outputs ≤ 16 }
    ensures exact { OnOk result (builder.new ≡ Rows.call builder.old block outputs region sources.now) }
    ensures longer { OnOk result (length builder.new.instrs ≤ length builder.old.instrs + 36) }
{
    let trigger = builder.trigger(region);
    called(builder, trigger, block, outputs, region, sources)
}

/// Joins what leaves there with each of the sources, and returns where the signal leaves.
fn join_sources<A: Allocator + Clone>(
    builder: &mut Builder<A>,
    first: Outlet,
    region: Region,
    sources: &[Source],
) -> Result<Outlet, AllocError>
    requires room { length builder.old.instrs < 2 ^ 30 }
    requires few { length sources.now ≤ 16 }
    ensures signal { IfOk result (λ o. o ≡ (Rows.join_sources builder.old first region sources.now).signal) }
    ensures exact { OnOk result (builder.new ≡ (Rows.join_sources builder.old first region sources.now).build) }
    ensures longer { OnOk result (length builder.new.instrs ≡ length builder.old.instrs + length sources.now) }
{
    let mut signal = first;
    for source in sources {
        let value = builder.outlet(*source);
        let join = builder.meet(Op::Sync, Mark::Unmarked, region, signal, value)?;
        signal = Outlet::first(join);
    }
    Ok(signal)
}

/// A strict call: its frame is asked for by its joined arguments.
pub(crate) fn strict_call<A: Allocator + Clone>(
    builder: &mut Builder<A>,
    block: u16,
    outputs: u32,
    region: Region,
    sources: &[Source],
) -> Result<(), AllocError>
    requires room { length builder.old.instrs < 2 ^ 27 }
    requires few { length sources.now ≤ 16 }
    requires outputs { outputs ≤ 16 }
    ensures exact { OnOk result (builder.new ≡ Rows.strict_call builder.old block outputs region sources.now) }
    ensures longer { OnOk result (length builder.new.instrs ≤ length builder.old.instrs + 52) }
{
    match sources.split_first() {
        Some((first, others)) => {
            let outlet = builder.outlet(*first);
            let signal = join_sources(builder, outlet, region, others)?;
            called(builder, signal, block, outputs, region, sources)
        }
        None => Ok(()),
    }
}

/// The rest of a loop's landing: `give`, `take` and `drain`, and the copy that the end of the loop goes to, an end.
fn credits<A: Allocator + Clone>(
    builder: &mut Builder<A>,
    bound: u8,
    region: Region,
) -> Result<(), AllocError>
    requires room { length builder.old.instrs < 2 ^ 30 }
    ensures exact { OnOk result (builder.new ≡ Rows.credits builder.old bound region) }
    ensures longer { OnOk result (length builder.new.instrs ≡ length builder.old.instrs + 4) }
{
    let give = builder.quiet(Op::Give { bound }, region)?;
    builder.quiet(Op::Take { bound }, region)?;
    let drain = builder.quiet(Op::Drain { bound }, region)?;
    let end = builder.behind(Outlet::first(give), Op::Copy, region)?;
    builder.connect(Outlet::first(drain), end, Port::Left)
}

/// A loop: `open`, by whose signal the frame of the first iteration is asked for, the invocation of the loop variant, and
/// the loop's credits.
pub(crate) fn repeat<A: Allocator + Clone>(
    builder: &mut Builder<A>,
    block: u16,
    bound: u8,
    region: Region,
    sources: &[Source],
) -> Result<(), AllocError>
    requires room { length builder.old.instrs < 2 ^ 28 }
    requires few { length sources.now ≤ 16 }
    ensures exact { OnOk result (builder.new ≡ Rows.repeat builder.old block bound region sources.now) }
    ensures longer { OnOk result (length builder.new.instrs ≤ length builder.old.instrs + 40) }
{
    let trigger = builder.trigger(region);
    let open = builder.behind(trigger, Op::Open { bound }, region)?;
    let frame = builder.behind(Outlet::first(open), Op::Frame, region)?;
    invoke(builder, frame, block, sources.len() as u32, region, sources)?;
    credits(builder, bound, region)
}
