//! How a block gives its outputs: the returns of a plain block, and the turn of an iteration.

ghost use Rattle.std.specs.Prelude.{◌≡◌, ◌+◌, ◌<◌, ◌≤◌, ◌^◌, length, IfOk, OnOk};
ghost use Rattle.schemas.specs.Builds as Builds;
ghost use Rattle.schemas.specs.Tails as Tails;

use crate::builder::{Builder, Outlet};
use semantics::graph::{Region, Source};
use semantics::program::{Mark, Op};
use std::alloc::{AllocError, Allocator};

/// A plain block: one `return` for each output.
pub(crate) fn returns<A: Allocator + Clone>(
    builder: &mut Builder<A>,
    results: &[Source],
) -> Result<(), AllocError>
    requires room { length builder.old.instrs < 2 ^ 30 }
    requires few { length results.now ≤ 16 }
    ensures exact { OnOk result (builder.new ≡ Tails.returns builder.old 0 results.now) }
    ensures longer { OnOk result (length builder.new.instrs ≡ length builder.old.instrs + length results.now) }
{
    for (output, source) in results.iter().enumerate() {
        let value = builder.outlet(*source);
        let op = Op::Return {
            offset: output as u8,
        };
        builder.meet(op, Mark::Unmarked, Region::Root, Outlet::first(0), value)?;
    }
    Ok(())
}

/// A switch of each value by the flag.
fn switches<A: Allocator + Clone>(
    builder: &mut Builder<A>,
    flag: Outlet,
    values: &[Source],
) -> Result<(), AllocError>
    requires room { length builder.old.instrs < 2 ^ 30 }
    requires few { length values.now ≤ 16 }
    ensures exact { OnOk result (builder.new ≡ Tails.switches builder.old flag values.now) }
    ensures longer { OnOk result (length builder.new.instrs ≡ length builder.old.instrs + length values.now) }
{
    for source in values {
        let value = builder.outlet(*source);
        builder.meet(Op::Switch, Mark::OfFlag, Region::Root, value, flag)?;
    }
    Ok(())
}

/// One `send` for each value of the next iteration, whose switches are in a row from that place on.
fn next_values<A: Allocator + Clone>(
    builder: &mut Builder<A>,
    block: u16,
    region: Region,
    frame: Outlet,
    values: u32,
    count: u32,
) -> Result<(), AllocError>
    requires room { length builder.old.instrs < 2 ^ 30 }
    requires few { count ≤ 16 }
    ensures exact { OnOk result (builder.new ≡ Tails.next_values builder.old block region frame values count) }
    ensures longer { OnOk result (length builder.new.instrs ≡ length builder.old.instrs + count) }
{
    for number in 0..count {
        let value = Outlet {
            place: values,
            port: number,
            second: false,
        };
        let op = Op::Send {
            block,
            entry: number as u16 + 1,
        };
        builder.meet(op, Mark::Unmarked, region, frame, value)?;
    }
    Ok(())
}

/// One `return` for each value of the last iteration, whose switches are in a row from that place on.
fn last_values<A: Allocator + Clone>(
    builder: &mut Builder<A>,
    region: Region,
    continuation: Outlet,
    values: u32,
    count: u32,
) -> Result<(), AllocError>
    requires room { length builder.old.instrs < 2 ^ 30 }
    requires few { count ≤ 16 }
    ensures exact { OnOk result (builder.new ≡ Tails.last_values builder.old region continuation values count) }
    ensures longer { OnOk result (length builder.new.instrs ≡ length builder.old.instrs + count) }
{
    for number in 0..count {
        let value = Outlet {
            place: values,
            port: number,
            second: true,
        };
        let op = Op::Return {
            offset: number as u8,
        };
        builder.meet(op, Mark::Unmarked, region, continuation, value)?;
    }
    Ok(())
}

/// Where what an iteration passes on leaves: the switches of the continuation and of the flag, and the first one of the
/// values' switches, which are in a row.
#[derive(Clone, Copy)]
pub struct Turn {
    pub continuation: u32,
    pub flag: u32,
    pub values: u32,
    pub count: u32,
}

/// The switches of an iteration, all by its flag.
#[tactic(auto, unfolding(crate::specs::Tails::turning, crate::specs::Tails::turn_of))]
fn turning<A: Allocator + Clone>(
    builder: &mut Builder<A>,
    flag: Outlet,
    values: &[Source],
) -> Result<Turn, AllocError>
    requires room { length builder.old.instrs < 2 ^ 29 }
    requires few { length values.now ≤ 16 }
    ensures turn { IfOk result (λ t. t ≡ Tails.turn_of builder.old flag (length values.now)) }
    ensures count { IfOk result (λ t. t.count ≡ length values.now) }
    ensures exact { OnOk result (builder.new ≡ Tails.turning builder.old flag values.now) }
    ensures longer { OnOk result (length builder.new.instrs ≡ length builder.old.instrs + 2 + length values.now) }
{
    let continuation = builder.meet(
        Op::Switch,
        Mark::OfFlag,
        Region::Root,
        Outlet::first(0),
        flag,
    )?;
    let going = builder.meet(Op::Switch, Mark::OfFlag, Region::Root, flag, flag)?;
    let place = builder.here();
    switches(builder, flag, values)?;
    Ok(Turn {
        continuation,
        flag: going,
        values: place,
        count: values.len() as u32,
    })
}

/// The next iteration, where the flag is true: `ask` for a credit, whose answer asks for a frame, and one `send` for the
/// continuation and for each value into the same loop variant.
#[tactic(auto, unfolding(crate::specs::Tails::go_on))]
fn go_on<A: Allocator + Clone>(
    builder: &mut Builder<A>,
    block: u16,
    region: Region,
    turn: Turn,
) -> Result<(), AllocError>
    requires room { length builder.old.instrs < 2 ^ 29 }
    requires few { turn.count ≤ 16 }
    ensures exact { OnOk result (builder.new ≡ Tails.go_on builder.old block region turn) }
    ensures longer { OnOk result (length builder.new.instrs ≡ length builder.old.instrs + 4 + turn.count) }
{
    let op = Op::Ask {
        offset: turn.count as u8 + 1,
    };
    let ask = builder.meet(
        op,
        Mark::Unmarked,
        Region::Root,
        Outlet::first(turn.continuation),
        Outlet::first(turn.flag),
    )?;
    let frame = builder.behind(Outlet::first(ask), Op::Frame, Region::Root)?;
    let copy = builder.behind(Outlet::first(frame), Op::Copy, Region::Root)?;
    builder.meet(
        Op::Send { block, entry: 0 },
        Mark::Unmarked,
        region,
        Outlet::first(copy),
        Outlet::first(turn.continuation),
    )?;
    next_values(
        builder,
        block,
        region,
        Outlet::first(copy),
        turn.values,
        turn.count,
    )
}

/// The end of the loop, where the flag is false: one `return` for each value, and one to the loop's `drain`.
#[tactic(auto, unfolding(crate::specs::Tails::stop))]
fn stop<A: Allocator + Clone>(
    builder: &mut Builder<A>,
    region: Region,
    turn: Turn,
) -> Result<(), AllocError>
    requires room { length builder.old.instrs < 2 ^ 29 }
    requires few { turn.count ≤ 16 }
    ensures exact { OnOk result (builder.new ≡ Tails.stop builder.old region turn) }
    ensures longer { OnOk result (length builder.new.instrs ≡ length builder.old.instrs + 1 + turn.count) }
{
    let continuation = Outlet::second(turn.continuation);
    last_values(builder, region, continuation, turn.values, turn.count)?;
    let op = Op::Return {
        offset: turn.count as u8 + 2,
    };
    builder.meet(
        op,
        Mark::Unmarked,
        region,
        continuation,
        Outlet::second(turn.flag),
    )?;
    Ok(())
}

/// A loop variant: the switches by the flag, the next iteration and the end of the loop. The signals of these two are ends
/// of the arms of a conditional of that number, which no node has.
pub(crate) fn iterate<A: Allocator + Clone>(
    builder: &mut Builder<A>,
    block: u16,
    cond: u32,
    results: &[Source],
) -> Result<(), AllocError>
    requires room { length builder.old.instrs < 2 ^ 28 }
    requires few { length results.now ≤ 16 }
    ensures exact { OnOk result (builder.new ≡ Tails.iterate builder.old block cond results.now) }
    ensures longer { OnOk result (length builder.new.instrs ≤ length builder.old.instrs + 64) }
{
    if let Some((first, values)) = results.split_first() {
        let flag = builder.outlet(*first);
        let turn = turning(builder, flag, values)?;
        go_on(builder, block, Region::Arm { cond, side: true }, turn)?;
        stop(builder, Region::Arm { cond, side: false }, turn)?;
    }
    Ok(())
}
