//! What an activity does with the values that it takes.

ghost use Rattle.std.specs.Prelude.{◌≡◌, ◌≤◌, ◌∷◌, [], Some};
ghost use Rattle.operators.specs.Values as Values;
ghost use Rattle.oracle.specs.Lines.{total_of};
ghost use Rattle.oracle.specs.Acting as Acting;
ghost use Rattle.oracle.specs.Deeds as Deeds;
ghost use Rattle.oracle.specs.Pairing.{taken_in};
ghost use Rattle.oracle.specs.Telling.{told, told_if};

use crate::gather::Taken;
use crate::invocations::{Invocation, Made};
use crate::lines::{Line, array_len, arrays_of, cell_of, line_at, origin_at, version_of};
use crate::shapes::Shape;
use graph_check::Checked;
use operators::{apply1, apply2_at, truth};
use semantics::graph::{Kind, Region};
use std::alloc::Allocator;
use tags::value::{FaultKind, Origin, Value};

/// What an activity does, beside the value that it sends or stores. Each invocation is given by its number.
#[derive(Clone, Copy, Debug)]
pub enum Task {
    /// The value goes out on a port of a node.
    Sends {
        context: usize,
        node: usize,
        port: usize,
    },
    /// The value, a predicate, goes to the arms of a conditional.
    Steers {
        context: usize,
        cond: usize,
    },
    /// The value goes to that input of an invocation of a block.
    Enters {
        made: Made,
        block: usize,
        input: usize,
    },
    /// All values that were taken go to the inputs of an invocation of a block.
    EntersAll {
        made: Made,
        block: usize,
    },
    /// Nothing is sent.
    Stops,
    /// What the cell holds goes out, once it is full.
    Reads {
        context: usize,
        node: usize,
        cell: usize,
    },
    /// The cell, at that index of that array, is filled where it is empty, and the value goes out.
    Fills {
        context: usize,
        node: usize,
        cell: usize,
        array: usize,
        index: u32,
    },
    /// An output becomes the value.
    Puts {
        number: usize,
    },
}

/// What an activity does, with the value that it sends or stores. The value of a task that has no use for one is any value.
#[derive(Clone, Copy, Debug)]
pub struct Act {
    pub task: Task,
    pub value: Value,
}

/// A value that goes out on a port of a node.
#[inline(always)]
fn sends(context: usize, node: usize, port: usize, value: Value) -> Act
    ensures { told result ≡ Deeds.Sends context node port value }
{
    Act {
        task: Task::Sends {
            context,
            node,
            port,
        },
        value,
    }
}

/// What an index names in an array.
#[derive(Clone, Copy)]
enum Index {
    Within(u32),
    Beyond(Value),
}

#[inline(always)]
fn index_in(len: u32, index: Value, origin: Origin) -> Index
    ensures { Acting.indexed_of result ≡ Values.index_in len index origin }
{
    match index {
        Value::Int(number) => {
            if number >= 0 && number < i64::from(len) {
                Index::Within(number as u32)
            } else {
                Index::Beyond(Value::Fault {
                    kind: FaultKind::Range,
                    origin,
                })
            }
        }
        Value::Fault { kind, origin } => Index::Beyond(Value::Fault { kind, origin }),
    }
}

#[inline(always)]
fn fetch<'a, A: Allocator>(
    checked: &Checked<'a, A>,
    context: usize,
    node: usize,
    array: usize,
    index: Value,
    origin: Origin,
) -> Act
    requires { total_of checked.now.arrays ≤ 65536 }
    ensures { told result ≡ Acting.fetch_deed context node (Acting.first_in checked.now array) (Values.index_in (Acting.len_in checked.now array)
        index origin) }
{
    let arrays = arrays_of(checked);
    match index_in(array_len(arrays, array), index, origin) {
        Index::Beyond(value) => sends(context, node, 0, value),
        Index::Within(place) => {
            let cell = cell_of(arrays, array, place);
            let task = Task::Reads {
                context,
                node,
                cell,
            };
            Act {
                task,
                value: Value::Int(0),
            }
        }
    }
}

#[inline(always)]
fn store<'a, A: Allocator>(
    checked: &Checked<'a, A>,
    context: usize,
    node: usize,
    array: usize,
    operands: (Value, Value),
    origin: Origin,
) -> Act
    requires { total_of checked.now.arrays ≤ 65536 }
    ensures { told result ≡ Acting.store_deed context node (Acting.first_in checked.now array) array operands.1
        (Values.index_in (Acting.len_in checked.now array) operands.0 origin) }
{
    let (index, value) = operands;
    let arrays = arrays_of(checked);
    match index_in(array_len(arrays, array), index, origin) {
        Index::Beyond(value) => sends(context, node, 0, value),
        Index::Within(index) => {
            let cell = cell_of(arrays, array, index);
            let task = Task::Fills {
                context,
                node,
                cell,
                array,
                index,
            };
            Act { task, value }
        }
    }
}

/// What a node does with one operand.
#[inline(always)]
fn fired_one<'a, A: Allocator>(
    checked: &Checked<'a, A>,
    context: usize,
    node: usize,
    kind: &Kind<usize>,
    value: &Value,
    origin: Origin,
) -> Option<Act>
    requires { total_of checked.now.arrays ≤ 65536 }
    ensures { told_if result ≡ Acting.one_deed checked.now context node kind.now value.now origin }
{
    match kind {
        Kind::Lit { value } => Some(sends(context, node, 0, Value::Int(*value))),
        Kind::Apply1 { op } => Some(sends(context, node, 0, apply1(*op, *value))),
        Kind::Cond => Some(Act {
            task: Task::Steers {
                context,
                cond: node,
            },
            value: *value,
        }),
        Kind::Fetch { array } => Some(fetch(checked, context, node, *array, *value, origin)),
        _ => None,
    }
}

/// What a node does with two operands.
#[inline(always)]
fn fired_two<'a, A: Allocator>(
    checked: &Checked<'a, A>,
    context: usize,
    node: usize,
    kind: &Kind<usize>,
    first: &Value,
    second: &Value,
    origin: Origin,
) -> Option<Act>
    requires { total_of checked.now.arrays ≤ 65536 }
    ensures { told_if result ≡ Acting.two_deed checked.now context node kind.now first.now second.now origin }
{
    match kind {
        Kind::Apply2 { op } => Some(sends(
            context,
            node,
            0,
            apply2_at(*op, *first, *second, origin),
        )),
        Kind::Store { array } => Some(store(
            checked,
            context,
            node,
            *array,
            (*first, *second),
            origin,
        )),
        _ => None,
    }
}

/// All values that a strict call takes enter the block.
#[inline(always)]
fn enters_all(context: usize, node: usize, block: usize) -> Act
    ensures { told result ≡ Deeds.EntersAll (Made.Called context node) block }
{
    let made = Made::Called { by: context, node };
    Act {
        task: Task::EntersAll { made, block },
        value: Value::Int(0),
    }
}

/// What a node or an input does with its only operand.
#[inline(always)]
fn fires_one<'a, A: Allocator>(
    checked: &Checked<'a, A>,
    context: usize,
    block: usize,
    node: usize,
    value: &Value,
) -> Option<Act>
    requires { total_of checked.now.arrays ≤ 65536 }
    ensures { told_if result ≡ Acting.fires_deed checked.now context block node (value.now ∷ []) }
{
    match line_at(checked, block, node) {
        Line::Input => Some(sends(context, node, 0, *value)),
        Line::Node { arity, .. } if arity != 1 => None,
        Line::Node {
            kind: Kind::StrictCall { block },
            ..
        } => Some(enters_all(context, node, block)),
        Line::Node { kind, .. } => {
            let origin = origin_at(version_of(checked), block, node);
            fired_one(checked, context, node, &kind, value, origin)
        }
        Line::Nothing => None,
    }
}

/// What a node does with its two operands.
#[inline(always)]
fn fires_two<'a, A: Allocator>(
    checked: &Checked<'a, A>,
    context: usize,
    block: usize,
    node: usize,
    first: &Value,
    second: &Value,
) -> Option<Act>
    requires { total_of checked.now.arrays ≤ 65536 }
    ensures { told_if result ≡ Acting.fires_deed checked.now context block node (first.now ∷ second.now ∷ []) }
{
    match line_at(checked, block, node) {
        Line::Node { arity, .. } if arity != 2 => None,
        Line::Node {
            kind: Kind::StrictCall { block },
            ..
        } => Some(enters_all(context, node, block)),
        Line::Node { kind, .. } => {
            let origin = origin_at(version_of(checked), block, node);
            fired_two(checked, context, node, &kind, first, second, origin)
        }
        _ => None,
    }
}

/// What a node does with all its operands.
fn fired<'a, A: Allocator>(
    checked: &Checked<'a, A>,
    context: usize,
    node: usize,
    kind: &Kind<usize>,
    values: &[Value],
    origin: Origin,
) -> Option<Act>
    requires { total_of checked.now.arrays ≤ 65536 }
    ensures { told_if result ≡ Acting.fired_deed checked.now context node kind.now values.now origin }
{
    if let Kind::StrictCall { block } = kind {
        return Some(enters_all(context, node, *block));
    }
    match values {
        [value] => fired_one(checked, context, node, kind, value, origin),
        [left, right] => fired_two(checked, context, node, kind, left, right, origin),
        _ => None,
    }
}

/// What a node or an input does with all its operands.
fn fired_at<'a, A: Allocator>(
    checked: &Checked<'a, A>,
    context: usize,
    block: usize,
    node: usize,
    values: &[Value],
) -> Option<Act>
    requires { total_of checked.now.arrays ≤ 65536 }
    ensures { told_if result ≡ Acting.fires_deed checked.now context block node values.now }
{
    match line_at(checked, block, node) {
        Line::Input => match values {
            [value] => Some(sends(context, node, 0, *value)),
            _ => None,
        },
        Line::Node { kind, arity, .. } => {
            if values.len() != arity {
                return None;
            }
            let origin = origin_at(version_of(checked), block, node);
            fired(checked, context, node, &kind, values, origin)
        }
        Line::Nothing => None,
    }
}

/// What an `enter` does with its source and its predicate.
#[inline(always)]
fn gated(context: usize, node: usize, line: &Line, value: &Value, predicate: &Value) -> Option<Act>
    ensures { told_if result ≡ Acting.gated_deed context node line.now value.now predicate.now }
{
    match line {
        Line::Node {
            region: Region::Arm { side, .. },
            kind: Kind::Enter,
            ..
        } => {
            if truth(*predicate) == *side {
                Some(sends(context, node, 0, *value))
            } else {
                Some(Act {
                    task: Task::Stops,
                    value: *value,
                })
            }
        }
        _ => None,
    }
}

/// What a merge, a call or a loop does with an operand.
#[inline(always)]
fn passed(context: usize, node: usize, position: usize, line: &Line, value: &Value) -> Option<Act>
    ensures { told_if result ≡ Acting.passed_deed context node position line.now value.now }
{
    match line {
        Line::Node {
            kind: Kind::Merge { .. },
            ..
        } => Some(sends(context, node, 0, *value)),
        Line::Node {
            kind: Kind::Call { block },
            ..
        } => Some(Act {
            task: Task::Enters {
                made: Made::Called { by: context, node },
                block: *block,
                input: position,
            },
            value: *value,
        }),
        Line::Node {
            kind: Kind::Loop { block, .. },
            ..
        } => Some(Act {
            task: Task::Enters {
                made: Made::Turned {
                    by: context,
                    node,
                    turn: 0,
                },
                block: *block,
                input: position,
            },
            value: *value,
        }),
        _ => None,
    }
}

/// What a turn of an iteration does. There is no number for a turn beyond the last u64.
#[inline(always)]
fn turned(invocation: &Invocation, number: usize, flag: &Value, value: &Value) -> Option<Act>
    ensures { told_if result ≡ Acting.turned_deed invocation.now.made invocation.now.block number flag.now value.now }
{
    let Made::Turned { by, node, turn } = invocation.made else {
        return None;
    };
    let place = number.saturating_sub(1);
    if truth(*flag) {
        let made = Made::Turned {
            by,
            node,
            turn: turn.checked_add(1)?,
        };
        Some(Act {
            task: Task::Enters {
                made,
                block: invocation.block,
                input: place,
            },
            value: *value,
        })
    } else {
        Some(sends(by, node, place, *value))
    }
}

/// What a result of a call does.
#[inline(always)]
fn returned(invocation: &Invocation, number: usize, value: &Value) -> Option<Act>
    ensures { told_if result ≡ Acting.returned_deed invocation.now.made number value.now }
{
    match invocation.made {
        Made::Called { by, node } => Some(sends(by, node, number, *value)),
        _ => None,
    }
}

/// What a result of main does.
#[inline(always)]
fn shown(invocation: &Invocation, number: usize, value: &Value) -> Option<Act>
    ensures { told_if result ≡ Acting.shown_deed invocation.now.made number value.now }
{
    match invocation.made {
        Made::Main => Some(Act {
            task: Task::Puts { number },
            value: *value,
        }),
        _ => None,
    }
}

/// What an activity of that shape, which takes one value, does in an invocation.
#[inline(always)]
fn deed_of_one<'a, A: Allocator>(
    checked: &Checked<'a, A>,
    context: usize,
    invocation: &Invocation,
    shape: Shape,
    value: &Value,
) -> Option<Act>
    requires { total_of checked.now.arrays ≤ 65536 }
    ensures { told_if result ≡ Acting.deed_in checked.now context invocation.now shape (value.now ∷ []) }
{
    let block = invocation.block;
    match shape {
        Shape::Fires { node, .. } => fires_one(checked, context, block, node, value),
        Shape::Passes { node, position } => {
            let line = line_at(checked, block, node);
            passed(context, node, position, &line, value)
        }
        Shape::Returns { number } => returned(invocation, number, value),
        Shape::Outputs { number } => shown(invocation, number, value),
        _ => None,
    }
}

/// What an activity of that shape, which takes two values, does in an invocation.
#[inline(always)]
fn deed_of_two<'a, A: Allocator>(
    checked: &Checked<'a, A>,
    context: usize,
    invocation: &Invocation,
    shape: Shape,
    first: &Value,
    second: &Value,
) -> Option<Act>
    requires { total_of checked.now.arrays ≤ 65536 }
    ensures { told_if result ≡ Acting.deed_in checked.now context invocation.now shape (first.now ∷ second.now ∷ []) }
{
    let block = invocation.block;
    match shape {
        Shape::Fires { node, .. } => fires_two(checked, context, block, node, first, second),
        Shape::Gates { node } => {
            let line = line_at(checked, block, node);
            gated(context, node, &line, first, second)
        }
        Shape::Turns { number } => turned(invocation, number, first, second),
        _ => None,
    }
}

/// What an activity of that shape does in an invocation with the values that are listed.
fn deed_of_listed<'a, A: Allocator>(
    checked: &Checked<'a, A>,
    context: usize,
    invocation: &Invocation,
    shape: Shape,
    values: &[Value],
) -> Option<Act>
    requires { total_of checked.now.arrays ≤ 65536 }
    ensures { told_if result ≡ Acting.deed_in checked.now context invocation.now shape values.now }
{
    match (shape, values) {
        (Shape::Fires { node, .. }, _) => {
            fired_at(checked, context, invocation.block, node, values)
        }
        (_, [value]) => deed_of_one(checked, context, invocation, shape, value),
        (_, [first, second]) => { deed_of_two(checked, context, invocation, shape, first, second) }
        _ => None,
    }
}

/// What an activity of that shape does in an invocation with the values that it takes.
#[inline(always)]
pub fn deed_of<'a, A: Allocator>(
    checked: &Checked<'a, A>,
    context: usize,
    invocation: &Invocation,
    shape: Shape,
    taken: &Taken,
    listed: &[Value],
) -> Option<Act>
    requires { total_of checked.now.arrays ≤ 65536 }
    ensures { told_if result ≡ Acting.deed_in checked.now context invocation.now shape (taken_in taken.now listed.now) }
{
    match taken {
        Taken::One(value) => deed_of_one(checked, context, invocation, shape, value),
        Taken::Two(first, second) => {
            deed_of_two(checked, context, invocation, shape, first, second)
        }
        Taken::Listed => deed_of_listed(checked, context, invocation, shape, listed),
    }
}
