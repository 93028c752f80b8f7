//! Texts of programs, and what their reports say.

use driver::fault::Fault;
use driver::order::Order;
use driver::resources::Resources;
use programs::fault::RunRefusal;
use programs::running::run_program;
use rounds::Open;
use schedule::config::{Config, StartFault};
use schedule::report::Report;
use schedule::take::Take;
use semantics::report::End;
use source::fault::{FaultKind, ProgramFault};
use std::alloc::Global;
use std::sync::Wait;
use std::test::Fail;
use std::thread::Threads;
use tags::value::Value;

/// Factorials, with a line `inputs` and an input after it, which is not read.
const FACTORIAL: &[u8] =
    b"fn factorial(n) { if n <= 1 { 1 } else { n * factorial(n - 1) } }\nfn main(n) { factorial(n) }\ninputs\n3\n";

/// Fills a cell with its input's square, and reads it.
const SQUARE: &[u8] = b"array A[4];\nfn main(n) -> 2 { A[n] := n * n, A[n] + 1 }\n";

/// The name `m` stands for nothing.
const NAMELESS: &[u8] = b"fn main(n) {\n    n + m\n}\n";

const ORDERS: [Order; 6] = [
    Order::InTurn(Take::Oldest),
    Order::InTurn(Take::Depth),
    Order::InRounds(Take::Oldest),
    Order::InRounds(Take::Depth),
    Order::Free(Take::Oldest),
    Order::Free(Take::Depth),
];

const CONFIG: Config = Config {
    elements: 3,
    frames: 32,
    steps: 1_000_000,
    turn: 16,
};

/// The report of a run in this order, on this input.
fn report_in<R: Threads + Wait + Sync>(
    rt: &R,
    alloc: Global,
    text: &[u8],
    input: i64,
    order: Order,
) -> Result<Report<Global>, RunRefusal> {
    let resources = Resources {
        alloc,
        rt,
        gate: &Open,
    };
    run_program(resources, text, &[input], CONFIG, order)
}

/// Whether the report has these outputs and cells, at rest, with no reader waiting and no event listed.
fn is_reported(report: &Report<Global>, outputs: &[Option<Value>], cells: &[(u32, Value)]) -> bool {
    report.end == End::Rest
        && report.deferred == 0
        && report.outputs.as_slice() == outputs
        && report.cells.as_slice() == cells
        && report.events.is_empty()
}

#[test]
fn factorial_of_twenty(rt: HostRuntime) -> Result<(), Fail> {
    let wanted = [Some(Value::Int(2_432_902_008_176_640_000))];
    for order in ORDERS {
        let report = report_in(&rt, rt.alloc(), FACTORIAL, 20, order);
        assert!(rt; report.is_ok_and(|report| is_reported(&report, &wanted, &[])));
    }
    Ok(())
}

#[test]
fn a_cell_is_filled(rt: HostRuntime) -> Result<(), Fail> {
    let wanted = [Some(Value::Int(9)), Some(Value::Int(10))];
    for order in ORDERS {
        let report = report_in(&rt, rt.alloc(), SQUARE, 3, order);
        assert!(rt;
            report.is_ok_and(|report| is_reported(&report, &wanted, &[(3, Value::Int(9))]))
        );
    }
    Ok(())
}

/// Whether this is the first fault, in line 2 and column 9.
fn is_nameless(fault: &ProgramFault) -> bool {
    fault.kind == FaultKind::NoSuchName && fault.line == 2 && fault.column == 9
}

#[test]
fn refusals_are_told(rt: HostRuntime) -> Result<(), Fail> {
    let nameless = report_in(&rt, rt.alloc(), NAMELESS, 1, Order::InTurn(Take::Oldest));
    assert!(rt;
        matches!(nameless, Err(RunRefusal::Program(refusal)) if is_nameless(&refusal.fault))
    );
    let resources = Resources {
        alloc: rt.alloc(),
        rt: &rt,
        gate: &Open,
    };
    let empty = run_program(
        resources,
        FACTORIAL,
        &[],
        CONFIG,
        Order::InTurn(Take::Oldest),
    );
    assert!(rt;
        matches!(
            empty,
            Err(RunRefusal::Graph(Fault::Start(StartFault::WrongInputs)))
        )
    );
    Ok(())
}
