//! Every order of steps gives the same report.

ghost use Rattle.std.specs.Prelude.{◌≡◌};

use crate::lists::picks;
use driver::compiling::compile;
use driver::emulation::{emulate, emulate_object_picks, emulate_picks};
use mode::Mode;
use rounds::Open;
use schedule::config::Config;
use schedule::report::Report;
use semantics::report::End;
use std::alloc::{AllocError, Global};
use std::process::Abort;
use std::test::Fail;
use tags::value::Value;
use test_inputs::graph_texts::{ADD, FACTORIAL, FIVE_RESULTS, with_change};

/// Two calls that ask for their frames at once. The second one takes the first one's result.
const TWO_CALLS: &[u8] =
    b"etsgraph 1\nblock g 2 1\n- neg 0.0\nout 2.0\nend\nblock m 2 2\n- call g 0.0 1.0\n- call g 2.0 2.0\nout 2.0 3.0\nend\nmain m\n";

/// Two strict calls. The second one takes the first one's result.
const STRICT_CALLS: &[u8] =
    b"etsgraph 2\nblock g 1 1\n- neg 0.0\nout 1.0\nend\nblock m 1 1\n- scall g 0.0\n- scall g 1.0\nout 2.0\nend\nmain m\n";

/// What of a text is changed, and what takes its place.
type Change = (&'static [u8], &'static [u8]);

/// The factorial's call becomes strict.
const STRICT: &[Change] = &[
    (b"etsgraph 1", b"etsgraph 2"),
    (b"+ call fact", b"+ scall fact"),
];

/// Both strict calls become calls that are not.
const LAZY: &[Change] = &[
    (b"scall g 0.0", b"call g 0.0"),
    (b"scall g 1.0", b"call g 1.0"),
];

/// A graph, its inputs, and the report that it has in every order on so many elements with so many frames each. Where requests for
/// frames wait, the run starves; else it rests.
#[derive(Clone, Copy)]
struct Row {
    text: &'static [u8],
    changes: &'static [Change],
    inputs: &'static [i64],
    elements: u32,
    frames: u64,
    outputs: &'static [Option<i64>],
    waiting: u64,
    out: u64,
}

/// Operators; recursion, in as many frames as it needs and in one fewer; two calls at once; and two strict calls one after the other.
const ROWS: [Row; 21] = [
    Row {
        text: ADD,
        changes: &[],
        inputs: &[2, 3],
        elements: 1,
        frames: 256,
        outputs: &[Some(5)],
        waiting: 0,
        out: 0,
    },
    Row {
        text: ADD,
        changes: &[],
        inputs: &[i64::MAX, 1],
        elements: 1,
        frames: 256,
        outputs: &[Some(i64::MIN)],
        waiting: 0,
        out: 0,
    },
    Row {
        text: FIVE_RESULTS,
        changes: &[],
        inputs: &[10, 3],
        elements: 1,
        frames: 256,
        outputs: &[Some(7), Some(13), Some(30), Some(2), Some(0)],
        waiting: 0,
        out: 0,
    },
    Row {
        text: FACTORIAL,
        changes: &[],
        inputs: &[20],
        elements: 1,
        frames: 21,
        outputs: &[Some(2_432_902_008_176_640_000)],
        waiting: 0,
        out: 0,
    },
    Row {
        text: FACTORIAL,
        changes: &[],
        inputs: &[20],
        elements: 3,
        frames: 7,
        outputs: &[Some(2_432_902_008_176_640_000)],
        waiting: 0,
        out: 0,
    },
    Row {
        text: FACTORIAL,
        changes: &[],
        inputs: &[20],
        elements: 1,
        frames: 20,
        outputs: &[None],
        waiting: 1,
        out: 20,
    },
    Row {
        text: FACTORIAL,
        changes: &[],
        inputs: &[20],
        elements: 4,
        frames: 5,
        outputs: &[None],
        waiting: 1,
        out: 20,
    },
    Row {
        text: FACTORIAL,
        changes: STRICT,
        inputs: &[20],
        elements: 1,
        frames: 21,
        outputs: &[Some(2_432_902_008_176_640_000)],
        waiting: 0,
        out: 0,
    },
    Row {
        text: FACTORIAL,
        changes: STRICT,
        inputs: &[20],
        elements: 3,
        frames: 7,
        outputs: &[Some(2_432_902_008_176_640_000)],
        waiting: 0,
        out: 0,
    },
    Row {
        text: FACTORIAL,
        changes: STRICT,
        inputs: &[20],
        elements: 1,
        frames: 20,
        outputs: &[None],
        waiting: 1,
        out: 20,
    },
    Row {
        text: FACTORIAL,
        changes: STRICT,
        inputs: &[20],
        elements: 4,
        frames: 5,
        outputs: &[None],
        waiting: 1,
        out: 20,
    },
    Row {
        text: TWO_CALLS,
        changes: &[],
        inputs: &[4, 3],
        elements: 1,
        frames: 3,
        outputs: &[Some(-4), Some(4)],
        waiting: 0,
        out: 0,
    },
    Row {
        text: TWO_CALLS,
        changes: &[],
        inputs: &[4, 3],
        elements: 2,
        frames: 2,
        outputs: &[Some(-4), Some(4)],
        waiting: 0,
        out: 0,
    },
    Row {
        text: TWO_CALLS,
        changes: &[],
        inputs: &[4, 3],
        elements: 7,
        frames: 1,
        outputs: &[Some(-4), Some(4)],
        waiting: 0,
        out: 0,
    },
    Row {
        text: STRICT_CALLS,
        changes: &[],
        inputs: &[4],
        elements: 1,
        frames: 2,
        outputs: &[Some(4)],
        waiting: 0,
        out: 0,
    },
    Row {
        text: STRICT_CALLS,
        changes: &[],
        inputs: &[4],
        elements: 2,
        frames: 1,
        outputs: &[Some(4)],
        waiting: 0,
        out: 0,
    },
    Row {
        text: STRICT_CALLS,
        changes: &[],
        inputs: &[4],
        elements: 2,
        frames: 2,
        outputs: &[Some(4)],
        waiting: 0,
        out: 0,
    },
    Row {
        text: STRICT_CALLS,
        changes: &[],
        inputs: &[4],
        elements: 7,
        frames: 1,
        outputs: &[Some(4)],
        waiting: 0,
        out: 0,
    },
    Row {
        text: STRICT_CALLS,
        changes: &[],
        inputs: &[4],
        elements: 7,
        frames: 2,
        outputs: &[Some(4)],
        waiting: 0,
        out: 0,
    },
    Row {
        text: STRICT_CALLS,
        changes: &[],
        inputs: &[4],
        elements: 1,
        frames: 1,
        outputs: &[None],
        waiting: 1,
        out: 1,
    },
    Row {
        text: STRICT_CALLS,
        changes: LAZY,
        inputs: &[4],
        elements: 1,
        frames: 1,
        outputs: &[None],
        waiting: 2,
        out: 1,
    },
];

/// Where calls are not strict and there is one frame besides main's, the first call may get it and give it back.
const FIRST_CALLED: Row = Row {
    text: STRICT_CALLS,
    changes: LAZY,
    inputs: &[4],
    elements: 1,
    frames: 2,
    outputs: &[Some(4)],
    waiting: 0,
    out: 0,
};

/// Or the second one gets it, which keeps it for ever, and then the first one waits.
const SECOND_CALLED: Row = Row {
    text: STRICT_CALLS,
    changes: LAZY,
    inputs: &[4],
    elements: 1,
    frames: 2,
    outputs: &[None],
    waiting: 1,
    out: 2,
};

fn config(elements: u32, frames: u64) -> Config
    ensures { result.elements ≡ elements }
{
    Config {
        elements: u64::from(elements),
        frames,
        steps: 1_000_000,
        turn: 64,
    }
}

/// The text with all changes made.
fn changed(alloc: Global, text: &[u8], changes: &[Change]) -> Result<Vec<u8>, AllocError> {
    let mut made = Vec::from_slice(alloc, text)?;
    for (old, new) in changes {
        let next = with_change(alloc, &made, old, new)?;
        made = next;
    }
    Ok(made)
}

/// Ends the process unless these are the outputs.
fn expect_outputs<R: Abort>(rt: &R, report: &Report<Global>, wanted: &[Option<i64>]) {
    assert_eq!(rt; report.outputs.as_slice().len(), wanted.len());
    for (output, wanted) in report.outputs.as_slice().iter().zip(wanted) {
        let wanted = match wanted {
            Some(number) => Some(Value::Int(*number)),
            None => None,
        };
        assert_eq!(rt; *output, wanted);
    }
}

/// Ends the process unless the report is the row's. It has no cell, and no reader or request for a credit waits.
fn expect_row<R: Abort>(rt: &R, report: &Report<Global>, row: &Row) {
    let end = if row.waiting > 0 {
        End::Starved
    } else {
        End::Rest
    };
    assert_eq!(rt; report.end, end);
    expect_outputs(rt, report, row.outputs);
    assert!(rt; report.cells.is_empty());
    assert_eq!(rt; (report.deferred, report.waiting_credits), (0, 0));
    assert_eq!(rt;
        (report.waiting_frames, report.frames_out),
        (row.waiting, row.out)
    );
}

/// In each list, the elements take turns. While a token is left one of them has it, so as many picks as there are elements make an
/// event at least, and 20,000 picks are enough for each of these runs.
#[test]
fn orders(rt: HostRuntime) -> Result<(), Fail> {
    let alloc = rt.alloc();
    for row in ROWS {
        if row.elements == 0 {
            continue;
        }
        let text = changed(alloc, row.text, row.changes)?;
        let config = config(row.elements, row.frames);
        let first = emulate(alloc, &text, row.inputs, config, Mode::One, &rt, &Open).map_err(
            |_| "a report",
        )?;
        expect_row(&rt, &first, &row);
        for seed in 0..100u64 {
            let picks = picks(alloc, row.elements, 0, 1, seed, 20_000)?;
            let report = emulate_picks(alloc, &text, row.inputs, config, &picks).map_err(
                |_| "a report",
            )?;
            expect_row(&rt, &report, &row);
            assert_eq!(rt; report.events.len(), first.events.len(), "seed {seed}");
        }
    }
    Ok(())
}

/// The order says which of two calls gets a frame that both ask for.
#[test]
fn the_order_chooses(rt: HostRuntime) -> Result<(), Fail> {
    let alloc = rt.alloc();
    let text = changed(alloc, FIRST_CALLED.text, FIRST_CALLED.changes)?;
    let mut starved = 0u64;
    for seed in 0..100u64 {
        let picks = picks(alloc, 1, 0, 1, seed, 20_000)?;
        let report = emulate_picks(alloc, &text, FIRST_CALLED.inputs, config(1, 2), &picks).map_err(
            |_| "a report",
        )?;
        if report.end == End::Starved {
            starved = starved.wrapping_add(1);
            expect_row(&rt, &report, &SECOND_CALLED);
        } else {
            expect_row(&rt, &report, &FIRST_CALLED);
        }
    }
    assert!(rt; 0 < starved && starved < 100, "{starved} starved");
    Ok(())
}

/// A list of one entry makes one event, with the token that the entry chooses.
#[test]
fn follows_the_list(rt: HostRuntime) -> Result<(), Fail> {
    let compiled = compile(rt.alloc(), ADD).map_err(|_| "compiled")?;
    let mut tokens = Vec::new(rt.alloc());
    for seed in 0..3u64 {
        let picks = picks(rt.alloc(), 1, 0, 1, seed, 1)?;
        let report = emulate_object_picks(
            rt.alloc(),
            compiled.object.bytes(),
            [2, 3].as_slice(),
            config(1, 256),
            &picks,
        )
        .map_err(|_| "a report")?;
        assert_eq!(rt; report.end, End::Steps);
        assert_eq!(rt; report.events.len(), 1);
        for (_, token) in &report.events {
            tokens.push(*token)?;
        }
    }
    assert_eq!(rt; tokens.len(), 3);
    assert!(rt; tokens.get(0) != tokens.get(1));
    assert!(rt; tokens.get(1) != tokens.get(2));
    Ok(())
}
