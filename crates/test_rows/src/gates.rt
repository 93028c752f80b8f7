//! Gates: what each element asks in its own thread, and how runs are stopped.

use driver::emulation::emulate;
use driver::fault::Fault;
use mode::Mode;
use rounds::{Gate, Open};
use schedule::config::Config;
use schedule::report::Report;
use semantics::report::End;
use std::alloc::{Allocator, Global};
use std::process::Abort;
use std::sync::Wait;
use std::sync::atomic::{AtomicBool, AtomicU64, Ordering};
use std::test::Fail;
use std::thread::Threads;
use tags::value::Value;
use test_inputs::graph_texts::{ADD, SUM_LOOP};
use test_inputs::rationed::{Rationed, is_next_refused};

const CLASHES: &[u8] =
    b"etsgraph 1\narray A 2\nblock m 2 4\n- lit 0 0.0\n- lit 1 0.0\n- store A 2.0 0.0\n- store A 2.0 1.0\n- store A 3.0 0.0\n- store A 3.0 1.0\nout 4.0 5.0 6.0 7.0\nend\nmain m\n";

fn config(elements: u64, turn: u64) -> Config {
    Config {
        elements,
        frames: 2,
        steps: 1_000_000,
        turn,
    }
}

/// A gate at which two elements wait for each other.
#[derive(Drop)]
struct Meeting {
    came: [AtomicBool; 2],
    saw: [AtomicBool; 2],
}

impl Gate for Meeting {
    ghost use Rattle.std.specs.Prelude.{false};

    ghost may_stop = { false };

    fn enter(&self, element: u32) {
        let here = (element % 2) as usize;
        let there = 1 - here;
        self.came[here].store(true, Ordering::SeqCst);
        for _ in 0..1_000_000_000u64 {
            if self.came[there].load(Ordering::SeqCst) {
                self.saw[here].store(true, Ordering::SeqCst);
                return;
            }
        }
    }
}

/// The modes whose elements are threads.
const MODES: [Mode; 2] = [Mode::Rounds, Mode::Free];

/// The number up to which a run sums that is made again and again, and the sum.
const LAST: i64 = 20;

const SUM: i64 = 210;

/// A graph, its inputs, and how it is run on them.
#[derive(Clone, Copy)]
struct Run<'a> {
    text: &'a [u8],
    inputs: &'a [i64],
    config: Config,
    mode: Mode,
}

/// The report of a run at this gate.
fn report_of<R: Threads + Wait + Sync, A: Allocator + Clone + Send + Sync, G: Gate + Sync>(
    rt: &R,
    alloc: A,
    run: Run<'_>,
    gate: &G,
) -> Option<Report<A>> {
    let Run {
        text,
        inputs,
        config,
        mode,
    } = run;
    emulate(alloc, text, inputs, config, mode, rt, gate).ok()
}

/// On one thread the first element would wait for ever.
#[test]
fn two_elements_meet(rt: HostRuntime) -> Result<(), Fail> {
    for mode in MODES {
        let gate = Meeting {
            came: [AtomicBool::new(false), AtomicBool::new(false)],
            saw: [AtomicBool::new(false), AtomicBool::new(false)],
        };
        let run = Run {
            text: ADD,
            inputs: &[2, 3],
            config: config(2, 64),
            mode,
        };
        let report = report_of(&rt, rt.alloc(), run, &gate).ok_or("a report")?;
        assert_eq!(rt; report.end, End::Rest);
        assert!(rt; gate.saw[0].load(Ordering::SeqCst) && gate.saw[1].load(Ordering::SeqCst));
    }
    Ok(())
}

/// Counts how often it is entered, and lets `left` more blocks begin. Once it has let none begin, `left` is more than it ever was.
#[derive(Drop)]
struct Stopper {
    turns: AtomicU64,
    left: AtomicU64,
    /// The sum of the numbers of blocks that were reported to it.
    blocks: AtomicU64,
}

impl Stopper {
    fn after(count: u64) -> Stopper {
        Stopper {
            turns: AtomicU64::new(0),
            left: AtomicU64::new(count),
            blocks: AtomicU64::new(0),
        }
    }
}

impl Gate for Stopper {
    ghost use Rattle.std.specs.Prelude.{true};

    ghost may_stop = { true };

    fn enter(&self, _element: u32) {
        self.turns.fetch_add(1, Ordering::SeqCst);
    }

    fn go_on(&self, _element: u32, blocks: u64) -> bool {
        self.blocks.fetch_add(blocks, Ordering::SeqCst);
        self.left.fetch_sub(1, Ordering::SeqCst) != 0
    }
}

/// With turns of one event, the gate is asked before each event and given how many there were. A free element enters once.
#[test]
fn each_turn_asks(rt: HostRuntime) -> Result<(), Fail> {
    for mode in MODES {
        let gate = Stopper::after(1_000_000);
        let run = Run {
            text: ADD,
            inputs: &[2, 3],
            config: config(1, 1),
            mode,
        };
        let report = report_of(&rt, rt.alloc(), run, &gate).ok_or("a report")?;
        assert_eq!(rt; report.end, End::Rest);
        let events = report.events.len() as u64;
        assert_eq!(rt; events, 12);
        let turns = gate.turns.load(Ordering::SeqCst);
        let is_right = if mode == Mode::Free {
            turns == 1
        } else {
            events <= turns
        };
        assert!(rt; is_right);
        assert_eq!(rt; gate.blocks.load(Ordering::SeqCst), 66);
    }
    Ok(())
}

/// Whether these are the outputs of a run that was cut off: the sum, or none yet.
fn is_none_or_sum(outputs: &[Option<Value>]) -> bool {
    outputs == [None].as_slice() || outputs == [Some(Value::Int(SUM))].as_slice()
}

/// Stops a run at question number `count`, if the run gets that far. Says whether the run came to rest.
fn rests_after<R: Abort + Threads + Wait + Sync>(
    rt: &R,
    alloc: Global,
    mode: Mode,
    count: u64,
) -> Result<bool, Fail> {
    let gate = Stopper::after(count);
    let run = Run {
        text: SUM_LOOP,
        inputs: &[LAST],
        config: config(2, 4),
        mode,
    };
    let report = report_of(rt, alloc, run, &gate).ok_or("a report")?;
    let was_stopped = gate.left.load(Ordering::SeqCst) > count;
    assert_eq!(rt; was_stopped, report.end == End::Stop, "{count}");
    if report.end == End::Rest {
        assert!(rt; report.outputs.as_slice() == [Some(Value::Int(SUM))].as_slice());
        return Ok(true);
    }
    assert_eq!(rt; report.end, End::Stop, "{count}");
    assert!(rt; is_none_or_sum(report.outputs.as_slice()), "{count}");
    if count == 0 {
        assert!(rt; report.outputs.as_slice() == [None].as_slice());
        assert_eq!(rt; report.events.len(), 0);
    }
    Ok(false)
}

/// Every run ends stopped or at rest. The first one has no output, and one run comes to rest after others were stopped.
fn stops_at_each_question<R: Abort + Threads + Wait + Sync>(
    rt: &R,
    alloc: Global,
    mode: Mode,
) -> Result<(), Fail> {
    for count in 0..10_000u64 {
        if rests_after(rt, alloc, mode, count)? {
            assert!(rt; count > 0);
            return Ok(());
        }
    }
    assert!(rt; false, "no run came to rest");
    Ok(())
}

#[test]
fn stopped_at_each_question_in_rounds(rt: HostRuntime) -> Result<(), Fail> {
    stops_at_each_question(&rt, rt.alloc(), Mode::Rounds)
}

#[test]
fn stopped_at_each_question_free(rt: HostRuntime) -> Result<(), Fail> {
    stops_at_each_question(&rt, rt.alloc(), Mode::Free)
}

/// Both elements meet a second store in one round. The end names the element with the lower number.
#[test]
fn the_first_element_names_the_end(rt: HostRuntime) -> Result<(), Fail> {
    let report = emulate(
        rt.alloc(),
        CLASHES,
        [5, 6].as_slice(),
        config(2, 65_536),
        Mode::Rounds,
        &rt,
        &Open,
    )
    .map_err(|_| "a report")?;
    assert_eq!(rt; report.end, End::Clash { array: 0, index: 0 });
    Ok(())
}

/// The end of a run in threads whose memory may run out.
#[derive(Clone, Copy, Debug, PartialEq, Eq)]
enum Ended {
    /// A report has this end and this first output.
    Reported(End, Option<Value>),
    /// There is no report, for lack of memory.
    Refused,
    /// There is no report, for another reason, or it has no output.
    Otherwise,
}

fn with_ration<R: Threads + Wait + Sync>(rt: &R, heap: &Rationed<Global>, mode: Mode) -> Ended {
    let inputs = [LAST];
    match emulate(
        heap,
        SUM_LOOP,
        inputs.as_slice(),
        config(2, 64),
        mode,
        rt,
        &Open,
    ) {
        Ok(report) => match report.outputs.as_slice().first() {
            Some(output) => Ended::Reported(report.end, *output),
            None => Ended::Otherwise,
        },
        Err(Fault::Memory) => Ended::Refused,
        Err(_fault) => Ended::Otherwise,
    }
}

/// A growth is refused in each run but the last, and each says so: in place of its report, or by the report's end.
#[test]
fn each_growth_refused(rt: HostRuntime) -> Result<(), Fail> {
    let sum = Some(Value::Int(SUM));
    for mode in MODES {
        let mut before = 0u64;
        let mut within = 0u64;
        let mut whole = false;
        for at in 1..5000u64 {
            let heap = Rationed::new(rt.alloc(), at);
            let ended = with_ration(&rt, &heap, mode);
            if is_next_refused(&heap) {
                assert_eq!(rt; ended, Ended::Reported(End::Rest, sum), "{at}");
                whole = true;
                break;
            }
            if ended == Ended::Refused {
                before = before.wrapping_add(1);
            } else {
                let is_reported = ended == Ended::Reported(End::Memory, None)
                    || ended == Ended::Reported(End::Memory, sum);
                assert!(rt; is_reported, "{at}: {ended:?}");
                within = within.wrapping_add(1);
            }
        }
        assert!(rt; whole && before > 0 && within > 0);
    }
    Ok(())
}
