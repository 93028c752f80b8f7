//! Reports of runs and of meanings, as texts.

ghost use Rattle.std.specs.Prelude.{◌<◌};

use arrayvec::ArrayVec;
use graph_file::read;
use object_view::Object;
use oracle::{Full, MeanEnd, MeanReport};
use report_text::{write_meaning, write_object_report, write_report};
use schedule::report::Report;
use semantics::report::End;
use semantics::version::Version;
use std::alloc::{AllocError, Global};
use std::test::Fail;
use tags::value::{FaultKind, NodeNumber, Origin, Value};
use test_inputs::objects::STORES;
use test_inputs::rationed::Rationed;

/// Memory that counts how often it is asked.
type Heap<'h> = &'h Rationed<Global>;

/// A fault that says where it was made.
fn fault_at(kind: FaultKind, block: u8, node: u16) -> Value
    requires { node < 1024 }
{
    Value::Fault {
        kind,
        origin: Origin::At {
            block,
            node: NodeNumber::new(node),
        },
    }
}

/// A fault that does not say where it was made.
fn fault(kind: FaultKind) -> Value {
    Value::Fault {
        kind,
        origin: Origin::Untold,
    }
}

/// A graph with two arrays, of three cells and of two.
const TWO_ARRAYS: &[u8] = b"etsgraph 2\narray x 3\narray yy 2\nmain m\n";

const COUNTS: &[u8] = b"output 0 -7
output 1 -
output 2 fault zero
output 3 fault range at 5 9
cell x 2 40
cell yy 0 fault range
cell yy 1 fault zero at 255 1023
cell  41
deferred 1
waiting 2 3
frames 4
";

/// A report with outputs and cells of all forms, and with this end.
fn report_of<'h>(heap: Heap<'h>, end: End) -> Result<Report<Heap<'h>>, AllocError> {
    let mut outputs = ArrayVec::new();
    for output in [
        Some(Value::Int(-7)),
        None,
        Some(fault(FaultKind::Zero)),
        Some(fault_at(FaultKind::Range, 5, 9)),
    ] {
        let _ = outputs.try_push(output);
    }
    let mut cells = Vec::new(heap);
    cells.push((2, Value::Int(40)))?;
    cells.push((3, fault(FaultKind::Range)))?;
    cells.push((4, fault_at(FaultKind::Zero, 255, 1023)))?;
    cells.push((5, Value::Int(41)))?;
    Ok(Report {
        end,
        outputs,
        cells,
        deferred: 1,
        waiting_frames: 2,
        waiting_credits: 3,
        frames_out: 4,
        events: Vec::new(heap),
    })
}

#[test]
fn writes_reports(rt: HostRuntime) -> Result<(), Fail> {
    let heap = Rationed::new(rt.alloc(), 0);
    let graph = read(&heap, TWO_ARRAYS)?;
    let object = Object::open(STORES).expect(&rt, "it opens");
    for (end, last) in [
        (End::Rest, b"end Rest\n".as_slice()),
        (End::Starved, b"end Starved\n"),
        (End::Clash { array: 1, index: 1 }, b"end Clash yy 1\n"),
        (End::Clash { array: 2, index: 0 }, b"end Clash  0\n"),
        (End::Steps, b"end Steps\n"),
        (End::Stuck { rule: 12 }, b"end Stuck 12\n"),
        (End::Memory, b"end Memory\n"),
        (End::Stop, b"end Stop\n"),
    ] {
        let report = report_of(&heap, end)?;
        let left = heap.left();
        let mut text = Vec::new(rt.alloc());
        write_report(&mut text, &graph, &report)?;
        assert!(rt; text.strip_prefix(COUNTS) == Some(last));
        write_object_report(&mut text, &object, &report)?;
        assert_eq!(rt; heap.left(), left);
    }
    Ok(())
}

#[test]
fn writes_meanings(rt: HostRuntime) -> Result<(), Fail> {
    let heap = Rationed::new(rt.alloc(), 0);
    let graph = read(&heap, TWO_ARRAYS)?;
    for (end, wanted) in [
        (
            MeanEnd::Rest,
            b"output 0 -\noutput 1 8\ncell yy 1 -9\nend Rest\n".as_slice(),
        ),
        (
            MeanEnd::Clash { array: 0, index: 2 },
            b"output 0 -\noutput 1 8\ncell yy 1 -9\nend Clash x 2\n",
        ),
        (
            MeanEnd::Steps,
            b"output 0 -\noutput 1 8\ncell yy 1 -9\nend Steps\n",
        ),
    ] {
        let mut outputs = Vec::new(&heap);
        outputs.push(None)?;
        outputs.push(Some(Value::Int(8)))?;
        let mut cells = Vec::new(&heap);
        cells.push(Full {
            array: 1,
            index: 1,
            value: Value::Int(-9),
        })?;
        let report = MeanReport {
            end,
            outputs,
            cells,
        };
        let left = heap.left();
        let mut text = Vec::new(rt.alloc());
        write_meaning(&mut text, &graph, &report)?;
        assert_eq!(rt; text.as_slice(), wanted);
        assert_eq!(rt; heap.left(), left);
    }
    Ok(())
}
