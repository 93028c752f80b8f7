//! The values of a report as C has them.

ghost use Rattle.std.specs.Prelude.{◌≡◌, IfOk, map};
ghost use Rattle.ets_core.specs.Values.{address, address_of, back_of, carried, cell_of, end_of, event_of, port_number, report_of, stored_in, value_of, word_number};

use schedule::report::Report;
use semantics::report::End;
use std::alloc::{AllocError, Allocator, Global};
use tags::token::{Cont, Port, To, Token, Word};
use tags::value::{FaultKind, Value};

/// A value, or that there is none.
#[repr(C)]
#[derive(Clone, Copy, Debug)]
pub struct EtsValue {
    /// 0 none, 1 an integer, 2 a division by zero, 3 an index outside its array.
    pub tag: u32,
    /// Where a fault was made: 0 where that is not recorded, else one more than 1,024 times the block and the node.
    pub origin: u32,
    pub integer: i64,
}

/// A full cell.
#[repr(C)]
#[derive(Clone, Copy, Debug)]
pub struct EtsCell {
    /// Its number over all arrays.
    pub cell: u32,
    /// 0.
    pub reserved: u32,
    pub value: EtsValue,
}

/// Where something goes.
#[repr(C)]
#[derive(Clone, Copy, Debug)]
pub struct EtsAddress {
    /// 0 an instruction, 1 a fetch, 2 a store, 3 a request for a frame, 4 the release of a frame, 5 an output, 6 nothing.
    pub kind: u32,
    pub frame: u32,
    /// The instruction, the cell, or the output's port.
    pub at: u32,
    /// Of an instruction: 0 left, 1 right.
    pub port: u32,
}

/// An event: the element, and the token that it took.
#[repr(C)]
#[derive(Clone, Copy, Debug)]
pub struct EtsEvent {
    pub element: u32,
    /// What the token carries: 0 a value, 1 a frame, 2 a continuation.
    pub word: u32,
    pub to: EtsAddress,
    /// The frame or the continuation that it carries.
    pub back: EtsAddress,
    /// What a store stores.
    pub stored: EtsValue,
    pub value: EtsValue,
}

/// How a run ended, what waits, and how many outputs, full cells and listed events there are.
#[repr(C)]
#[derive(Clone, Copy, Debug)]
pub struct EtsReport {
    /// 0 at rest, 1 starved, 2 a clash, 3 out of steps, 4 stuck, 5 out of memory, 6 stopped.
    pub end: u32,
    /// The array of a clash.
    pub array: u32,
    /// The index of a clash there, or the rule of a stuck run.
    pub index: u32,
    /// 0.
    pub reserved: u32,
    pub outputs: usize,
    pub cells: usize,
    pub events: usize,
    /// How many readers wait in cells.
    pub deferred: u64,
    pub waiting_frames: u64,
    pub waiting_credits: u64,
    /// How many frames are out.
    pub frames_out: u64,
}

pub(crate) fn value_of(value: Option<Value>) -> EtsValue
    ensures { result ≡ value_of value }
{
    match value {
        None => EtsValue {
            tag: 0,
            origin: 0,
            integer: 0,
        },
        Some(Value::Int(integer)) => EtsValue {
            tag: 1,
            origin: 0,
            integer,
        },
        Some(Value::Fault { kind, origin }) => EtsValue {
            tag: match kind {
                FaultKind::Zero => 2,
                FaultKind::Range => 3,
            },
            origin: origin.code(),
            integer: 0,
        },
    }
}

fn cell_of(cell: &(u32, Value)) -> EtsCell
    ensures { result ≡ cell_of cell.now }
{
    let (number, value) = *cell;
    EtsCell {
        cell: number,
        reserved: 0,
        value: value_of(Some(value)),
    }
}

fn port_number(port: Port) -> u32
    ensures { result ≡ port_number port }
{
    match port {
        Port::Left => 0,
        Port::Right => 1,
    }
}

/// The address of this kind.
fn address(kind: u32, frame: u32, at: u32, port: u32) -> EtsAddress
    ensures { result ≡ address kind frame at port }
{
    EtsAddress {
        kind,
        frame,
        at,
        port,
    }
}

fn address_of(to: &To) -> EtsAddress
    ensures { result ≡ address_of to.now }
{
    match *to {
        To::Instr { frame, ip, port } => address(0, frame, ip, port_number(port)),
        To::Fetch { cell } => address(1, 0, cell, 0),
        To::Store { cell, value: _ } => address(2, 0, cell, 0),
        To::Manager => address(3, 0, 0, 0),
        To::Release { frame } => address(4, frame, 0, 0),
        To::Host { port } => address(5, 0, port, 0),
    }
}

fn back_of(word: &Word) -> EtsAddress
    ensures { result ≡ back_of word.now }
{
    match *word {
        Word::Val(_) => address(6, 0, 0, 0),
        Word::Frame(frame) => address(4, frame, 0, 0),
        Word::Back(Cont::Frame { frame, ip, port }) => address(0, frame, ip, port_number(port)),
        Word::Back(Cont::Host { port }) => address(5, 0, port, 0),
    }
}

fn word_number(word: &Word) -> u32
    ensures { result ≡ word_number word.now }
{
    match *word {
        Word::Val(_) => 0,
        Word::Frame(_) => 1,
        Word::Back(_) => 2,
    }
}

fn stored_in(to: &To) -> Option<Value>
    ensures { result ≡ stored_in to.now }
{
    match *to {
        To::Store { cell: _, value } => Some(value),
        _ => None,
    }
}

fn carried(word: &Word) -> Option<Value>
    ensures { result ≡ carried word.now }
{
    match *word {
        Word::Val(value) => Some(value),
        _ => None,
    }
}

fn event_of(event: &(u32, Token)) -> EtsEvent
    ensures { result ≡ event_of event.now }
{
    let (element, token) = *event;
    EtsEvent {
        element,
        word: word_number(&token.word),
        to: address_of(&token.to),
        back: back_of(&token.word),
        stored: value_of(stored_in(&token.to)),
        value: value_of(carried(&token.word)),
    }
}

/// The end of a run: its number, and the array and the index of a clash, or the rule.
fn end_of(end: End) -> (u32, u32, u32)
    ensures { result ≡ end_of end }
{
    match end {
        End::Rest => (0, 0, 0),
        End::Starved => (1, 0, 0),
        End::Clash { array, index } => (2, u32::from(array), index),
        End::Steps => (3, 0, 0),
        End::Stuck { rule } => (4, 0, u32::from(rule)),
        End::Memory => (5, 0, 0),
        End::Stop => (6, 0, 0),
    }
}

/// What is said of the report in numbers.
pub(crate) fn report_of<A: Allocator>(report: &Report<A>) -> EtsReport
    ensures { result ≡ report_of report.now }
{
    let (end, array, index) = end_of(report.end);
    EtsReport {
        end,
        array,
        index,
        reserved: 0,
        outputs: report.outputs.as_slice().len(),
        cells: report.cells.len(),
        events: report.events.len(),
        deferred: report.deferred,
        waiting_frames: report.waiting_frames,
        waiting_credits: report.waiting_credits,
        frames_out: report.frames_out,
    }
}

/// The outputs by their ports.
pub(crate) fn values_of(
    alloc: Global,
    outputs: &[Option<Value>],
) -> Result<Vec<EtsValue>, AllocError>
    ensures { IfOk result (λ v. v.items ≡ map value_of outputs.now) }
{
    let mut values = Vec::with_capacity(alloc, outputs.len())?;
    for output in outputs {
        values.push(value_of(*output))?;
    }
    Ok(values)
}

/// The full cells.
pub(crate) fn cells_of(alloc: Global, cells: &[(u32, Value)]) -> Result<Vec<EtsCell>, AllocError>
    ensures { IfOk result (λ v. v.items ≡ map cell_of cells.now) }
{
    let mut full = Vec::with_capacity(alloc, cells.len())?;
    for cell in cells {
        full.push(cell_of(cell))?;
    }
    Ok(full)
}

/// The events in their order.
pub(crate) fn events_of(alloc: Global, events: &[(u32, Token)]) -> Result<Vec<EtsEvent>, AllocError>
    ensures { IfOk result (λ v. v.items ≡ map event_of events.now) }
{
    let mut listed = Vec::with_capacity(alloc, events.len())?;
    for event in events {
        listed.push(event_of(event))?;
    }
    Ok(listed)
}
