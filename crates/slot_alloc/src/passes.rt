//! One pass over the instructions of a block in their order, for 64 choices of arcs at once. It finds the ports of which
//! each arc is chosen or starts at an instruction with such a port. No arc goes back, so all arcs into an instruction except
//! its own are known when it is reached.

ghost use Rattle.std.specs.Prelude.{◌≡◌, ℕ, ◌+◌, ◌<◌, ◌≤◌, ◌^◌, IfOk, length, replicate};
ghost use Rattle.semantics.specs.Plan as of_plans;
ghost use Rattle.slot_alloc.specs.Words as of_words;

use crate::choices::{Choice, mark_of};
use code::{CodeBlock, Instr, Plan};
use semantics::program::{Dest, Mark, Op};
use std::alloc::{AllocError, Allocator};
use tags::token::Port;

/// What is known of the arcs into a port.
#[derive(Clone, Copy)]
pub(crate) struct Flow {
    /// 0 where there is none, and else 1: a word, so that two words are copied at once.
    pub arcs: u64,
    /// The lanes in which each one leads: it is chosen, or starts at an instruction with a port of this kind.
    pub lanes: u64,
}

impl Flow {
    /// With one more arc, which leads in such lanes.
    fn with(self, lanes: u64) -> Flow
        ensures { result ≡ of_words.flow_with self lanes }
    {
        Flow {
            arcs: 1,
            lanes: if self.arcs == 0 {
                lanes
            } else {
                self.lanes & lanes
            },
        }
    }

    /// The lanes in which there is an arc and each one leads.
    pub fn led(self) -> u64
        ensures { result ≡ of_words.led self }
    {
        if self.arcs == 0 { 0 } else { self.lanes }
    }
}

/// The two ports of an instruction.
#[derive(Clone, Copy)]
pub(crate) struct Flows {
    pub left: Flow,
    pub right: Flow,
}

impl Flows {
    /// With one more arc into a port.
    fn with(self, port: Port, lanes: u64) -> Flows
        ensures { result ≡ of_words.flows_with self port lanes }
    {
        match port {
            Port::Left => Flows {
                left: self.left.with(lanes),
                right: self.right,
            },
            Port::Right => Flows {
                left: self.left,
                right: self.right.with(lanes),
            },
        }
    }

    /// The lanes in which the arcs that start at the instruction lead by one of its ports.
    fn some_led(self) -> u64
        ensures { result ≡ of_words.some_led self }
    {
        self.left.led() | self.right.led()
    }
}

/// Enters an arc from the instruction at a place, so far ahead. An arc out of the block changes nothing.
fn enter(flows: &mut [Flows], from: usize, ahead: usize, port: Port, lanes: u64)
    requires { from ≤ length flows.old }
    ensures { flows.new ≡ of_words.enter flows.old (from + ahead) port lanes }
{
    if ahead < flows.len() - from {
        flows[from + ahead] = flows[from + ahead].with(port, lanes);
    }
}

/// Enters the arcs from the instruction at a place to such destinations.
fn enter_each(flows: &mut [Flows], from: usize, lanes: u64, dests: &[Dest])
    requires { from ≤ length flows.old }
    ensures { flows.new ≡ of_words.enter_each flows.old from lanes dests.now }
{
    for dest in dests {
        enter(flows, from, dest.ahead as usize, dest.port, lanes);
    }
}

/// Enters the arcs to a landing of `size` instructions.
fn enter_row(flows: &mut [Flows], from: usize, ahead: u32, lanes: u64, size: u64)
    requires from { from ≤ length flows.old }
    requires few { size < 2 ^ 33 }
    ensures { flows.new ≡ of_words.enter_row flows.old (from + ahead) lanes size }
{
    for k in 0..size {
        enter(flows, from, ahead as usize + k as usize, Port::Left, lanes);
    }
}

/// Enters the arcs to landings that begin at such destinations.
fn enter_landings(flows: &mut [Flows], from: usize, lanes: u64, size: u64, dests: &[Dest])
    requires from { from ≤ length flows.old }
    requires few { size < 2 ^ 33 }
    ensures { flows.new ≡ of_words.enter_landings flows.old from lanes size dests.now }
{
    for dest in dests {
        enter_row(flows, from, dest.ahead, lanes, size);
    }
}

/// How many instructions in a row a link to a block has as its landing.
fn landing<A: Allocator>(plan: &Plan<A>, block: u16) -> u64
    ensures exact { result ≡ of_plans.landing plan.now block }
    ensures few { result < 2 ^ 33 }
{
    match plan.program.blocks.get(block as usize) {
        None => 0,
        Some(linked) if u32::from(block) < plan.plain => u64::from(linked.outputs) + 1,
        Some(linked) => u64::from(linked.inputs) + 3,
    }
}

/// Enters the arcs of an instruction's first destinations.
fn enter_firsts<A: Allocator>(
    plan: &Plan<A>,
    flows: &mut [Flows],
    from: usize,
    lanes: u64,
    instr: &Instr<A>,
)
    requires { from ≤ length flows.old }
    ensures { flows.new ≡ of_words.enter_firsts plan.now flows.old from lanes instr.now.firsts instr.now.op }
{
    match instr.op {
        Op::Link { block } => enter_landings(
            flows,
            from,
            lanes,
            landing(plan, block),
            &instr.firsts,
        ),
        _ => enter_each(flows, from, lanes, &instr.firsts),
    }
}

/// The ports of an instruction with its arcs to such destinations that lead back to itself.
fn own_each(flows: Flows, lanes: u64, dests: &[Dest]) -> Flows
    ensures { result ≡ of_words.own_each flows lanes dests.now }
{
    let mut own = flows;
    for dest in dests {
        if dest.ahead == 0 {
            own = own.with(dest.port, lanes);
        }
    }
    own
}

/// The ports of an instruction with its arcs to such landings that lead back to itself.
fn own_landings(flows: Flows, lanes: u64, size: u64, dests: &[Dest]) -> Flows
    ensures { result ≡ of_words.own_landings flows lanes size dests.now }
{
    let mut own = flows;
    for dest in dests {
        if dest.ahead == 0 && size > 0 {
            own = own.with(Port::Left, lanes);
        }
    }
    own
}

/// The ports of an instruction with its arcs of first destinations that lead back to itself.
fn own_firsts<A: Allocator>(plan: &Plan<A>, flows: Flows, lanes: u64, instr: &Instr<A>) -> Flows
    ensures { result ≡ of_words.own_firsts plan.now flows lanes instr.now.firsts instr.now.op }
{
    match instr.op {
        Op::Link { block } => own_landings(flows, lanes, landing(plan, block), &instr.firsts),
        _ => own_each(flows, lanes, &instr.firsts),
    }
}

/// The ports of an instruction with its arcs that lead back to itself: these lead only if they are chosen, or if the
/// instruction has a port of which each arc leads without them. The compiler makes no such arcs.
fn own_instr<A: Allocator>(
    plan: &Plan<A>,
    flows: Flows,
    firsts: u64,
    seconds: u64,
    instr: &Instr<A>,
) -> Flows
    ensures { result ≡ of_words.own_instr plan.now flows firsts seconds instr.now }
{
    own_each(
        own_firsts(plan, flows, firsts, instr),
        seconds,
        &instr.seconds,
    )
}

/// Enters the arcs of the instruction at a place, whose first and second destinations are chosen in such lanes.
fn enter_instr<A: Allocator>(
    plan: &Plan<A>,
    flows: &mut [Flows],
    from: usize,
    firsts: u64,
    seconds: u64,
    instr: &Instr<A>,
)
    requires { from < length flows.old }
    ensures { flows.new ≡ of_words.enter_instr plan.now flows.old from firsts seconds instr.now }
{
    let led = own_instr(plan, flows[from], firsts, seconds, instr).some_led();
    enter_firsts(plan, flows, from, led | firsts, instr);
    enter_each(flows, from, led | seconds, &instr.seconds);
}

/// The pass over the instructions of a block with such marks: the ports of each instruction.
pub(crate) fn pass<A: Allocator>(
    alloc: A,
    plan: &Plan<A>,
    block: &CodeBlock<A>,
    marks: &[Mark],
    choice: Choice,
    known: &[Mark],
) -> Result<Vec<Flows, A>, AllocError>
    ensures all { IfOk result (λ v. length v.items ≡ length block.now.instrs) }
    ensures exact { IfOk result (λ v. v.items ≡ of_words.pass plan.now choice known.now marks.now (replicate (length block.now.instrs) of_words.bare)
        0 block.now.instrs) }
{
    const BARE: Flow = Flow { arcs: 0, lanes: 0 };
    const NONE: Flows = Flows {
        left: BARE,
        right: BARE,
    };
    let mut flows = vec![in alloc; NONE; block.instrs.len()]?;
    for (place, instr) in block.instrs.iter().enumerate() {
        let mark = mark_of(marks, place);
        let firsts = choice.firsts(known, instr, mark);
        let seconds = choice.seconds(known, instr, mark);
        enter_instr(plan, &mut flows, place, firsts, seconds, instr);
    }
    Ok(flows)
}
