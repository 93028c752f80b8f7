//! Why a graph is refused: its first fault, and what was known where that was found.

ghost use Rattle.std.specs.Prelude.{◌≡◌};
ghost use Rattle.graph_check.specs.Causes.{crossing_kind, fault_kind, fault_of};

use crate::faults::{CheckFault, CheckFaultKind};
use semantics::graph::{Region, Source};

/// What a name is of.
#[derive(Clone, Copy, Debug)]
pub enum NameOf {
    Array,
    /// A block that a node names.
    Block,
    /// The block that is run.
    Main,
}

/// Which number is wrong.
#[derive(Clone, Copy, Debug)]
pub enum ArityCause {
    /// The line of outputs has this many sources, and the block has another number of outputs.
    Outputs { has: u64, wants: u64 },
    /// A node has this many sources, and what it does takes another number.
    Sources { has: u64 },
    /// A node has this many sources, and the block that it names has another number of inputs.
    Inputs { has: u64, wants: u64 },
    /// The block that a loop names has not one output more than inputs.
    Looped { inputs: u64, outputs: u64 },
}

/// Why a node may not lie in its region.
#[derive(Clone, Copy, Debug)]
pub enum RegionCause {
    /// The region is an arm of this node, or the node merges the arms of this one, which is not an earlier conditional.
    NoConditional {
        cond: u32,
    },
    EnterInRoot,
    /// The node merges the arms of this conditional, and lies in this region, while the conditional lies in another one.
    MergeElsewhere {
        cond: u32,
        lies: Region,
        region: Region,
    },
}

/// What is wrong with a graph first: a kind of fault, with what was known where it was found.
#[derive(Clone, Copy, Debug)]
pub enum CheckCause {
    /// The array or the block of this place has the name of one before it.
    SameName {
        place: u64,
    },
    NoSuchName(NameOf),
    Arity(ArityCause),
    SourceNotEarlier(Source),
    /// The source's node has this many output ports.
    NoSuchPort {
        source: Source,
        ports: u32,
    },
    BadRegion(RegionCause),
    /// The source's node lies in the first of these regions, and has to lie in the second.
    CrossesRegion {
        source: Source,
        lies: Region,
        wanted: Region,
    },
    BadBound(u32),
    /// The source's node lies in this region.
    OutNotRoot {
        source: Source,
        lies: Region,
    },
    NoInput,
    NoOutput,
    Memory,
}

impl CheckCause {
    /// The kind of the fault.
    fn kind(self) -> CheckFaultKind
        ensures { result ≡ fault_kind self }
    {
        match self {
            CheckCause::SameName { .. } => CheckFaultKind::SameName,
            CheckCause::NoSuchName(_) => CheckFaultKind::NoSuchName,
            CheckCause::Arity(_) => CheckFaultKind::Arity,
            CheckCause::SourceNotEarlier(_) => CheckFaultKind::SourceNotEarlier,
            CheckCause::NoSuchPort { .. } => CheckFaultKind::NoSuchPort,
            CheckCause::BadRegion(_) => CheckFaultKind::BadRegion,
            CheckCause::CrossesRegion { .. } => CheckFaultKind::CrossesRegion,
            CheckCause::BadBound(_) => CheckFaultKind::BadBound,
            CheckCause::OutNotRoot { .. } => CheckFaultKind::OutNotRoot,
            CheckCause::NoInput => CheckFaultKind::NoInput,
            CheckCause::NoOutput => CheckFaultKind::NoOutput,
            CheckCause::Memory => CheckFaultKind::Memory,
        }
    }
}

/// What takes a source: a node, or the line of outputs.
#[derive(Clone, Copy, Debug)]
pub(crate) enum Taker {
    Node,
    Outputs,
}

impl Taker {
    /// The cause for a source whose node lies in another region than the wanted one.
    pub(crate) fn crossing(self, source: Source, lies: Region, wanted: Region) -> CheckCause
        ensures { fault_kind result ≡ crossing_kind self }
    {
        match self {
            Taker::Node => CheckCause::CrossesRegion {
                source,
                lies,
                wanted,
            },
            Taker::Outputs => CheckCause::OutNotRoot { source, lies },
        }
    }
}

/// Why a graph is refused. Its block and its node are those of the fault.
#[derive(Clone, Copy, Debug)]
pub struct CheckRefusal {
    pub cause: CheckCause,
    pub block: Option<u64>,
    pub node: Option<u64>,
}

impl CheckRefusal {
    /// What is returned where a growth was refused.
    pub(crate) const MEMORY: CheckRefusal = CheckRefusal {
        cause: CheckCause::Memory,
        block: None,
        node: None,
    };

    /// The fault.
    pub fn fault(self) -> CheckFault
        ensures { result ≡ fault_of self }
    {
        CheckFault {
            kind: self.cause.kind(),
            block: self.block,
            node: self.node,
        }
    }
}
