//! The faults of a graph.

use thiserror::Error;

/// What is wrong with a graph.
#[derive(Clone, Copy, Debug, PartialEq, Eq, Error)]
pub enum CheckFaultKind {
    /// Two arrays or two blocks have one name (an array and a block may).
    #[error("two arrays or two blocks have one name")]
    SameName,
    /// An array or a block that is named, or the block to run, does not exist.
    #[error("no array or block has that name")]
    NoSuchName,
    /// A wrong number of sources, or a block that is looped does not have one output more than inputs.
    #[error("a wrong number of sources or outputs")]
    Arity,
    /// A source's node is not earlier.
    #[error("a source is not earlier")]
    SourceNotEarlier,
    /// A source's node has no such output port.
    #[error("a source has no such output port")]
    NoSuchPort,
    /// An arm of a node that is not an earlier conditional, an enter in the root, or a merge of a node that is not an
    /// earlier conditional of the merge's own region.
    #[error("a region is not that of an earlier conditional")]
    BadRegion,
    /// A source does not lie in the region in which its node takes its sources.
    #[error("a source lies in another region")]
    CrossesRegion,
    /// The bound of a loop is not 2 to 64.
    #[error("a bound is not 2 to 64")]
    BadBound,
    /// A source of an output does not lie in the root.
    #[error("an output does not lie in the root")]
    OutNotRoot,
    /// A block has no input.
    #[error("a block has no input")]
    NoInput,
    /// A block has no output.
    #[error("a block has no output")]
    NoOutput,
    /// A growth was refused.
    #[error("a growth was refused")]
    Memory,
}

/// The first fault of a graph, and where it is.
#[derive(Clone, Copy, Debug, PartialEq, Eq, Error)]
#[error("{kind} (block {block:?}, node {node:?})")]
pub struct CheckFault {
    pub kind: CheckFaultKind,
    /// The place of the block, where the fault is one of a block. Of two blocks of one name it is the second.
    pub block: Option<u64>,
    /// The number of the node, inputs counted, where the fault is one of a node. The line of outputs has the number of
    /// nodes as its node.
    pub node: Option<u64>,
}
