//! What is checked at a node.

ghost use Rattle.std.specs.Prelude.{◌≡◌, ℕ, ◌<◌, ◌+◌, ◌^◌, Bool, length, option_copied};
ghost use Rattle.semantics.specs.Graph as of_graphs;
ghost use Rattle.semantics.specs.WellFormed as of_regions;
ghost use Rattle.graph_check.specs.Causes.{fault_kind, kind_in, crossing_kind};
ghost use Rattle.graph_check.specs.FirstFault as of_faults;
ghost use Rattle.graph_check.specs.declared.faults.CheckFaultKind.TheVariants.{Arity, NoSuchPort};

use crate::causes::{ArityCause, CheckCause, NameOf, RegionCause, Taker};
use crate::names::Named;
use graph::{Block, Name, Node};
use semantics::graph::{Kind, Region, Source};
use std::alloc::Allocator;

/// A fault of that cause, unless the test holds.
pub(crate) fn require(holds: bool, cause: CheckCause) -> Result<(), CheckCause>
    ensures { kind_in result ≡ of_faults.unless holds (fault_kind cause) }
{
    if holds { Ok(()) } else { Err(cause) }
}

/// The node line of that number, if it is one.
fn node_at<'b, 'a, A: Allocator>(block: &'b Block<'a, A>, n: u32) -> Option<&'b Node<'a, A>>
    ensures { option_copied result ≡ of_graphs.node_at block.now.1 n }
{
    let index = n.checked_sub(block.inputs)?;
    block.nodes.get(index as usize)
}

/// Where a node lies; an input lies in the root.
pub(crate) fn region_of<'a, A: Allocator>(block: &Block<'a, A>, n: u32) -> Region
    ensures { result ≡ of_regions.region_of block.now.1 n }
{
    match node_at(block, n) {
        None => Region::Root,
        Some(node) => node.region,
    }
}

fn is_cond(kind: &Kind<Name<'_>>) -> bool
    ensures { result ≡ of_faults.is_cond_kind kind.now }
{
    match kind {
        Kind::Cond => true,
        _ => false,
    }
}

fn is_cond_line<'a, A: Allocator>(node: &Node<'a, A>) -> bool
    ensures { result ≡ of_faults.is_cond_kind node.now.kind }
{
    is_cond(&node.kind)
}

/// Node `k` is a conditional, and earlier than node `n`.
fn is_earlier_cond<'a, A: Allocator>(block: &Block<'a, A>, n: u64, k: u32) -> bool
    ensures { result ≡ of_faults.is_earlier_cond block.now.1 n k }
{
    if u64::from(k) < n {
        match node_at(block, k) {
            None => false,
            Some(node) => is_cond_line(node),
        }
    } else {
        false
    }
}

fn same_region(a: Region, b: Region) -> bool
    ensures { result ≡ of_faults.same_region a b }
{
    match (a, b) {
        (Region::Root, Region::Root) => true,
        (Region::Arm { cond: j, side: s }, Region::Arm { cond: k, side: t }) => j == k && s == t,
        _ => false,
    }
}

/// A node lies in the root, or in an arm of an earlier conditional.
fn is_good_region<'a, A: Allocator>(block: &Block<'a, A>, n: u64, region: Region) -> bool
    ensures { result ≡ of_faults.is_good_region block.now.1 n region }
{
    match region {
        Region::Root => true,
        Region::Arm { cond, .. } => is_earlier_cond(block, n, cond),
    }
}

fn is_arm(region: Region) -> bool
    ensures { result ≡ of_faults.is_arm region }
{
    match region {
        Region::Root => false,
        Region::Arm { .. } => true,
    }
}

/// An enter lies in an arm, and a merge is of an earlier conditional of its own region.
fn fits_region<'a, A: Allocator>(
    block: &Block<'a, A>,
    n: u64,
    region: Region,
    kind: &Kind<Name<'a>>,
) -> bool
    ensures { result ≡ of_faults.fits_region block.now.1 n region kind.now }
{
    match kind {
        Kind::Enter => is_arm(region),
        Kind::Merge { cond } => {
            is_earlier_cond(block, n, *cond) && same_region(region_of(block, *cond), region)
        }
        _ => true,
    }
}

/// Why node `n`, which merges the arms of this conditional, may not lie in this region.
fn merge_cause<'a, A: Allocator>(
    block: &Block<'a, A>,
    n: u64,
    region: Region,
    cond: u32,
) -> RegionCause {
    if is_earlier_cond(block, n, cond) {
        let lies = region_of(block, cond);
        RegionCause::MergeElsewhere { cond, lies, region }
    } else {
        RegionCause::NoConditional { cond }
    }
}

/// Why node `n` may not lie in its region.
fn region_cause<'a, A: Allocator>(block: &Block<'a, A>, n: u64, node: &Node<'a, A>) -> RegionCause {
    if let Region::Arm { cond, .. } = node.region
        && !is_earlier_cond(block, n, cond)
    {
        return RegionCause::NoConditional { cond };
    }
    match &node.kind {
        Kind::Merge { cond } => merge_cause(block, n, node.region, *cond),
        _ => RegionCause::EnterInRoot,
    }
}

/// Node `n` may lie in its region.
fn check_region<'a, A: Allocator>(
    block: &Block<'a, A>,
    n: u64,
    node: &Node<'a, A>,
) -> Result<(), CheckCause>
    ensures { kind_in result ≡ of_faults.region_fault block.now.1 n node.now.region node.now.kind }
{
    if !is_good_region(block, n, node.region) {
        return Err(CheckCause::BadRegion(region_cause(block, n, node)));
    }
    if !fits_region(block, n, node.region, &node.kind) {
        return Err(CheckCause::BadRegion(region_cause(block, n, node)));
    }
    Ok(())
}

/// What a node names.
fn name_of(kind: &Kind<Name<'_>>) -> NameOf {
    match kind {
        Kind::Fetch { .. } | Kind::Store { .. } => NameOf::Array,
        _ => NameOf::Block,
    }
}

/// The array or block that a node names exists.
fn is_named<'a, A: Allocator>(named: &Named<'a, A>, kind: &Kind<Name<'a>>) -> bool
    ensures { result ≡ of_faults.is_named named.now kind.now }
{
    match kind {
        Kind::Fetch { array } | Kind::Store { array } => named.has_array(array),
        Kind::Call { block } | Kind::StrictCall { block } | Kind::Loop { block, .. } => {
            named.has_block(block)
        }
        _ => true,
    }
}

fn takes(shape: Option<(u32, u32)>, n: u64) -> bool
    ensures { result ≡ of_faults.takes shape n }
{
    match shape {
        None => false,
        Some((inputs, _)) => u64::from(inputs) == n,
    }
}

fn gives(shape: Option<(u32, u32)>, n: u64) -> bool
    ensures { result ≡ of_faults.gives shape n }
{
    match shape {
        None => false,
        Some((_, outputs)) => u64::from(outputs) == n,
    }
}

/// A node has as many sources as it takes. A block that is looped has one output more than inputs.
fn has_arity<'a, A: Allocator>(named: &Named<'a, A>, kind: &Kind<Name<'a>>, n: u64) -> bool
    requires { n < 2 ^ 63 }
    ensures { result ≡ of_faults.has_arity named.now kind.now n }
{
    match kind {
        Kind::Apply2 { .. } | Kind::Merge { .. } | Kind::Store { .. } => n == 2,
        Kind::Call { block } | Kind::StrictCall { block } => takes(named.shape_of(block), n),
        Kind::Loop { block, .. } => {
            let shape = named.shape_of(block);
            takes(shape, n) && gives(shape, n + 1)
        }
        _ => n == 1,
    }
}

/// Which number is wrong at a node with `has` sources.
fn arity_cause<'a, A: Allocator>(
    named: &Named<'a, A>,
    kind: &Kind<Name<'a>>,
    has: u64,
) -> ArityCause {
    let shape = match kind {
        Kind::Call { block } | Kind::StrictCall { block } | Kind::Loop { block, .. } => {
            named.shape_of(block)
        }
        _ => None,
    };
    let Some((inputs, outputs)) = shape else {
        return ArityCause::Sources { has };
    };
    let (inputs, outputs) = (u64::from(inputs), u64::from(outputs));
    if has == inputs {
        ArityCause::Looped { inputs, outputs }
    } else {
        ArityCause::Inputs { has, wants: inputs }
    }
}

/// A node takes `n` sources.
fn check_arity<'a, A: Allocator>(
    named: &Named<'a, A>,
    kind: &Kind<Name<'a>>,
    n: u64,
) -> Result<(), CheckCause>
    requires { n < 2 ^ 63 }
    ensures { kind_in result ≡ of_faults.unless (of_faults.has_arity named.now kind.now n) Arity }
{
    if has_arity(named, kind, n) {
        Ok(())
    } else {
        Err(CheckCause::Arity(arity_cause(named, kind, n)))
    }
}

/// The bound of a loop.
fn bound_of(kind: &Kind<Name<'_>>) -> u32 {
    match kind {
        Kind::Loop { bound, .. } => *bound,
        _ => 0,
    }
}

/// The bound of a loop is 2 to 64.
fn is_bounded(kind: &Kind<Name<'_>>) -> bool
    ensures { result ≡ of_faults.is_bounded kind.now }
{
    match kind {
        Kind::Loop { bound, .. } => 2 <= *bound && *bound <= 64,
        _ => true,
    }
}

fn is_port_of(shape: Option<(u32, u32)>, port: u32) -> bool
    ensures { result ≡ of_faults.is_port_of shape port }
{
    match shape {
        None => false,
        Some((_, outputs)) => port < outputs,
    }
}

/// A node of that kind with `n` sources has that output port.
fn kind_has_port<'a, A: Allocator>(
    named: &Named<'a, A>,
    kind: &Kind<Name<'a>>,
    n: u64,
    port: u32,
) -> bool
    ensures { result ≡ of_faults.kind_has_port named.now kind.now n port }
{
    match kind {
        Kind::Cond => false,
        Kind::Call { block } | Kind::StrictCall { block } => {
            is_port_of(named.shape_of(block), port)
        }
        Kind::Loop { .. } => u64::from(port) < n,
        _ => port == 0,
    }
}

fn line_has_port<'a, A: Allocator>(named: &Named<'a, A>, node: &Node<'a, A>, port: u32) -> bool
    ensures { result ≡ of_faults.kind_has_port named.now node.now.kind (length node.now.sources) port }
{
    kind_has_port(named, &node.kind, node.sources.len() as u64, port)
}

/// The source's node has that output port.
fn has_port<'a, A: Allocator>(named: &Named<'a, A>, block: &Block<'a, A>, source: Source) -> bool
    ensures { result ≡ of_faults.has_port named.now (of_graphs.node_at block.now.1 source.node) source.port }
{
    match node_at(block, source.node) {
        None => source.port == 0,
        Some(node) => line_has_port(named, node, source.port),
    }
}

/// How many output ports the source's node has, if that one is none of them.
fn port_count<'a, A: Allocator>(named: &Named<'a, A>, block: &Block<'a, A>, source: Source) -> u32 {
    let node = source.node;
    for port in 0..source.port {
        if !has_port(named, block, Source { node, port }) {
            return port;
        }
    }
    source.port
}

/// The source's node has that output port.
fn check_port<'a, A: Allocator>(
    named: &Named<'a, A>,
    block: &Block<'a, A>,
    source: Source,
) -> Result<(), CheckCause>
    ensures { kind_in result ≡ of_faults.unless (of_faults.has_port named.now (of_graphs.node_at block.now.1 source.node) source.port) NoSuchPort }
{
    if has_port(named, block, source) {
        Ok(())
    } else {
        let ports = port_count(named, block, source);
        Err(CheckCause::NoSuchPort { source, ports })
    }
}

/// A source of node `n`, or of the line of outputs, is an output port of an earlier node that lies in the wanted region.
pub(crate) fn check_source<'a, A: Allocator>(
    named: &Named<'a, A>,
    block: &Block<'a, A>,
    n: u64,
    wanted: Region,
    taker: Taker,
    source: Source,
) -> Result<(), CheckCause>
    ensures { kind_in result ≡ of_faults.source_fault named.now block.now.1 n wanted (crossing_kind taker) source }
{
    require(
        u64::from(source.node) < n,
        CheckCause::SourceNotEarlier(source),
    )?;
    check_port(named, block, source)?;
    let lies = region_of(block, source.node);
    require(
        same_region(lies, wanted),
        taker.crossing(source, lies, wanted),
    )
}

/// The region in which source `i` of a node has to lie.
fn wanted_region<'a, A: Allocator>(
    block: &Block<'a, A>,
    region: Region,
    kind: &Kind<Name<'a>>,
    i: usize,
) -> Region
    ensures { result ≡ of_faults.wanted_region block.now.1 region kind.now i }
{
    match kind {
        Kind::Enter => match region {
            Region::Root => Region::Root,
            Region::Arm { cond, .. } => region_of(block, cond),
        },
        Kind::Merge { cond } => Region::Arm {
            cond: *cond,
            side: i == 0,
        },
        _ => region,
    }
}

/// The sources of a node from left to right.
fn check_sources<'a, A: Allocator>(
    named: &Named<'a, A>,
    block: &Block<'a, A>,
    n: u64,
    region: Region,
    kind: &Kind<Name<'a>>,
    sources: &[Source],
) -> Result<(), CheckCause>
    ensures { kind_in result ≡ of_faults.sources_fault named.now block.now.1 n region kind.now sources.now }
{
    for (i, source) in sources.iter().enumerate() {
        let wanted = wanted_region(block, region, kind, i);
        check_source(named, block, n, wanted, Taker::Node, *source)?;
    }
    Ok(())
}

/// Node `n` of a block.
pub(crate) fn check_node<'a, A: Allocator>(
    named: &Named<'a, A>,
    block: &Block<'a, A>,
    n: u64,
    node: &Node<'a, A>,
) -> Result<(), CheckCause>
    ensures { kind_in result ≡ of_faults.node_fault named.now block.now.1 n node.now }
{
    check_region(block, n, node)?;
    let kind = &node.kind;
    require(is_named(named, kind), CheckCause::NoSuchName(name_of(kind)))?;
    let count = node.sources.len() as u64;
    check_arity(named, kind, count)?;
    require(is_bounded(kind), CheckCause::BadBound(bound_of(kind)))?;
    check_sources(named, block, n, node.region, kind, &node.sources)
}
