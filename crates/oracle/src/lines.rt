//! What is at a node's number, with names looked up.

ghost use Rattle.std.specs.Prelude.{◌≡◌, ◌≤◌, ◌+◌, Some, slice_get, option_copied};
ghost use Rattle.semantics.specs.Versions.{version_number};
ghost use Rattle.oracle.specs.Lines as Lines;

use graph::{Array, Block, Graph, Name, Node};
use graph_check::Checked;
use semantics::graph::{Kind, Region};
use semantics::version::Version;
use std::alloc::Allocator;
use tags::value::{NodeNumber, Origin};

/// What is at a node's number in a block.
#[derive(Debug, Drop)]
pub enum Line {
    Input,
    Node {
        region: Region,
        kind: Kind<usize>,
        arity: usize,
    },
    Nothing,
}

/// The kind with the places of its array or block for their names.
#[inline(always)]
fn resolved<'a, A: Allocator>(checked: &Checked<'a, A>, kind: &Kind<Name<'a>>) -> Kind<usize>
    ensures { result ≡ Lines.resolved_in checked.now kind.now }
{
    match kind {
        Kind::Lit { value } => Kind::Lit { value: *value },
        Kind::Apply1 { op } => Kind::Apply1 { op: *op },
        Kind::Apply2 { op } => Kind::Apply2 { op: *op },
        Kind::Cond => Kind::Cond,
        Kind::Enter => Kind::Enter,
        Kind::Merge { cond } => Kind::Merge { cond: *cond },
        Kind::Fetch { array } => Kind::Fetch {
            array: checked.place_of_array(array),
        },
        Kind::Store { array } => Kind::Store {
            array: checked.place_of_array(array),
        },
        Kind::Call { block } => Kind::Call {
            block: checked.place_of_block(block),
        },
        Kind::StrictCall { block } => Kind::StrictCall {
            block: checked.place_of_block(block),
        },
        Kind::Loop { block, bound } => Kind::Loop {
            block: checked.place_of_block(block),
            bound: *bound,
        },
    }
}

/// What is at that number in the block at that place.
#[inline(always)]
pub fn line_at<'a, A: Allocator>(checked: &Checked<'a, A>, block: usize, node: usize) -> Line
    ensures { result ≡ Lines.line_of checked.now block node }
{
    match block_at(checked.graph(), block) {
        Some(block) => line_in(checked, block, node),
        None => Line::Nothing,
    }
}

/// The block at that place.
#[inline(always)]
pub fn block_at<'b, 'a, A: Allocator>(
    graph: &'b Graph<'a, A>,
    place: usize,
) -> Option<&'b Block<'a, A>>
    ensures { option_copied result ≡ slice_get graph.now.blocks place }
{
    graph.blocks.get(place)
}

/// The node at that place of a block.
#[inline(always)]
pub fn node_at<'b, 'a, A: Allocator>(
    block: &'b Block<'a, A>,
    place: usize,
) -> Option<&'b Node<'a, A>>
    ensures { option_copied result ≡ slice_get block.now.1.nodes place }
{
    block.nodes.get(place)
}

#[inline(always)]
fn line_in<'a, A: Allocator>(checked: &Checked<'a, A>, block: &Block<'a, A>, node: usize) -> Line
    ensures { result ≡ Lines.line_in checked.now (Some block.now) node }
{
    let inputs = block.inputs as usize;
    if node < inputs {
        return Line::Input;
    }
    match node_at(block, node - inputs) {
        Some(line) => line_of_node(checked, line),
        None => Line::Nothing,
    }
}

#[inline(always)]
fn line_of_node<'a, A: Allocator>(checked: &Checked<'a, A>, node: &Node<'a, A>) -> Line
    ensures { result ≡ Lines.line_of_row checked.now (Some node.now) }
{
    Line::Node {
        region: node.region,
        kind: resolved(checked, &node.kind),
        arity: node.sources.len(),
    }
}

/// The origin of a fault that this node makes: only faults of the second version have one.
pub fn origin_at(version: Version, block: usize, node: usize) -> Origin
    ensures { result ≡ Lines.origin_of (version_number version) block node }
{
    match version {
        Version::One => Origin::Untold,
        Version::Two => {
            if block < 256 && node < 1024 {
                Origin::At {
                    block: block as u8,
                    node: NodeNumber::new(node as u16),
                }
            } else {
                Origin::Untold
            }
        }
    }
}

/// The number of the first cell of the array at that place.
fn first_cell<'a>(arrays: &[Array<'a>], array: usize) -> usize
    requires { Lines.total_of arrays.now ≤ 65536 }
    ensures exact { result ≡ Lines.first_of arrays.now array }
    ensures bounded { result ≤ 65536 }
{
    let mut first: usize = 0;
    let mut left = array;
    for array in arrays {
        if left == 0 {
            break;
        }
        first += array.len as usize;
        left -= 1;
    }
    first
}

/// The arrays of a graph.
pub fn arrays_of<'b, 'a, A: Allocator>(checked: &'b Checked<'a, A>) -> &'b [Array<'a>]
    ensures { result.now ≡ checked.now.arrays }
{
    slice_of(checked.graph())
}

fn slice_of<'b, 'a, A: Allocator>(graph: &'b Graph<'a, A>) -> &'b [Array<'a>]
    ensures { result.now ≡ graph.now.arrays }
{
    &graph.arrays
}

/// The blocks of a graph.
pub fn blocks_of<'b, 'a, A: Allocator>(checked: &'b Checked<'a, A>) -> &'b [Block<'a, A>]
    ensures { result.now ≡ checked.now.blocks }
{
    blocks_in(checked.graph())
}

fn blocks_in<'b, 'a, A: Allocator>(graph: &'b Graph<'a, A>) -> &'b [Block<'a, A>]
    ensures { result.now ≡ graph.now.blocks }
{
    &graph.blocks
}

/// The number of the cell at that index of the array at that place.
pub fn cell_of<'a>(arrays: &[Array<'a>], array: usize, index: u32) -> usize
    requires { Lines.total_of arrays.now ≤ 65536 }
    ensures { result ≡ Lines.first_of arrays.now array + index }
{
    first_cell(arrays, array) + index as usize
}

/// How many cells the array at that place has.
pub fn array_len<'a>(arrays: &[Array<'a>], array: usize) -> u32
    ensures { result ≡ Lines.len_of arrays.now array }
{
    match arrays.get(array) {
        Some(array) => array.len,
        None => 0,
    }
}

/// How many inputs the block at a place has.
pub fn input_count<'a, A: Allocator>(graph: &Graph<'a, A>, place: usize) -> usize
    ensures { result ≡ Lines.inputs_at graph.now place }
{
    match block_at(graph, place) {
        Some(block) => block.inputs as usize,
        None => 0,
    }
}

/// How many outputs the block at a place has.
pub fn output_count<'a, A: Allocator>(graph: &Graph<'a, A>, place: usize) -> usize
    ensures { result ≡ Lines.outputs_at graph.now place }
{
    match block_at(graph, place) {
        Some(block) => block.outputs as usize,
        None => 0,
    }
}

/// The version of a graph.
pub fn version_of<'a, A: Allocator>(checked: &Checked<'a, A>) -> Version
    ensures { version_number result ≡ checked.now.version }
{
    version_in(checked.graph())
}

fn version_in<'a, A: Allocator>(graph: &Graph<'a, A>) -> Version
    ensures { version_number result ≡ graph.now.version }
{
    graph.version
}
