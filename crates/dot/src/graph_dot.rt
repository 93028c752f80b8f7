//! The picture of a graph.

ghost use Rattle.std.specs.Prelude.{◌≡◌, ◌<◌, ◌++◌, ◌∷◌, [], ℕ, codes, decimal};
ghost use Rattle.semantics.specs.Text.{kind_text};
ghost use Rattle.sink.specs.Numbered.{numbered};
ghost use Rattle.sink.specs.Sends.{Sends};
ghost use Rattle.dot.specs.GraphDot.{region_of, arm_letter, arm_sign, arm_opens, opens, closes, node_box, style_of, edge, node_place, node_dot};
ghost use Rattle.dot.specs.GraphDot.{input_box, inputs_dot, result_dot, block_head, block_dot, graph_head, graph_dot};

use graph::{Block, Graph, Name, Node};
use graph_file::send_kind;
use itoa::Buffer;
use semantics::graph::{Kind, Region, Source};
use sink::{send, send_all};
use std::alloc::Allocator;
use std::io::{self, Write};

/// Where a node of a block lies; an input lies in no arm.
fn region_of<A: Allocator>(block: &Block<'_, A>, node: u32) -> Region
    ensures { result ≡ region_of block.now.1 node }
{
    let Some(line) = node.checked_sub(block.inputs) else {
        return Region::Root;
    };
    match block.nodes.get(line as usize) {
        Some(node) => node.region,
        None => Region::Root,
    }
}

/// The letter of an arm in the name of its box.
fn arm_letter(arm: Region) -> &'static [u8]
    ensures { result.now ≡ arm_letter arm }
{
    match arm {
        Region::Arm { side: true, .. } => b"t",
        Region::Arm { side: false, .. } => b"f",
        Region::Root => b"",
    }
}

/// The sign of an arm on its box.
fn arm_sign(arm: Region) -> &'static [u8]
    ensures { result.now ≡ arm_sign arm }
{
    match arm {
        Region::Arm { side: true, .. } => b"+",
        Region::Arm { side: false, .. } => b"-",
        Region::Root => b"",
    }
}

/// The beginning of an arm's box.
fn open_arm<W: Write>(writer: &mut W, place: usize, arm: Region) -> io::Result<()>
    ensures { Sends result (W.contents writer.old) (W.contents writer.new) (arm_opens place arm) }
{
    let Region::Arm { cond, .. } = arm else {
        return Ok(());
    };
    let mut block = Buffer::new();
    let mut number = Buffer::new();
    let block = block.format(place).as_bytes();
    let number = number.format(cond).as_bytes();
    let letter = arm_letter(arm);
    let sign = arm_sign(arm);
    send_all(
        writer,
        &[
            b"subgraph cluster_b",
            block,
            letter,
            number,
            b" { style=dotted label=\"",
            number,
            sign,
            b"\" ",
        ],
    )
}

/// The beginnings of the boxes of all arms around a region, the outermost first.
fn open_arms<A: Allocator, W: Write>(
    writer: &mut W,
    depth: usize,
    place: usize,
    block: &Block<'_, A>,
    region: Region,
) -> io::Result<()>
    ensures { Sends result (W.contents writer.old) (W.contents writer.new) (opens depth place block.now.1 region) }
{
    let Region::Arm { cond, .. } = region else {
        return Ok(());
    };
    let Some(around) = depth.checked_sub(1) else {
        return Ok(());
    };
    open_arms(writer, around, place, block, region_of(block, cond))?;
    open_arm(writer, place, region)
}

/// The ends of these boxes.
fn close_arms<A: Allocator, W: Write>(
    writer: &mut W,
    depth: usize,
    block: &Block<'_, A>,
    region: Region,
) -> io::Result<()>
    ensures { Sends result (W.contents writer.old) (W.contents writer.new) (closes depth block.now.1 region) }
{
    let Region::Arm { cond, .. } = region else {
        return Ok(());
    };
    let Some(around) = depth.checked_sub(1) else {
        return Ok(());
    };
    close_arms(writer, around, block, region_of(block, cond))?;
    send(writer, b"} ")
}

/// What the box of a node begins with.
fn open_box<W: Write>(writer: &mut W, place: usize, node: u64) -> io::Result<()>
    ensures { Sends result (W.contents writer.old) (W.contents writer.new) (codes "b" ++ decimal place ++ codes "n" ++ decimal node
        ++ codes " [label=\"" ++ decimal node) }
{
    let mut block = Buffer::new();
    let mut number = Buffer::new();
    let block = block.format(place).as_bytes();
    let number = number.format(node).as_bytes();
    send_all(writer, &[b"b", block, b"n", number, b" [label=\"", number])
}

/// The box of a node.
fn send_box<W: Write>(
    writer: &mut W,
    place: usize,
    node: u64,
    kind: &Kind<Name<'_>>,
) -> io::Result<()>
    ensures { Sends result (W.contents writer.old) (W.contents writer.new) (node_box place node kind.now) }
{
    open_box(writer, place, node)?;
    send_kind(writer, kind)?;
    send(writer, b"\"] ")
}

/// How the edges of a node are drawn.
fn style_of(kind: &Kind<Name<'_>>) -> &'static [u8]
    ensures { result.now ≡ style_of kind.now }
{
    match kind {
        Kind::Cond => b" style=dashed",
        _ => b"",
    }
}

/// The edge from a source to an operand of a node.
fn send_edge<W: Write>(
    writer: &mut W,
    place: usize,
    node: u64,
    style: &[u8],
    operand: usize,
    source: &Source,
) -> io::Result<()>
    ensures { Sends result (W.contents writer.old) (W.contents writer.new) (edge place node style.now operand source.now) }
{
    let mut block = Buffer::new();
    let mut to = Buffer::new();
    let mut from = Buffer::new();
    let mut port = Buffer::new();
    let mut head = Buffer::new();
    let block = block.format(place).as_bytes();
    let to = to.format(node).as_bytes();
    let from = from.format(source.node).as_bytes();
    let port = port.format(source.port).as_bytes();
    let head = head.format(operand).as_bytes();
    send_all(
        writer,
        &[
            b"b",
            block,
            b"n",
            from,
            b" -> b",
            block,
            b"n",
            to,
            b" [taillabel=\"",
            port,
            b"\" headlabel=\"",
            head,
            b"\"",
            style,
            b"]\n",
        ],
    )
}

/// The edges from the sources of a node.
fn send_edges<W: Write>(
    writer: &mut W,
    place: usize,
    node: u64,
    style: &[u8],
    sources: &[Source],
) -> io::Result<()>
    ensures { Sends result (W.contents writer.old) (W.contents writer.new) (numbered (edge place node style.now) 0 sources.now) }
{
    for (operand, source) in sources.iter().enumerate() {
        send_edge(writer, place, node, style, operand, source)?;
    }
    Ok(())
}

/// Where a node is: under a number in the block at a place, and in a region of that block.
#[derive(Clone, Copy)]
struct Spot {
    place: usize,
    number: u64,
    region: Region,
}

/// A node's box within the boxes of its arms.
fn send_place<A: Allocator, W: Write>(
    writer: &mut W,
    depth: usize,
    block: &Block<'_, A>,
    spot: Spot,
    kind: &Kind<Name<'_>>,
) -> io::Result<()>
    ensures { Sends result (W.contents writer.old) (W.contents writer.new) (node_place depth spot.place block.now.1 spot.region spot.number kind.now) }
{
    open_arms(writer, depth, spot.place, block, spot.region)?;
    send_box(writer, spot.place, spot.number, kind)?;
    close_arms(writer, depth, block, spot.region)?;
    send(writer, b"\n")
}

/// A node with its edges.
fn send_node<A: Allocator, W: Write>(
    writer: &mut W,
    place: usize,
    block: &Block<'_, A>,
    line: usize,
    node: &Node<'_, A>,
) -> io::Result<()>
    requires { line < 9223372036854775808 }
    ensures { Sends result (W.contents writer.old) (W.contents writer.new) (node_dot place block.now.1 line node.now) }
{
    let depth = block.nodes.len();
    let number = u64::from(block.inputs) + line as u64;
    let spot = Spot {
        place,
        number,
        region: node.region,
    };
    send_place(writer, depth, block, spot, &node.kind)?;
    send_edges(writer, place, number, style_of(&node.kind), &node.sources)
}

/// Nodes of a block with their edges.
fn send_nodes<A: Allocator, W: Write>(
    writer: &mut W,
    place: usize,
    block: &Block<'_, A>,
    nodes: &[Node<'_, A>],
) -> io::Result<()>
    ensures { Sends result (W.contents writer.old) (W.contents writer.new) (numbered (node_dot place block.now.1) 0 nodes.now) }
{
    for (line, node) in nodes.iter().enumerate() {
        send_node(writer, place, block, line, node)?;
    }
    Ok(())
}

/// The box of an input.
fn send_input<W: Write>(writer: &mut W, place: usize, input: u32) -> io::Result<()>
    ensures { Sends result (W.contents writer.old) (W.contents writer.new) (input_box place input) }
{
    let mut block = Buffer::new();
    let mut number = Buffer::new();
    let block = block.format(place).as_bytes();
    let number = number.format(input).as_bytes();
    send_all(
        writer,
        &[
            b"b",
            block,
            b"n",
            number,
            b" [shape=box label=\"",
            number,
            b" input\"]\n",
        ],
    )
}

/// The boxes of the inputs of a block.
fn send_inputs<W: Write>(writer: &mut W, place: usize, inputs: u32) -> io::Result<()>
    ensures { Sends result (W.contents writer.old) (W.contents writer.new) (inputs_dot place inputs) }
{
    for input in 0..inputs {
        send_input(writer, place, input)?;
    }
    Ok(())
}

/// The box of a result of a block, and the edge to it.
fn send_result<W: Write>(
    writer: &mut W,
    place: usize,
    output: usize,
    source: &Source,
) -> io::Result<()>
    ensures { Sends result (W.contents writer.old) (W.contents writer.new) (result_dot place output source.now) }
{
    let mut block = Buffer::new();
    let mut number = Buffer::new();
    let mut from = Buffer::new();
    let mut port = Buffer::new();
    let block = block.format(place).as_bytes();
    let number = number.format(output).as_bytes();
    let from = from.format(source.node).as_bytes();
    let port = port.format(source.port).as_bytes();
    send_all(
        writer,
        &[
            b"b",
            block,
            b"o",
            number,
            b" [shape=box label=\"output ",
            number,
            b"\"]\nb",
            block,
            b"n",
            from,
            b" -> b",
            block,
            b"o",
            number,
            b" [taillabel=\"",
            port,
            b"\"]\n",
        ],
    )
}

/// The boxes of the results of a block, and the edges to them.
fn send_results<W: Write>(writer: &mut W, place: usize, results: &[Source]) -> io::Result<()>
    ensures { Sends result (W.contents writer.old) (W.contents writer.new) (numbered (result_dot place) 0 results.now) }
{
    for (output, source) in results.iter().enumerate() {
        send_result(writer, place, output, source)?;
    }
    Ok(())
}

/// What the box of a block begins with.
fn open_block<W: Write>(writer: &mut W, place: usize, name: &Name<'_>) -> io::Result<()>
    ensures { Sends result (W.contents writer.old) (W.contents writer.new) (block_head place name.now) }
{
    let mut block = Buffer::new();
    let block = block.format(place).as_bytes();
    send_all(
        writer,
        &[
            b"subgraph cluster_b",
            block,
            b" { label=\"block ",
            name.bytes,
            b"\"\n",
        ],
    )
}

/// What the box of a block begins with, and its inputs.
fn open_inputs<W: Write>(
    writer: &mut W,
    place: usize,
    name: &Name<'_>,
    inputs: u32,
) -> io::Result<()>
    ensures { Sends result (W.contents writer.old) (W.contents writer.new) (block_head place name.now ++ inputs_dot place inputs) }
{
    open_block(writer, place, name)?;
    send_inputs(writer, place, inputs)
}

/// The box of a block.
fn send_block<A: Allocator, W: Write>(
    writer: &mut W,
    place: usize,
    block: &Block<'_, A>,
) -> io::Result<()>
    ensures { Sends result (W.contents writer.old) (W.contents writer.new) (block_dot place block.now) }
{
    open_inputs(writer, place, &block.name, block.inputs)?;
    send_nodes(writer, place, block, &block.nodes)?;
    send_results(writer, place, &block.results)?;
    send(writer, b"}\n")
}

/// The boxes of the blocks.
fn send_blocks<A: Allocator, W: Write>(writer: &mut W, blocks: &[Block<'_, A>]) -> io::Result<()>
    ensures { Sends result (W.contents writer.old) (W.contents writer.new) (numbered block_dot 0 blocks.now) }
{
    for (place, block) in blocks.iter().enumerate() {
        send_block(writer, place, block)?;
    }
    Ok(())
}

/// What a picture begins with.
fn open_picture<W: Write>(writer: &mut W, main: &Name<'_>) -> io::Result<()>
    ensures { Sends result (W.contents writer.old) (W.contents writer.new) (graph_head main.now) }
{
    send_all(
        writer,
        &[
            b"digraph ets { label=\"main ",
            main.bytes,
            b"\"\nnode [fontname=\"sans-serif\"] edge [fontsize=8 fontname=\"sans-serif\"]\n",
        ],
    )
}

/// Writes the picture of a graph: a box for each block and each arm, a node for each node line, input and result, and an edge for
/// each source. The writer is called until it has taken all of it; after an `Err` a beginning of it was written. Takes no memory.
pub fn write_graph_dot<A: Allocator, W: Write>(
    graph: &Graph<'_, A>,
    writer: &mut W,
) -> io::Result<()>
    ensures { Sends result (W.contents writer.old) (W.contents writer.new) (graph_dot graph.now) }
{
    open_picture(writer, &graph.main)?;
    send_blocks(writer, &graph.blocks)?;
    send(writer, b"}\n")
}
