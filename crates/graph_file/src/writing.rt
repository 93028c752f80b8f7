//! Graphs as texts: writing.

ghost use Rattle.std.specs.Prelude.{◌≡◌, ◌++◌, ◌∷◌, [], ℕ, List, flat_map};
ghost use Rattle.semantics.specs.Text.{field, sources_text, region_text, kind_text, node_line, block_text, array_line, text_of};
ghost use Rattle.graph_file.specs.Sending.{source_text, head_text, out_text, version_text, main_text};
ghost use Rattle.sink.specs.Sends.{Sends};

use graph::{Array, Block, Graph, Name, Node};
use itoa::Buffer;
use semantics::graph::{Kind, Region, Source};
use semantics::words::{binary_word, unary_word};
use sink::{send, send_all};
use std::alloc::Allocator;
use std::io::{self, Write};

/// A source, with the space before it.
fn send_source<W: Write>(writer: &mut W, source: &Source) -> io::Result<()>
    ensures { Sends result (W.contents writer.old) (W.contents writer.new) (source_text source.now) }
{
    let mut node = Buffer::new();
    let mut port = Buffer::new();
    let node = node.format(source.node).as_bytes();
    let port = port.format(source.port).as_bytes();
    send_all(writer, &[b" ", node, b".", port])
}

/// Sources, each with the space before it.
fn send_sources<W: Write>(writer: &mut W, sources: &[Source]) -> io::Result<()>
    ensures { Sends result (W.contents writer.old) (W.contents writer.new) (sources_text sources.now) }
{
    for source in sources {
        send_source(writer, source)?;
    }
    Ok(())
}

/// A node's region.
fn send_region<W: Write>(writer: &mut W, region: Region) -> io::Result<()>
    ensures { Sends result (W.contents writer.old) (W.contents writer.new) (region_text region) }
{
    match region {
        Region::Root => send_all(writer, &[b"-"]),
        Region::Arm { cond, side } => {
            let mut k = Buffer::new();
            let k = k.format(cond).as_bytes();
            if side {
                send_all(writer, &[k, b"+"])
            } else {
                send_all(writer, &[k, b"-"])
            }
        }
    }
}

/// What a node does, up to its sources, with the space before it.
pub fn send_kind<W: Write>(writer: &mut W, kind: &Kind<Name<'_>>) -> io::Result<()>
    ensures { Sends result (W.contents writer.old) (W.contents writer.new) (field (kind_text kind.now)) }
{
    let mut number = Buffer::new();
    match kind {
        Kind::Lit { value } => send_all(writer, &[b" lit ", number.format(*value).as_bytes()]),
        Kind::Apply1 { op } => send_all(writer, &[b" ", unary_word(*op)]),
        Kind::Apply2 { op } => send_all(writer, &[b" ", binary_word(*op)]),
        Kind::Cond => send(writer, b" cond"),
        Kind::Enter => send(writer, b" enter"),
        Kind::Merge { cond } => send_all(writer, &[b" merge ", number.format(*cond).as_bytes()]),
        Kind::Fetch { array } => send_all(writer, &[b" fetch ", array.bytes]),
        Kind::Store { array } => send_all(writer, &[b" store ", array.bytes]),
        Kind::Call { block } => send_all(writer, &[b" call ", block.bytes]),
        Kind::StrictCall { block } => send_all(writer, &[b" scall ", block.bytes]),
        Kind::Loop { block, bound } => send_all(
            writer,
            &[
                b" loop ",
                block.bytes,
                b" ",
                number.format(*bound).as_bytes(),
            ],
        ),
    }
}

/// A node line.
fn send_node<A: Allocator, W: Write>(writer: &mut W, node: &Node<'_, A>) -> io::Result<()>
    ensures { Sends result (W.contents writer.old) (W.contents writer.new) (node_line node.now) }
{
    send_region(writer, node.region)?;
    send_kind(writer, &node.kind)?;
    send_sources(writer, &node.sources)?;
    send(writer, b"\n")
}

/// The node lines of a block.
fn send_nodes<A: Allocator, W: Write>(writer: &mut W, nodes: &[Node<'_, A>]) -> io::Result<()>
    ensures { Sends result (W.contents writer.old) (W.contents writer.new) (flat_map node_line nodes.now) }
{
    for node in nodes {
        send_node(writer, node)?;
    }
    Ok(())
}

/// The first line of a block.
fn send_head<A: Allocator, W: Write>(writer: &mut W, block: &Block<'_, A>) -> io::Result<()>
    ensures { Sends result (W.contents writer.old) (W.contents writer.new) (head_text block.now) }
{
    let mut inputs = Buffer::new();
    let mut outputs = Buffer::new();
    let inputs = inputs.format(block.inputs).as_bytes();
    let outputs = outputs.format(block.outputs).as_bytes();
    send_all(
        writer,
        &[
            b"block ",
            block.name.bytes,
            b" ",
            inputs,
            b" ",
            outputs,
            b"\n",
        ],
    )
}

/// The line of a block's results.
fn send_out<W: Write>(writer: &mut W, results: &[Source]) -> io::Result<()>
    ensures { Sends result (W.contents writer.old) (W.contents writer.new) (out_text results.now) }
{
    send(writer, b"out")?;
    send_sources(writer, results)?;
    send(writer, b"\n")
}

/// The lines of a block.
fn send_block<A: Allocator, W: Write>(writer: &mut W, block: &Block<'_, A>) -> io::Result<()>
    ensures { Sends result (W.contents writer.old) (W.contents writer.new) (block_text block.now) }
{
    send_head(writer, block)?;
    send_nodes(writer, &block.nodes)?;
    send_out(writer, &block.results)?;
    send(writer, b"end\n")
}

/// The lines of the blocks.
fn send_blocks<A: Allocator, W: Write>(writer: &mut W, blocks: &[Block<'_, A>]) -> io::Result<()>
    ensures { Sends result (W.contents writer.old) (W.contents writer.new) (flat_map block_text blocks.now) }
{
    for block in blocks {
        send_block(writer, block)?;
    }
    Ok(())
}

/// The line of an array.
fn send_array<W: Write>(writer: &mut W, array: &Array<'_>) -> io::Result<()>
    ensures { Sends result (W.contents writer.old) (W.contents writer.new) (array_line array.now) }
{
    let mut len = Buffer::new();
    let len = len.format(array.len).as_bytes();
    send_all(writer, &[b"array ", array.name.bytes, b" ", len, b"\n"])
}

/// The lines of the arrays.
fn send_arrays<W: Write>(writer: &mut W, arrays: &[Array<'_>]) -> io::Result<()>
    ensures { Sends result (W.contents writer.old) (W.contents writer.new) (flat_map array_line arrays.now) }
{
    for array in arrays {
        send_array(writer, array)?;
    }
    Ok(())
}

/// The first line of a text.
fn send_header<A: Allocator, W: Write>(writer: &mut W, graph: &Graph<'_, A>) -> io::Result<()>
    ensures { Sends result (W.contents writer.old) (W.contents writer.new) (version_text graph.now.version) }
{
    let mut number = Buffer::new();
    let number = number.format(graph.version.number()).as_bytes();
    send_all(writer, &[b"etsgraph ", number, b"\n"])
}

/// Writes the one text of the graph. The writer is called until it has taken all of it; a call that takes no byte is a
/// fault. After an `Err` a beginning of the text was written.
pub fn write<'a, A: Allocator, W: Write>(graph: &Graph<'a, A>, writer: &mut W) -> io::Result<()>
    ensures { Sends result (W.contents writer.old) (W.contents writer.new) (text_of graph.now) }
{
    send_header(writer, graph)?;
    send_arrays(writer, &graph.arrays)?;
    send_blocks(writer, &graph.blocks)?;
    send_main(writer, graph)
}

/// The last line of a text.
fn send_main<A: Allocator, W: Write>(writer: &mut W, graph: &Graph<'_, A>) -> io::Result<()>
    ensures { Sends result (W.contents writer.old) (W.contents writer.new) (main_text graph.now.main) }
{
    send_all(writer, &[b"main ", graph.main.bytes, b"\n"])
}
