//! Programs lowered to graphs: the examples and small programs, blocks that are too big, long programs, and refused growths.

use crate::examples::EXAMPLES;
use crate::graphs::{GRAPHS, SMALL};
use graph::Block;
use graph_file::send_kind;
use itoa::Buffer;
use lowering::{Lowered, Named, lower, name_loops};
use semantics::graph::{Region, Source};
use source::fault::{Fault, FaultKind};
use source_check::check;
use source_text::read_program;
use std::alloc::Allocator;
use std::io::{self, Write};
use std::test::Fail;
use test_inputs::rationed::{Rationed, is_next_refused};

/// A number, and what follows it.
fn write_number<W: Write>(writer: &mut W, number: u32, after: &[u8]) -> io::Result<()> {
    let mut buffer = Buffer::new();
    writer.write_all(buffer.format(number).as_bytes())?;
    writer.write_all(after)
}

fn write_sources<W: Write>(writer: &mut W, sources: &[Source]) -> io::Result<()> {
    for source in sources {
        writer.write_all(b" ")?;
        write_number(writer, source.node, b".")?;
        write_number(writer, source.port, b"")?;
    }
    writer.write_all(b"\n")
}

fn write_region<W: Write>(writer: &mut W, region: Region) -> io::Result<()> {
    match region {
        Region::Root => writer.write_all(b"-"),
        Region::Arm { cond, side: true } => write_number(writer, cond, b"+"),
        Region::Arm { cond, side: false } => write_number(writer, cond, b"-"),
    }
}

fn write_block<'a, A: Allocator, W: Write>(writer: &mut W, block: &Block<'a, A>) -> io::Result<()> {
    writer.write_all(b"block ")?;
    writer.write_all(block.name.bytes)?;
    writer.write_all(b" ")?;
    write_number(writer, block.inputs, b" ")?;
    write_number(writer, block.outputs, b"\n")?;
    for node in &block.nodes {
        write_region(writer, node.region)?;
        send_kind(writer, &node.kind)?;
        write_sources(writer, &node.sources)?;
    }
    writer.write_all(b"out")?;
    write_sources(writer, &block.results)?;
    writer.write_all(b"end\n")
}

/// The text of the graph.
fn write_graph<'a, A: Allocator, W: Write>(
    writer: &mut W,
    lowered: &Lowered<'a, A>,
) -> io::Result<()> {
    writer.write_all(b"etsgraph 2\n")?;
    for array in &lowered.arrays {
        writer.write_all(b"array ")?;
        writer.write_all(array.name.bytes)?;
        writer.write_all(b" ")?;
        write_number(writer, array.len, b"\n")?;
    }
    for block in &lowered.blocks {
        write_block(writer, block)?;
    }
    writer.write_all(b"main main\n")
}

/// A growth was refused.
const OUT_OF_MEMORY: Fault = Fault {
    kind: FaultKind::Memory,
    at: 0,
};

/// Lowers a program, and writes the text of its graph.
fn lower_named<A: Allocator + Clone, W: Write>(
    alloc: &A,
    named: Named<'_, A>,
    writer: &mut W,
) -> Result<(), Fault> {
    let lowered = lower(alloc, &named)?;
    match write_graph(writer, &lowered) {
        Ok(()) => Ok(()),
        Err(_) => Err(OUT_OF_MEMORY),
    }
}

/// Lowers the program of a text, and writes the text of its graph.
fn lower_text<A: Allocator + Clone, W: Write>(
    alloc: &A,
    text: &[u8],
    writer: &mut W,
) -> Result<(), Fault> {
    let Ok(own) = alloc.clone() else {
        return Err(OUT_OF_MEMORY);
    };
    match read_program(own, text) {
        Ok(read) => {
            let checked = match check(alloc, read.text.len(), read.program) {
                Ok(checked) => checked,
                Err(broken) => return Err(broken.fault),
            };
            lower_named(alloc, name_loops(alloc, checked)?, writer)
        }
        Err(refusal) => Err(Fault {
            kind: refusal.fault.kind,
            at: 0,
        }),
    }
}

#[test]
fn examples(rt: HostRuntime) -> Result<(), Fail> {
    for i in 0..EXAMPLES.len() {
        let mut text = Vec::new(rt.alloc());
        lower_text(&rt.alloc(), EXAMPLES[i].0, &mut text)?;
        assert_eq!(rt; text.as_slice(), GRAPHS[i], "{i}");
    }
    Ok(())
}

#[test]
fn small_programs(rt: HostRuntime) -> Result<(), Fail> {
    for (program, graph) in SMALL {
        let mut text = Vec::new(rt.alloc());
        lower_text(&rt.alloc(), program, &mut text)?;
        assert_eq!(rt; text.as_slice(), graph);
    }
    Ok(())
}

/// A function with so many operators.
fn long_function<A: Allocator>(
    text: &mut Vec<u8, A>,
    name: &[u8],
    operators: u32,
) -> io::Result<()> {
    text.write_all(b"fn ")?;
    text.write_all(name)?;
    text.write_all(b"(n) { n")?;
    for _ in 0..operators {
        text.write_all(b" + n")?;
    }
    text.write_all(b" }\n")
}

/// So many functions, and `main`.
fn many_functions<A: Allocator>(text: &mut Vec<u8, A>, count: u32) -> io::Result<()> {
    for i in 0..count {
        text.write_all(b"fn f")?;
        write_number(
            text,
            i,
            b"(n) { let a, b = n + 1, 2 * n; a - b << 3 & n }\n",
        )?;
    }
    text.write_all(b"fn main(n) { f0(n) }\n")
}

/// The fault of a program that is refused.
fn refusal<A: Allocator + Clone>(alloc: &A, text: &[u8]) -> Option<Fault> {
    let Ok(own) = alloc.clone() else {
        return None;
    };
    let mut graph = Vec::new(own);
    lower_text(alloc, text, &mut graph).err()
}

/// A block has at most 1,024 nodes with its inputs, and a graph at most 256 blocks.
#[test]
fn sizes(rt: HostRuntime) -> Result<(), Fail> {
    let mut text = Vec::new(rt.alloc());
    long_function(&mut text, b"main", 1023)?;
    assert_eq!(rt; refusal(&rt.alloc(), &text), None);
    let mut text = Vec::new(rt.alloc());
    long_function(&mut text, b"main", 1024)?;
    let fault = Fault {
        kind: FaultKind::TooBig,
        at: 3,
    };
    assert_eq!(rt; refusal(&rt.alloc(), &text), Some(fault));
    let mut text = Vec::new(rt.alloc());
    many_functions(&mut text, 255)?;
    assert_eq!(rt; refusal(&rt.alloc(), &text), None);
    let mut text = Vec::new(rt.alloc());
    many_functions(&mut text, 256)?;
    let at = text.len().wrapping_sub(18);
    let fault = Fault {
        kind: FaultKind::TooBig,
        at,
    };
    assert_eq!(rt; refusal(&rt.alloc(), &text), Some(fault));
    Ok(())
}

/// Two thousand functions, a hundred thousand bytes.
#[test]
fn a_long_program(rt: HostRuntime) -> Result<(), Fail> {
    let mut text = Vec::new(rt.alloc());
    many_functions(&mut text, 2_000)?;
    assert!(rt; text.len() > 100_000);
    let fault = refusal(&rt.alloc(), &text);
    assert!(rt; fault.is_some_and(|fault| fault.kind == FaultKind::TooBig));
    Ok(())
}

/// A function with a thousand names.
#[test]
fn many_names(rt: HostRuntime) -> Result<(), Fail> {
    let mut text = Vec::new(rt.alloc());
    text.write_all(b"fn main(n) { let a0 = n;")?;
    for i in 0..1000u32 {
        text.write_all(b" let a")?;
        write_number(&mut text, i.wrapping_add(1), b" = a")?;
        write_number(&mut text, i, b" + a0;")?;
    }
    text.write_all(b" a1000 }")?;
    assert_eq!(rt; refusal(&rt.alloc(), &text), None);
    Ok(())
}

/// Each growth of lowering is refused in turn, until none is.
#[test]
fn refused_growths(rt: HostRuntime) -> Result<(), Fail> {
    let program = b"array A[9];
fn f(a, b) -> 2 { A[a] := -b; if a > 1 { a, A[b] } else { f(b, a) } }
fn main(n) {
    let x, _ = strict f(n, 1);
    let y = loop 4 (i = x) while i < n { i + 1 };
    loop 4 (j = y) { j + x } while (j < 5)
}";
    let mut refused = 0u64;
    let mut whole = false;
    for growth in 1..600u64 {
        let heap = Rationed::new(rt.alloc(), growth);
        let fault = refusal(&&heap, program);
        whole = is_next_refused(&heap);
        if whole {
            assert_eq!(rt; fault, None, "{growth}");
            break;
        }
        match fault {
            Some(fault) => assert_eq!(rt; fault.kind, FaultKind::Memory, "{growth}"),
            None => assert!(rt; false, "{growth}"),
        }
        refused = refused.wrapping_add(1);
    }
    assert!(rt; whole && refused > 100, "{refused}");
    Ok(())
}
