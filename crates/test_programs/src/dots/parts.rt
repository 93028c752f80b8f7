//! The parts of a picture: its boxes, nodes and edges, each as a line of text.

use std::alloc::Global;
use std::io::Write;
use std::{fmt, str};
use test_inputs::dot_reader::{Edge, Node, Picture, read};

/// How many nodes and edges there were.
#[derive(Drop)]
pub struct Tally {
    nodes: usize,
    edges: usize,
}

impl Tally {
    pub fn new() -> Tally {
        Tally { nodes: 0, edges: 0 }
    }

    fn add(&mut self, picture: &Picture<'_>) {
        self.nodes = self.nodes.wrapping_add(picture.nodes.len());
        self.edges = self.edges.wrapping_add(picture.edges.len());
    }
}

impl fmt::Display for Tally {
    fn fmt<W: fmt::Write>(&self, f: &mut fmt::Formatter<W>) -> fmt::Result {
        let nodes = self.nodes;
        let edges = self.edges;
        write!(f, "{nodes} nodes, {edges} edges")
    }
}

/// A box: its name and its label.
pub fn box_part(alloc: Global, name: &str, label: &str) -> anyhow::Result<String> {
    Ok(format!(in alloc; "box {name} \"{label}\"")?)
}

/// A node: its name, its label, and the names of the boxes around it, each with a space before it.
pub fn node_part(alloc: Global, name: &str, label: &str, boxes: &str) -> anyhow::Result<String> {
    Ok(format!(in alloc; "node {name} \"{label}\" in{boxes}")?)
}

/// An edge: the node it leaves, the node it goes to, the texts at its tail and its head, and its style.
pub fn edge_part(
    alloc: Global,
    from: &str,
    to: &str,
    tail: &str,
    head: &str,
    style: &str,
) -> anyhow::Result<String> {
    Ok(format!(in alloc; "edge {from} {to} \"{tail}\" \"{head}\" {style}")?)
}

fn part_of_node(alloc: Global, node: &Node<'_>) -> anyhow::Result<String> {
    let mut boxes = String::new(alloc);
    for name in &node.boxes {
        boxes.push_str(" ")?;
        boxes.push_str(str::from_utf8(name)?)?;
    }
    let name = str::from_utf8(node.name)?;
    node_part(alloc, name, str::from_utf8(node.label)?, boxes.as_str())
}

fn part_of_edge(alloc: Global, edge: &Edge<'_>) -> anyhow::Result<String> {
    edge_part(
        alloc,
        str::from_utf8(edge.from)?,
        str::from_utf8(edge.to)?,
        str::from_utf8(edge.tail)?,
        str::from_utf8(edge.head)?,
        str::from_utf8(edge.style)?,
    )
}

fn parts_of_picture(alloc: Global, picture: &Picture<'_>) -> anyhow::Result<Vec<String>> {
    let mut parts = Vec::new(alloc);
    for (name, label) in &picture.boxes {
        parts.push(box_part(alloc, str::from_utf8(name)?, str::from_utf8(label)?)?)?;
    }
    for node in &picture.nodes {
        parts.push(part_of_node(alloc, node)?)?;
    }
    for edge in &picture.edges {
        parts.push(part_of_edge(alloc, edge)?)?;
    }
    Ok(parts)
}

/// Whether the picture has these parts, in any order, and nothing else. Prints the first part that it lacks or has too often.
pub fn has_parts<W: Write>(
    alloc: Global,
    out: &mut W,
    tally: &mut Tally,
    dot: &[u8],
    mut wanted: Vec<String>,
) -> anyhow::Result<bool> {
    let picture = read(alloc, dot)?;
    tally.add(&picture);
    let mut parts = parts_of_picture(alloc, &picture)?;
    parts.sort()?;
    wanted.sort()?;
    if picture.unread == 0 && parts.as_slice() == wanted.as_slice() {
        return Ok(true);
    }
    let unread = picture.unread;
    let drawn = parts.len();
    let count = wanted.len();
    writeln!(out, "differs: {drawn} parts for {count}, {unread} unread")?;
    for (part, wanted) in parts.iter().zip(wanted.iter()) {
        if part.as_str() != wanted.as_str() {
            writeln!(out, "has: {part}\nhas to have: {wanted}")?;
            return Ok(false);
        }
    }
    Ok(false)
}
