//! Drawings in SVG, as Graphviz makes them.

use std::alloc::Global;
use std::str;
use test_inputs::dot_reader::read;

/// The text, with those signs replaced that SVG writes in another way.
fn escape(alloc: Global, text: &str) -> anyhow::Result<String> {
    let mut escaped = String::new(alloc);
    for sign in text.chars() {
        match sign {
            '-' => escaped.push_str("&#45;")?,
            '>' => escaped.push_str("&gt;")?,
            _ => escaped.push(sign)?,
        }
    }
    Ok(escaped)
}

/// The nodes of a picture, each with its name and label, and its edges, sorted.
fn parts_of_picture(alloc: Global, dot: &[u8]) -> anyhow::Result<Vec<String>> {
    let picture = read(alloc, dot)?;
    let mut parts = Vec::new(alloc);
    for node in &picture.nodes {
        let name = str::from_utf8(node.name)?;
        let label = str::from_utf8(node.label)?;
        let part = format!(in alloc; "{name} {label}")?;
        parts.push(escape(alloc, part.as_str())?)?;
    }
    for edge in &picture.edges {
        let from = str::from_utf8(edge.from)?;
        let to = str::from_utf8(edge.to)?;
        let part = format!(in alloc; "{from}->{to}")?;
        parts.push(escape(alloc, part.as_str())?)?;
    }
    parts.sort()?;
    Ok(parts)
}

/// The part of a line between its first tag `tag` and the end of that tag's element.
fn inside<'a>(line: &'a str, tag: &str) -> Option<&'a str> {
    let (_, rest) = line.strip_prefix(tag)?.split_once('>')?;
    let (text, _) = rest.split_once("</")?;
    Some(text)
}

/// What the group of the drawing that was begun last stands for.
#[derive(Clone, Copy)]
enum Group<'a> {
    Node(&'a str),
    Edge,
    Other,
}

/// The nodes and edges of a drawing, in the form of those of a picture.
fn parts_of_drawing(alloc: Global, svg: &str) -> anyhow::Result<Vec<String>> {
    let mut parts = Vec::new(alloc);
    let mut group = Group::Other;
    for line in svg.lines() {
        if line.starts_with("<g ") {
            group = if line.ends_with("class=\"node\">") {
                Group::Node("")
            } else if line.ends_with("class=\"edge\">") {
                Group::Edge
            } else {
                Group::Other
            };
        }
        if let Some(title) = inside(line, "<title") {
            match group {
                Group::Node(_) => group = Group::Node(title),
                Group::Edge => parts.push(String::from_str(alloc, title)?)?,
                Group::Other => {}
            }
        }
        if let (Group::Node(title), Some(label)) = (group, inside(line, "<text")) {
            parts.push(format!(in alloc; "{title} {label}")?)?;
        }
    }
    parts.sort()?;
    Ok(parts)
}

/// Whether the drawing has exactly the nodes and the edges of the picture, and the labels of the nodes.
pub fn is_drawn(alloc: Global, dot: &[u8], svg: &[u8]) -> anyhow::Result<bool> {
    let parts = parts_of_picture(alloc, dot)?;
    let drawn = parts_of_drawing(alloc, str::from_utf8(svg)?)?;
    Ok(!parts.is_empty() && parts.as_slice() == drawn.as_slice())
}
