//! The parts that a graph's text calls for in the graph's picture.

use crate::dots::parts::{box_part, edge_part, node_part};
use anyhow::Context;
use std::alloc::Global;

/// The boxes around a node: their names, and their parts, each on a line.
#[derive(Drop)]
struct Place {
    boxes: String,
    parts: String,
}

/// The parts so far, and the block that is being read.
#[derive(Drop)]
struct Reader {
    alloc: Global,
    parts: Vec<String>,
    /// How many blocks were begun so far.
    blocks: usize,
    /// The place of each node of the block that is being read.
    places: Vec<Place>,
}

impl Reader {
    fn block(&self) -> usize {
        self.blocks.wrapping_sub(1)
    }

    fn name_of(&self, node: &str) -> anyhow::Result<String> {
        let block = self.block();
        Ok(format!(in self.alloc; "b{block}n{node}")?)
    }

    /// The place of a node in this region.
    fn place_of(&self, region: &str) -> anyhow::Result<Place> {
        let alloc = self.alloc;
        let block = self.block();
        let (cond, side) = if let Some(cond) = region.strip_suffix("+") {
            (cond, "t")
        } else {
            (region.strip_suffix("-").context("no region")?, "f")
        };
        if cond.is_empty() {
            return Ok(Place {
                boxes: format!(in alloc; " ets cluster_b{block}")?,
                parts: String::new(alloc),
            });
        }
        let number: usize = cond.parse()?;
        let around = self.places.get(number).context("no conditional")?;
        let name = format!(in alloc; "cluster_b{block}{side}{cond}")?;
        let part = box_part(alloc, name.as_str(), region)?;
        let outer = &around.boxes;
        let before = &around.parts;
        Ok(Place {
            boxes: format!(in alloc; "{outer} {name}")?,
            parts: format!(in alloc; "{before}{part}\n")?,
        })
    }

    /// Adds a node in this region.
    fn add_node(&mut self, region: &str, label: &str) -> anyhow::Result<()> {
        let place = self.place_of(region)?;
        let node = format!(in self.alloc; "{}", self.places.len())?;
        let name = self.name_of(node.as_str())?;
        let label = format!(in self.alloc; "{node} {label}")?;
        let boxes = place.boxes.as_str();
        self.parts.push(node_part(self.alloc, name.as_str(), label.as_str(), boxes)?)?;
        for part in place.parts.lines() {
            self.parts.push(String::from_str(self.alloc, part)?)?;
        }
        self.places.push(place)?;
        Ok(())
    }

    /// Adds an edge from this source.
    fn add_edge(&mut self, source: &str, to: &str, head: &str, style: &str) -> anyhow::Result<()> {
        let (node, port) = source.split_once('.').context("no source")?;
        let from = self.name_of(node)?;
        let part = edge_part(self.alloc, from.as_str(), to, port, head, style)?;
        self.parts.push(part)?;
        Ok(())
    }

    fn read_block(&mut self, words: &[&str]) -> anyhow::Result<()> {
        let [_, name, inputs, _] = words else {
            anyhow::bail!("no block");
        };
        self.places.clear();
        let block = self.blocks;
        self.blocks = block.wrapping_add(1);
        let cluster = format!(in self.alloc; "cluster_b{block}")?;
        let label = format!(in self.alloc; "block {name}")?;
        let part = box_part(self.alloc, cluster.as_str(), label.as_str())?;
        self.parts.push(part)?;
        let inputs: usize = inputs.parse()?;
        for _ in 0..inputs {
            self.add_node("-", "input")?;
        }
        Ok(())
    }

    /// Reads the line of a node: its region, what it does, and its sources, which have a point in them.
    fn read_node(&mut self, words: &[&str]) -> anyhow::Result<()> {
        let (region, words) = words.split_first().context("an empty line")?;
        let mut label = String::new(self.alloc);
        for word in words {
            if word.split_once('.').is_none() {
                label.push_str(if label.is_empty() { "" } else { " " })?;
                label.push_str(word)?;
            }
        }
        let node = format!(in self.alloc; "{}", self.places.len())?;
        let to = self.name_of(node.as_str())?;
        self.add_node(region, label.as_str())?;
        let style = if label.as_str() == "cond" {
            "dashed"
        } else {
            ""
        };
        let mut operand = 0usize;
        for word in words {
            if word.split_once('.').is_some() {
                let head = format!(in self.alloc; "{operand}")?;
                self.add_edge(word, to.as_str(), head.as_str(), style)?;
                operand = operand.wrapping_add(1);
            }
        }
        Ok(())
    }

    /// Reads the line of the results.
    fn read_results(&mut self, words: &[&str]) -> anyhow::Result<()> {
        let place = self.place_of("-")?;
        let block = self.block();
        for (output, source) in words.iter().skip(1).enumerate() {
            let name = format!(in self.alloc; "b{block}o{output}")?;
            let label = format!(in self.alloc; "output {output}")?;
            let boxes = place.boxes.as_str();
            let part = node_part(self.alloc, name.as_str(), label.as_str(), boxes)?;
            self.parts.push(part)?;
            self.add_edge(source, name.as_str(), "", "")?;
        }
        Ok(())
    }

    fn read_line(&mut self, words: &[&str]) -> anyhow::Result<()> {
        match words {
            ["block", ..] => self.read_block(words),
            ["out", ..] => self.read_results(words),
            ["main", name] => {
                let label = format!(in self.alloc; "main {name}")?;
                self.parts
                    .push(box_part(self.alloc, "ets", label.as_str())?)?;
                Ok(())
            }
            ["etsgraph", ..] | ["array", ..] | ["end"] => Ok(()),
            _ => self.read_node(words),
        }
    }
}

/// The parts that the picture of this graph has to have.
pub fn parts_of_graph(alloc: Global, text: &str) -> anyhow::Result<Vec<String>> {
    let mut reader = Reader {
        alloc,
        parts: Vec::new(alloc),
        blocks: 0,
        places: Vec::new(alloc),
    };
    for line in text.lines() {
        let words: Vec<&str> = line.split(' ').collect(alloc)?;
        reader.read_line(words.as_slice())?;
    }
    let Reader { parts, .. } = reader;
    Ok(parts)
}
