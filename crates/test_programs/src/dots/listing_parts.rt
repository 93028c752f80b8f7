//! The parts that the listing of an object calls for in the picture of its code.

use crate::dots::parts::{box_part, edge_part, node_part};
use anyhow::Context;
use std::alloc::Global;

/// The parts so far, and the number of the block that is being read.
#[derive(Drop)]
struct Reader {
    alloc: Global,
    parts: Vec<String>,
    block: String,
}

/// Splits a destination, as in `+4l`, into how far ahead it is and its port; `None` where there is no destination.
fn split_port(dest: &str) -> Option<(&str, &str)> {
    let far = dest.strip_prefix("+")?;
    if let Some(far) = far.strip_suffix("l") {
        return Some((far, "l"));
    }
    Some((far.strip_suffix("r")?, "r"))
}

impl Reader {
    fn add_edge(
        &mut self,
        from: &str,
        to: &str,
        tail: &str,
        head: &str,
        style: &str,
    ) -> anyhow::Result<()> {
        self.parts
            .push(edge_part(self.alloc, from, to, tail, head, style)?)?;
        Ok(())
    }

    /// Adds the arc to a destination, if there is one.
    fn add_arc(&mut self, name: &str, number: u64, tail: &str, dest: &str) -> anyhow::Result<()> {
        let Some((far, port)) = split_port(dest) else {
            return Ok(());
        };
        let ahead: u64 = far.parse()?;
        let block = &self.block;
        let to = format!(in self.alloc; "b{block}i{}", number.wrapping_add(ahead))?;
        self.add_edge(name, to.as_str(), tail, port, "")
    }

    /// Adds the arc to the entry of a block, as in `b2.1`, or `b2` for entry 0.
    fn add_far_arc(&mut self, name: &str, operand: &str) -> anyhow::Result<()> {
        let operand = operand.strip_prefix("b").context("no block")?;
        let (block, entry) = operand.split_once('.').unwrap_or((operand, "0"));
        let to = format!(in self.alloc; "b{block}i{entry}")?;
        self.add_edge(name, to.as_str(), "", "", "dotted")
    }

    fn read_block(&mut self, number: &str) -> anyhow::Result<()> {
        self.block = String::from_str(self.alloc, number)?;
        let name = format!(in self.alloc; "cluster_b{number}")?;
        let label = format!(in self.alloc; "block {number}")?;
        let part = box_part(self.alloc, name.as_str(), label.as_str())?;
        self.parts.push(part)?;
        Ok(())
    }

    fn read_instr(&mut self, words: &[&str]) -> anyhow::Result<()> {
        let [number, op, _slot, first, second, operand, ..] = words else {
            anyhow::bail!("no instruction");
        };
        let block = &self.block;
        let name = format!(in self.alloc; "b{block}i{number}")?;
        let label = format!(in self.alloc; "{number} {op} {operand}")?;
        let boxes = format!(in self.alloc; " ets cluster_b{block}")?;
        let name = name.as_str();
        self.parts.push(node_part(self.alloc, name, label.as_str(), boxes.as_str())?)?;
        let number: u64 = number.parse()?;
        self.add_arc(name, number, "1", first)?;
        self.add_arc(name, number, "2", second)?;
        if *op == "link" || *op == "send" {
            self.add_far_arc(name, operand)?;
        }
        Ok(())
    }

    fn read_line(&mut self, words: &[&str]) -> anyhow::Result<()> {
        match words {
            ["ets", _version, "main", number] => {
                let label = format!(in self.alloc; "main block {number}")?;
                self.parts
                    .push(box_part(self.alloc, "ets", label.as_str())?)?;
                Ok(())
            }
            ["block", number, ..] => self.read_block(number),
            ["array", ..] => Ok(()),
            _ => self.read_instr(words),
        }
    }
}

/// The parts that the picture of this code has to have.
pub fn parts_of_listing(alloc: Global, listing: &str) -> anyhow::Result<Vec<String>> {
    let mut reader = Reader {
        alloc,
        parts: Vec::new(alloc),
        block: String::new(alloc),
    };
    for line in listing.lines() {
        let words: Vec<&str> = line.split_whitespace().collect(alloc)?;
        reader.read_line(words.as_slice())?;
    }
    let Reader { parts, .. } = reader;
    Ok(parts)
}
