//! The joins of the ends of a block.

ghost use Rattle.std.specs.Prelude.{◌≡◌, ◌+◌, ◌≤◌, length, map, IfOk, OnOk};
ghost use Rattle.schemas.specs.Flows.{resolved_node, resolved_named};
ghost use Rattle.code_map.specs.Joins as Joins;

use crate::part::Part;
use crate::rows::push_all;
use graph::Node;
use graph_check::Checked;
use semantics::graph::{Kind, Region};
use std::alloc::{AllocError, Allocator};
use std::marker::Model;

/// The parts of the instructions of a block so far, and the regions of its ends.
#[derive(Drop)]
pub(crate) struct Joined<A: Allocator> {
    pub parts: Vec<Part, A>,
    pub ends: Vec<Region, A>,
}

impl<A: Allocator> Model for Joined<A> {
    ghost use Rattle.code_map.specs.Joins.{Joined};

    ghost Value = { Joined };

    ghost view = { λ j. record { parts = j.parts.items; ends = j.ends.items } };
}

/// How many ends there are in a region.
fn ends_in(ends: &[Region], region: Region) -> usize
    ensures exact { result ≡ Joins.ends_in region ends.now }
    ensures few { result ≤ length ends.now }
{
    let mut count = 0;
    for end in ends {
        if *end == region {
            count += 1;
        }
    }
    count
}

impl<A: Allocator> Joined<A> {
    /// Adds the joins of the ends in the arms of a conditional, or of a turn's flag, which lies in that region.
    pub fn close(&mut self, cond: u32, region: Region, part: Part) -> Result<(), AllocError>
        ensures { OnOk result (self.new ≡ Joins.closed self.old cond region part) }
    {
        let on = ends_in(&self.ends, Region::Arm { cond, side: true });
        let off = ends_in(&self.ends, Region::Arm { cond, side: false });
        push_all(&mut self.parts, on.saturating_sub(1), part)?;
        push_all(&mut self.parts, off.saturating_sub(1), part)?;
        if on > 0 || off > 0 {
            self.parts.push(part)?;
            self.ends.push(region)?;
        }
        Ok(())
    }

    /// The same of a node, if it is a conditional.
    fn close_node<'a>(
        &mut self,
        checked: &Checked<'a, A>,
        number: u32,
        node: &Node<'a, A>,
    ) -> Result<(), AllocError>
        ensures { OnOk result (self.new ≡ Joins.closed_kind self.old number (resolved_node checked.now node.now).kind node.now.region) }
    {
        match &node.kind {
            Kind::Cond => self.close(number, node.region, Part::Joins { node: number }),
            _ => Ok(()),
        }
    }

    /// Adds the joins of all conditionals, from the last one to the first one.
    pub fn close_nodes<'a>(
        &mut self,
        checked: &Checked<'a, A>,
        first: u32,
        nodes: &[Node<'a, A>],
    ) -> Result<(), AllocError>
        requires few { first + length nodes.now ≤ 1024 }
        ensures { OnOk result (self.new ≡ Joins.closed_nodes self.old first (map (resolved_node checked.now) nodes.now)) }
    {
        for index in (0..nodes.len()).rev() {
            self.close_node(checked, first + index as u32, &nodes[index])?;
        }
        Ok(())
    }

    /// Adds the joins of the root, and the release.
    pub fn release(&mut self) -> Result<(), AllocError>
        ensures { OnOk result (self.new ≡ Joins.released self.old) }
    {
        let count = ends_in(&self.ends, Region::Root);
        push_all(&mut self.parts, count.saturating_sub(1), Part::Release)?;
        self.parts.push(Part::Release)?;
        Ok(())
    }
}
