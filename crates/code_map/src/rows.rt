//! The instructions of a block so far, by what is known of each without its code.

ghost use Rattle.std.specs.Prelude.{◌≡◌, ◌++◌, replicate, OnOk};
ghost use Rattle.code_map.specs.Counts as Counts;

use crate::part::Part;
use semantics::graph::Region;
use std::alloc::{AllocError, Allocator};
use std::marker::Model;

/// The part and the region of each instruction of a block so far.
#[derive(Drop)]
pub(crate) struct Rows<A: Allocator> {
    pub parts: Vec<Part, A>,
    pub regions: Vec<Region, A>,
}

impl<A: Allocator> Model for Rows<A> {
    ghost use Rattle.code_map.specs.Counts.{Rows};

    ghost Value = { Rows };

    ghost view = { λ r. record { parts = r.parts.items; regions = r.regions.items } };
}

/// Adds a value, as often as that.
pub(crate) fn push_all<T: Copy, A: Allocator>(
    list: &mut Vec<T, A>,
    count: usize,
    value: T,
) -> Result<(), AllocError>
    ensures { OnOk result (list.new.items ≡ list.old.items ++ replicate count value) }
{
    for _once in 0..count {
        list.push(value)?;
    }
    Ok(())
}

impl<A: Allocator> Rows<A> {
    /// Adds instructions of one part and one region.
    pub fn push(&mut self, count: usize, part: Part, region: Region) -> Result<(), AllocError>
        ensures { OnOk result (self.new ≡ Counts.laid self.old count part region) }
    {
        push_all(&mut self.parts, count, part)?;
        push_all(&mut self.regions, count, region)
    }
}
