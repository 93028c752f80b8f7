//! A graph whose names are looked up.

ghost use Rattle.std.specs.Prelude.{◌≡◌, ◌⊎◌, ℕ, List, [], ◌∷◌, ◌++◌, length, Bool, true, not, None, Some, MatchResult, vec_len, map, slice_get};
ghost use Rattle.semantics.specs.Graph.{place_of, array_names, block_names};
ghost use Rattle.graph_check.specs.Names.{is_name, place_if, names_of_arrays, names_of_blocks, IsIndexOf};
ghost use Rattle.graph_check.specs.Causes.{fault_of};
ghost use Rattle.graph_check.specs.FirstFault.{names_fault, first_in, array_name_fault, block_name_fault, shape_of, shape_in, IsIndexed, out_of_memory};

use crate::causes::{CheckCause, CheckRefusal};
use graph::{Array, Block, Graph, Name};
use std::alloc::{AllocError, Allocator};
use std::collections::BTreeMap;
use std::marker::Model;

/// A map from each name to its place.
type Index<'a, A> = BTreeMap<&'a [u8], usize, A>;

/// Adds a name with its place, if it is not there.
fn add<'a, A: Allocator + Clone>(
    index: &mut Index<'a, A>,
    name: &'a [u8],
    place: usize,
) -> Result<bool, CheckRefusal>
    ensures added { (names : List (List ℕ)) → IsIndexOf index.old names → place ≡ length names
        → MatchResult result (λ new. (new ≡ not (is_name name.entry.now names)) × (new ≡ true → IsIndexOf index.new (names ++ name.entry.now ∷ [])))
        (λ r. fault_of r ≡ out_of_memory) }
{
    match index.insert(name, place) {
        Ok(old) => Ok(old.is_none()),
        Err(_) => Err(CheckRefusal::MEMORY),
    }
}

fn array_name<'a>(array: &Array<'a>) -> &'a [u8]
    ensures { result.now ≡ array.now.0 }
{
    array.name.bytes
}

fn block_name<'a, A: Allocator>(block: &Block<'a, A>) -> &'a [u8]
    ensures { result.now ≡ block.now.0 }
{
    block.name.bytes
}

/// Where each array is, or the first double name.
fn index_arrays<'a, A: Allocator + Clone>(
    arrays: &Vec<Array<'a>, A>,
) -> Result<Index<'a, A>, CheckRefusal>
    ensures { let names = names_of_arrays arrays.now.items in IsIndexed (array_name_fault names) names result }
{
    let Ok(alloc) = arrays.allocator().clone() else {
        return Err(CheckRefusal::MEMORY);
    };
    let mut index = BTreeMap::new(alloc);
    for (i, array) in arrays.iter().enumerate() {
        if !add(&mut index, array_name(array), i)? {
            return Err(CheckRefusal {
                cause: CheckCause::SameName { place: i as u64 },
                block: None,
                node: None,
            });
        }
    }
    Ok(index)
}

/// Where each block is, or the first double name.
fn index_blocks<'a, A: Allocator + Clone>(
    blocks: &Vec<Block<'a, A>, A>,
) -> Result<Index<'a, A>, CheckRefusal>
    ensures { let names = names_of_blocks blocks.now.items in IsIndexed (block_name_fault names) names result }
{
    let Ok(alloc) = blocks.allocator().clone() else {
        return Err(CheckRefusal::MEMORY);
    };
    let mut index = BTreeMap::new(alloc);
    for (i, block) in blocks.iter().enumerate() {
        if !add(&mut index, block_name(block), i)? {
            let place = i as u64;
            return Err(CheckRefusal {
                cause: CheckCause::SameName { place },
                block: Some(place),
                node: None,
            });
        }
    }
    Ok(index)
}

/// The place of a name, if it is there.
fn find<'a, A: Allocator>(index: &Index<'a, A>, name: &Name<'a>) -> Option<usize>
    ensures { (names : List (List ℕ)) → IsIndexOf index.now names → result ≡ place_if name.now names }
{
    index.get(&name.bytes).copied()
}

fn array_count<'a, A: Allocator>(graph: &Graph<'a, A>) -> usize
    ensures { result ≡ length graph.now.arrays }
{
    graph.arrays.len()
}

fn block_count<'a, A: Allocator>(graph: &Graph<'a, A>) -> usize
    ensures { result ≡ length graph.now.blocks }
{
    graph.blocks.len()
}

fn main_of<'b, 'a, A: Allocator>(graph: &'b Graph<'a, A>) -> &'b Name<'a>
    ensures { result.now ≡ graph.now.main }
{
    &graph.main
}

/// How many inputs and outputs the block at that place has.
fn shape_at<'a, A: Allocator>(graph: &Graph<'a, A>, place: usize) -> Option<(u32, u32)>
    ensures { result ≡ shape_in (slice_get graph.now.blocks place) }
{
    let block = graph.blocks.get(place)?;
    Some((block.inputs, block.outputs))
}

/// A graph with different names, and where each is.
#[derive(Drop)]
pub(crate) struct Named<'a, A: Allocator> {
    graph: Graph<'a, A>,
    arrays: Index<'a, A>,
    blocks: Index<'a, A>,
}

impl<'a, A: Allocator> Model for Named<'a, A> {
    ghost use Rattle.semantics.specs.Graph.{Graph, array_names, block_names};

    ghost Value = { Graph };

    ghost use Rattle.graph_check.specs.Names.{IsIndexOf};

    ghost view = { λ n. n.graph };

    ghost invariant = { λ n. IsIndexOf n.arrays (array_names n.graph) × IsIndexOf n.blocks (block_names n.graph) };
}

impl<'a, A: Allocator> Named<'a, A> {
    /// Looks up the names of a graph, or returns the first double name.
    pub(crate) fn of(graph: Graph<'a, A>) -> Result<Named<'a, A>, CheckRefusal>
    where
        A: Clone,
        ensures { MatchResult result (λ n. (n ≡ graph.entry) × (names_fault graph.entry ≡ None))
            (λ r. (fault_of r ≡ out_of_memory) ⊎ (names_fault graph.entry ≡ Some (fault_of r))) }
    {
        let arrays = index_arrays(&graph.arrays)?;
        let blocks = index_blocks(&graph.blocks)?;
        Ok(Named {
            graph,
            arrays,
            blocks,
        })
    }

    pub(crate) fn graph(&self) -> &Graph<'a, A>
        ensures { result.now ≡ self.now }
    {
        &self.graph
    }

    /// An array of that name exists.
    pub(crate) fn has_array(&self, name: &Name<'a>) -> bool
        ensures { result ≡ is_name name.now (array_names self.now) }
    {
        find(&self.arrays, name).is_some()
    }

    /// The place of the array of that name, or the number of arrays.
    pub(crate) fn place_of_array(&self, name: &Name<'a>) -> usize
        ensures { result ≡ place_of name.now (array_names self.now) }
    {
        match find(&self.arrays, name) {
            Some(place) => place,
            None => array_count(&self.graph),
        }
    }

    /// A block of that name exists.
    pub(crate) fn has_block(&self, name: &Name<'a>) -> bool
        ensures { result ≡ is_name name.now (block_names self.now) }
    {
        find(&self.blocks, name).is_some()
    }

    /// The place of the block of that name, or the number of blocks.
    pub(crate) fn place_of_block(&self, name: &Name<'a>) -> usize
        ensures { result ≡ place_of name.now (block_names self.now) }
    {
        match find(&self.blocks, name) {
            Some(place) => place,
            None => block_count(&self.graph),
        }
    }

    /// The block to run exists.
    pub(crate) fn has_main(&self) -> bool
        ensures { result ≡ is_name self.now.main (block_names self.now) }
    {
        self.has_block(main_of(&self.graph))
    }

    /// The place of the block to run, or the number of blocks.
    pub(crate) fn place_of_main(&self) -> usize
        ensures { result ≡ place_of self.now.main (block_names self.now) }
    {
        self.place_of_block(main_of(&self.graph))
    }

    /// How many inputs and outputs the block of that name has.
    pub(crate) fn shape_of(&self, name: &Name<'a>) -> Option<(u32, u32)>
        ensures { result ≡ shape_of self.now name.now }
    {
        shape_at(&self.graph, self.place_of_block(name))
    }
}
