//! The lines of a text, one at a time.

ghost use Rattle.std.specs.Prelude.{◌≡◌, ◌+◌, ◌≤◌, ℕ, List, [], Ok, IfOk, false, length, true};
ghost use Rattle.graph_file.specs.Giving.{Gives};
ghost use Rattle.graph_file.specs.Reading.{len_from, count_from, array_line, block_line, main_line, out_line, node_line, outside, inside, closing};
ghost use Rattle.graph_file.specs.Reading.{fields_from, line_from, end_from};

use crate::cause::{Limit, LineCause, NumberCause, ReadCause, Unended};
use crate::fields::{field_of, name_field, number_field, source_fields};
use crate::nodes::node_of;
use crate::parts::{FieldPlace, Parts, is_line, is_printed};
use crate::whole::Whole;
use crate::words::SOURCES;
use graph::{Array, Block, Name};
use semantics::version::Version;
use std::alloc::Allocator;
use std::marker::Model;

/// The most arrays of a graph.
const ARRAYS: usize = 64;
/// The most cells of all arrays.
const CELLS: u64 = 65_536;
/// The most blocks of a graph.
const BLOCKS: usize = 256;
/// The most inputs, and the most outputs, of a block.
const PORTS: u32 = 16;

/// Where in a graph the next line is.
#[derive(Drop)]
pub(crate) enum Place<B, N> {
    /// Outside a block, before the first one.
    Arrays,
    /// Outside a block, after the first one.
    Blocks,
    /// In this block, before its `out` line.
    Nodes(B),
    /// In this block, after its `out` line.
    Closing(B),
    /// After the `main` line, which has this name.
    Done(N),
}

impl<'a, A: Allocator> Place<Block<'a, A>, Name<'a>> {
    /// The number of the line with which the block begins that is open at the line of this number.
    pub(crate) fn head(&self, line: u64) -> Option<u64> {
        match self {
            Place::Nodes(block) => Some(line.saturating_sub(lines_before_out(block))),
            Place::Closing(block) => {
                Some(
                    line.saturating_sub(lines_before_out(block))
                        .saturating_sub(1),
                )
            }
            Place::Arrays | Place::Blocks | Place::Done(_) => None,
        }
    }
}

/// How many lines of the block come before its `out` line.
fn lines_before_out<'a, A: Allocator>(block: &Block<'a, A>) -> u64 {
    (block.nodes.len() as u64).saturating_add(1)
}

/// What was found so far.
#[derive(Drop)]
pub(crate) struct Found<'a, A: Allocator> {
    alloc: A,
    version: Version,
    arrays: Vec<Array<'a>, A>,
    /// Of all arrays.
    cells: u64,
    blocks: Vec<Block<'a, A>, A>,
}

impl<'a, A: Allocator> Model for Found<'a, A> {
    ghost use Rattle.graph_file.specs.Found.{Found};

    ghost Value = { Found };

    ghost view = { λ f. record { version = f.version; arrays = f.arrays.items; cells = f.cells; blocks = f.blocks.items } };
}

type Step<'a, A> = Result<(Found<'a, A>, Place<Block<'a, A>, Name<'a>>), ReadCause>;

/// How many bytes of a line are before the first space that does not separate two fields; all but one where that is the last byte.
fn before_space(line: &[u8]) -> usize {
    let mut fresh = true;
    for (at, b) in line.iter().enumerate() {
        if *b == b' ' && fresh {
            return at;
        }
        fresh = *b == b' ';
    }
    line.len().saturating_sub(1)
}

/// What is wrong with a line that is not fields with one space between them.
fn ill_spaced(line: &[u8]) -> LineCause {
    match line.iter().position(|b| !is_printed(*b)) {
        Some(at) => LineCause::Byte(FieldPlace::after(at, line)),
        None => LineCause::Space(FieldPlace::after(before_space(line), line)),
    }
}

/// The fields of a line.
#[tactic(auto, unfolding(crate::specs::Reading::fields_from))]
fn fields_of(line: &[u8]) -> Result<Parts<'_>, ReadCause>
    ensures { Gives (λ x. x) result (fields_from line.now) }
{
    if !is_line(line) {
        return Err(ReadCause::BadLine(ill_spaced(line)));
    }
    Ok(Parts::of(line, b' '))
}

/// A length that keeps all cells within their limit, and the fields after it.
#[tactic(auto, unfolding(crate::specs::Reading::len_from))]
fn len_field<'a>(cells: u64, fields: Parts<'a>) -> Result<(u32, Parts<'a>), ReadCause>
    ensures given { Gives (λ x. (x.0, x.1)) result (len_from cells fields.entry) }
    ensures small { IfOk result (λ x. cells + x.0 ≤ 65536) }
{
    let (len, rest) = number_field(fields)?;
    if len == 0 {
        return Err(ReadCause::BadNumber(NumberCause::NoCells));
    }
    if cells.saturating_add(u64::from(len)) > CELLS {
        return Err(ReadCause::TooMany(Limit::Cells));
    }
    Ok((len, rest))
}

/// A number of inputs or of outputs, and the fields after it.
#[tactic(auto, unfolding(crate::specs::Reading::count_from))]
fn count_field<'a>(fields: Parts<'a>) -> Result<(u32, Parts<'a>), ReadCause>
    ensures { Gives (λ x. (x.0, x.1)) result (count_from fields.entry) }
{
    let (n, rest) = number_field(fields)?;
    if n > PORTS {
        return Err(ReadCause::TooMany(Limit::Ports));
    }
    Ok((n, rest))
}

impl<'a, A: Allocator + Clone> Found<'a, A> {
    /// Nothing yet, in a text of that version.
    pub(crate) fn new(alloc: A, version: Version) -> Result<Found<'a, A>, ReadCause>
        ensures { Gives (λ x. x) result (Ok record { version = version; arrays = []; cells = 0; blocks = [] }) }
    {
        Ok(Found {
            arrays: Vec::new(alloc.clone()?),
            blocks: Vec::new(alloc.clone()?),
            alloc,
            version,
            cells: 0,
        })
    }

    /// One line.
    #[tactic(auto, unfolding(crate::specs::Reading::line_from))]
    pub(crate) fn line(self, place: Place<Block<'a, A>, Name<'a>>, line: &'a [u8]) -> Step<'a, A>
        ensures { Gives (λ x. (x.0, x.1)) result (line_from self.entry place.entry line.now) }
    {
        match place {
            Place::Arrays => self.first_outside(fields_of(line)?),
            Place::Blocks => self.outside(fields_of(line)?),
            Place::Nodes(block) => self.inside(block, fields_of(line)?),
            Place::Closing(block) => self.closing(block, fields_of(line)?),
            Place::Done(_) => Err(ReadCause::TrailingText),
        }
    }

    /// A line before the first block.
    #[tactic(auto, unfolding(crate::specs::Reading::outside))]
    fn first_outside(self, fields: Parts<'a>) -> Step<'a, A>
        ensures { Gives (λ x. (x.0, x.1)) result (outside true self.entry fields.entry) }
    {
        let all = fields.again();
        let (word, rest) = field_of(fields)?;
        if word == b"array".as_slice() {
            self.array_line(rest)
        } else {
            self.outside(all)
        }
    }

    /// A line outside a block, after the first one, or one that is not about an array.
    #[tactic(auto, unfolding(crate::specs::Reading::outside))]
    fn outside(self, fields: Parts<'a>) -> Step<'a, A>
        ensures { Gives (λ x. (x.0, x.1)) result (outside false self.entry fields.entry) }
    {
        let (word, rest) = field_of(fields)?;
        if word == b"block".as_slice() {
            self.block_line(rest)
        } else if word == b"main".as_slice() {
            self.main_line(rest)
        } else if self.blocks.is_empty() {
            Err(ReadCause::BadLine(LineCause::NoItem))
        } else {
            Err(ReadCause::BadLine(LineCause::NoBlock))
        }
    }

    #[tactic(auto, unfolding(crate::specs::Reading::array_line))]
    fn array_line(mut self, fields: Parts<'a>) -> Step<'a, A>
        ensures { Gives (λ x. (x.0, x.1)) result (array_line self.entry fields.entry) }
    {
        if !fields.has(2) {
            return Err(ReadCause::BadLine(LineCause::Fields(fields.count())));
        }
        if self.arrays.len() >= ARRAYS {
            return Err(ReadCause::TooMany(Limit::Arrays));
        }
        let (name, rest) = name_field(fields)?;
        let (len, _) = len_field(self.cells, rest)?;
        self.arrays.push(Array { name, len })?;
        self.cells += u64::from(len);
        Ok((self, Place::Arrays))
    }

    #[tactic(auto, unfolding(crate::specs::Reading::block_line))]
    fn block_line(self, fields: Parts<'a>) -> Step<'a, A>
        ensures { Gives (λ x. (x.0, x.1)) result (block_line self.entry fields.entry) }
    {
        if !fields.has(3) {
            return Err(ReadCause::BadLine(LineCause::Fields(fields.count())));
        }
        if self.blocks.len() >= BLOCKS {
            return Err(ReadCause::TooMany(Limit::Blocks));
        }
        let (name, rest) = name_field(fields)?;
        let (inputs, rest) = count_field(rest)?;
        let (outputs, _) = count_field(rest)?;
        let nodes = Vec::new(self.alloc.clone()?);
        let results = Vec::new(self.alloc.clone()?);
        let block = Block {
            name,
            inputs,
            outputs,
            nodes,
            results,
        };
        Ok((self, Place::Nodes(block)))
    }

    #[tactic(auto, unfolding(crate::specs::Reading::main_line))]
    fn main_line(self, fields: Parts<'a>) -> Step<'a, A>
        ensures { Gives (λ x. (x.0, x.1)) result (main_line self.entry fields.entry) }
    {
        if !fields.has(1) {
            return Err(ReadCause::BadLine(LineCause::Fields(fields.count())));
        }
        let (name, _) = name_field(fields)?;
        Ok((self, Place::Done(name)))
    }

    /// A line in a block, up to its `out` line.
    #[tactic(auto, unfolding(crate::specs::Reading::inside))]
    fn inside(self, block: Block<'a, A>, fields: Parts<'a>) -> Step<'a, A>
        ensures { Gives (λ x. (x.0, x.1)) result (inside self.entry block.entry fields.entry) }
    {
        let all = fields.again();
        let (word, rest) = field_of(fields)?;
        if word == b"out".as_slice() {
            self.out_line(block, rest)
        } else {
            self.node_line(block, all)
        }
    }

    #[tactic(auto, unfolding(crate::specs::Reading::out_line))]
    fn out_line(self, mut block: Block<'a, A>, fields: Parts<'a>) -> Step<'a, A>
        ensures { Gives (λ x. (x.0, x.1)) result (out_line self.entry block.entry fields.entry) }
    {
        if !fields.is_below(SOURCES + 1) {
            return Err(ReadCause::TooMany(Limit::Sources));
        }
        block.results = source_fields(self.alloc.clone()?, fields)?;
        Ok((self, Place::Closing(block)))
    }

    #[tactic(auto, unfolding(crate::specs::Reading::node_line))]
    fn node_line(self, mut block: Block<'a, A>, fields: Parts<'a>) -> Step<'a, A>
        ensures { Gives (λ x. (x.0, x.1)) result (node_line self.entry block.entry fields.entry) }
    {
        let before = block.inputs as usize + block.nodes.len();
        let node = node_of(self.alloc.clone()?, self.version, before, fields)?;
        block.nodes.push(node)?;
        Ok((self, Place::Nodes(block)))
    }

    /// The line after a block's `out` line.
    #[tactic(auto, unfolding(crate::specs::Reading::closing))]
    fn closing(mut self, block: Block<'a, A>, fields: Parts<'a>) -> Step<'a, A>
        ensures { Gives (λ x. (x.0, x.1)) result (closing self.entry block.entry fields.entry) }
    {
        let (word, rest) = field_of(fields)?;
        if word != b"end".as_slice() || !rest.has(0) {
            return Err(ReadCause::BadLine(LineCause::NoEnd));
        }
        self.blocks.push(block)?;
        Ok((self, Place::Blocks))
    }

    /// What the text says, if it is whole: nothing is after the last line feed.
    #[tactic(auto, unfolding(crate::specs::Reading::end_from))]
    pub(crate) fn end(
        self,
        place: Place<Block<'a, A>, Name<'a>>,
        rest: &[u8],
    ) -> Result<Whole<'a, A>, ReadCause>
        ensures { Gives (λ x. x) result (end_from self.entry place.entry rest.now) }
    {
        match (place, rest) {
            (Place::Done(main), []) => {
                let Found {
                    alloc: _,
                    version,
                    arrays,
                    cells: _,
                    blocks,
                } = self;
                Ok(Whole {
                    version,
                    arrays,
                    blocks,
                    main,
                })
            }
            (Place::Done(_), _) => Err(ReadCause::TrailingText),
            (Place::Arrays | Place::Blocks, []) => Err(ReadCause::NoMain),
            (Place::Nodes(_), []) => Err(ReadCause::Unended(Unended::Nodes)),
            (Place::Closing(_), []) => Err(ReadCause::Unended(Unended::Block)),
            _ => Err(ReadCause::Unended(Unended::Line)),
        }
    }
}
