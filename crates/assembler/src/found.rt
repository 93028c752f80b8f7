//! What was read of a listing so far.

ghost use Rattle.std.specs.Prelude.{◌≡◌, Ok};
ghost use Rattle.assembler.specs.Giving.{Gives};
ghost use Rattle.assembler.specs.Grammar.{with_literal};
ghost use Rattle.assembler.specs.Reading as Lines;

use crate::cause::{AsmCause, AsmLineCause};
use crate::lines::{array_from, block_from, head_from, instr_from, literal_from, word_from};
use crate::words::Words;
use code::{Code, CodeBlock, Program};
use disassembler::literal_of;
use std::alloc::Allocator;
use std::collections::BTreeSet;
use std::marker::Model;

/// Which part of a listing the last line belongs to.
#[derive(Clone, Copy, Debug, PartialEq, Eq)]
pub(crate) enum Part {
    /// No line was read.
    Head,
    /// The first line.
    Start,
    /// The lines of blocks and instructions.
    Blocks,
    Arrays,
    Literals,
}

/// What was read so far.
#[derive(Drop)]
pub(crate) struct Found<A: Allocator> {
    alloc: A,
    version: u32,
    main: u32,
    /// Up to the last one.
    blocks: Vec<CodeBlock<A>, A>,
    /// The last one.
    last: CodeBlock<A>,
    arrays: Vec<u32, A>,
    /// Of the lines of the table.
    literals: Vec<i64, A>,
    /// Of the instructions.
    used: BTreeSet<i64, A>,
}

impl<A: Allocator> Model for Found<A> {
    ghost use Rattle.assembler.specs.Found.{Found};

    ghost Value = { Found };

    ghost view = { λ f. record {
      version = f.version;
      main = f.main;
      blocks = f.blocks.items;
      last = f.last;
      arrays = f.arrays.items;
      literals =
          f.literals.items;
      used = f.used.keys;
    } };
}

/// A version and a code.
#[derive(Drop)]
pub(crate) struct Said<A: Allocator> {
    pub(crate) version: u32,
    pub(crate) code: Code<A>,
}

type Step<A> = Result<(Found<A>, Part), AsmCause>;

/// A block without instructions.
fn blank<A: Allocator>(alloc: A) -> CodeBlock<A>
    ensures { result ≡ Lines.blank }
{
    CodeBlock {
        inputs: 0,
        outputs: 0,
        slots: 0,
        instrs: Vec::new(alloc),
    }
}

/// The literals of a set, in ascending order.
fn in_order<A: Allocator + Clone>(alloc: A, set: BTreeSet<i64, A>) -> Result<Vec<i64, A>, AsmCause>
    ensures { Gives (λ v. v.items) result (Ok set.keys) }
{
    let mut literals = Vec::with_capacity(alloc, set.len())?;
    for literal in set {
        literals.push(literal)?;
    }
    Ok(literals)
}

/// The set with this literal, if there is one.
fn with_literal<A: Allocator + Clone>(
    set: BTreeSet<i64, A>,
    literal: Option<i64>,
) -> Result<BTreeSet<i64, A>, AsmCause>
    ensures { Gives (λ s. s.keys) result (Ok (with_literal literal set.keys)) }
{
    let mut set = set;
    if let Some(literal) = literal {
        set.insert(literal)?;
    }
    Ok(set)
}

impl<A: Allocator + Clone> Found<A> {
    /// Nothing yet.
    pub(crate) fn nothing(alloc: A) -> Result<Found<A>, AsmCause>
        ensures { Gives (λ f. f) result (Ok Lines.nothing) }
    {
        Ok(Found {
            version: 0,
            main: 0,
            blocks: Vec::new(alloc.clone()?),
            last: blank(alloc.clone()?),
            arrays: Vec::new(alloc.clone()?),
            literals: Vec::new(alloc.clone()?),
            used: BTreeSet::new(alloc.clone()?),
            alloc,
        })
    }

    /// One line.
    #[tactic(auto, unfolding(crate::specs::Reading::line_from))]
    pub(crate) fn line(self, part: Part, words: Words<'_>) -> Step<A>
        ensures { Gives (λ x. (x.0, x.1)) result (Lines.line_from self part words.entry) }
    {
        let all = words.again();
        match words.split_first() {
            None => Ok((self, part)),
            Some(_) => self.step(part, all),
        }
    }

    /// A line by its words.
    #[tactic(auto, unfolding(crate::specs::Reading::step))]
    fn step(self, part: Part, words: Words<'_>) -> Step<A>
        ensures { Gives (λ x. (x.0, x.1)) result (Lines.step self part words.entry) }
    {
        let all = words.again();
        let (word, rest) = word_from(words)?;
        if word == b"block".as_slice() {
            self.block_line(part, rest)
        } else if word == b"array".as_slice() {
            if !takes_array(part) {
                return Err(AsmCause::BadLine(misplaced(part)));
            }
            self.array_line(rest)
        } else if word == b"literal".as_slice() {
            if !takes_literal(part) {
                return Err(AsmCause::BadLine(misplaced(part)));
            }
            self.literal_line(rest)
        } else {
            self.other_line(part, all)
        }
    }

    #[tactic(auto, unfolding(crate::specs::Reading::head_line))]
    fn head_line(mut self, words: Words<'_>) -> Step<A>
        ensures { Gives (λ x. (x.0, x.1)) result (Lines.head_line self words.entry) }
    {
        let (version, main) = match head_from(words) {
            Ok(head) => head,
            Err(cause) => return Err(cause.at_head()),
        };
        self.version = version;
        self.main = main;
        Ok((self, Part::Start))
    }

    #[tactic(auto, unfolding(crate::specs::Reading::first_block))]
    fn first_block(mut self, words: Words<'_>) -> Step<A>
        ensures { Gives (λ x. (x.0, x.1)) result (Lines.first_block self words.entry) }
    {
        let block = block_from(self.alloc.clone()?, 0, words)?;
        self.last = block;
        Ok((self, Part::Blocks))
    }

    #[tactic(auto, unfolding(crate::specs::Reading::next_block))]
    fn next_block(self, words: Words<'_>) -> Step<A>
        ensures { Gives (λ x. (x.0, x.1)) result (Lines.next_block self words.entry) }
    {
        let next = block_from(self.alloc.clone()?, self.blocks.len() as u64 + 1, words)?;
        let Found {
            alloc,
            version,
            main,
            mut blocks,
            last,
            arrays,
            literals,
            used,
        } = self;
        blocks.push(last)?;
        let found = Found {
            alloc,
            version,
            main,
            blocks,
            last: next,
            arrays,
            literals,
            used,
        };
        Ok((found, Part::Blocks))
    }

    #[tactic(auto, unfolding(crate::specs::Reading::block_line))]
    fn block_line(self, part: Part, words: Words<'_>) -> Step<A>
        ensures { Gives (λ x. (x.0, x.1)) result (Lines.block_line self part words.entry) }
    {
        match part {
            Part::Start => self.first_block(words),
            Part::Blocks => self.next_block(words),
            Part::Head | Part::Arrays | Part::Literals => {
                Err(AsmCause::BadLine(misplaced(part)))
            }
        }
    }

    #[tactic(auto, unfolding(crate::specs::Reading::array_line))]
    fn array_line(mut self, words: Words<'_>) -> Step<A>
        ensures { Gives (λ x. (x.0, x.1)) result (Lines.array_line self words.entry) }
    {
        let len = array_from(self.arrays.len() as u64, words)?;
        self.arrays.push(len)?;
        Ok((self, Part::Arrays))
    }

    #[tactic(auto, unfolding(crate::specs::Reading::literal_line))]
    fn literal_line(mut self, words: Words<'_>) -> Step<A>
        ensures { Gives (λ x. (x.0, x.1)) result (Lines.literal_line self words.entry) }
    {
        let literal = literal_from(self.literals.len() as u64, words)?;
        self.literals.push(literal)?;
        Ok((self, Part::Literals))
    }

    #[tactic(auto, unfolding(crate::specs::Reading::instr_line))]
    fn instr_line(self, words: Words<'_>) -> Step<A>
        ensures { Gives (λ x. (x.0, x.1)) result (Lines.instr_line self words.entry) }
    {
        let Found {
            alloc,
            version,
            main,
            blocks,
            last,
            arrays,
            literals,
            used,
        } = self;
        let CodeBlock {
            inputs,
            outputs,
            slots,
            mut instrs,
        } = last;
        let instr = instr_from(alloc.clone()?, instrs.len() as u64, words)?;
        let used = with_literal(used, literal_of(instr.op))?;
        instrs.push(instr)?;
        let found = Found {
            alloc,
            version,
            main,
            blocks,
            last: CodeBlock {
                inputs,
                outputs,
                slots,
                instrs,
            },
            arrays,
            literals,
            used,
        };
        Ok((found, Part::Blocks))
    }

    #[tactic(auto, unfolding(crate::specs::Reading::other_line))]
    fn other_line(self, part: Part, words: Words<'_>) -> Step<A>
        ensures { Gives (λ x. (x.0, x.1)) result (Lines.other_line self part words.entry) }
    {
        match part {
            Part::Head => self.head_line(words),
            Part::Blocks => self.instr_line(words),
            Part::Start | Part::Arrays | Part::Literals => {
                Err(AsmCause::BadLine(misplaced(part)))
            }
        }
    }

    /// The code, if a text may end here.
    #[tactic(auto, unfolding(crate::specs::Reading::end_from))]
    pub(crate) fn end(self, part: Part) -> Result<Said<A>, AsmCause>
        ensures { Gives (λ r. (r.version, r.code)) result (Lines.end_from self part) }
    {
        match part {
            Part::Head | Part::Start => Err(AsmCause::Unended),
            Part::Blocks | Part::Arrays => self.with_used(),
            Part::Literals => self.with_table(),
        }
    }

    /// The code with the literals that its instructions use.
    fn with_used(self) -> Result<Said<A>, AsmCause>
        ensures { Gives (λ r. (r.version, r.code)) result (Ok (Lines.code_with self self.used)) }
    {
        let Found {
            alloc,
            version,
            main,
            mut blocks,
            last,
            arrays,
            literals: _,
            used,
        } = self;
        blocks.push(last)?;
        let literals = in_order(alloc, used)?;
        Ok(said_of(version, main, blocks, arrays, literals))
    }

    /// The code with the table that the listing has.
    fn with_table(self) -> Result<Said<A>, AsmCause>
        ensures { Gives (λ r. (r.version, r.code)) result (Ok (Lines.code_with self self.literals)) }
    {
        let Found {
            alloc: _,
            version,
            main,
            mut blocks,
            last,
            arrays,
            literals,
            used: _,
        } = self;
        blocks.push(last)?;
        Ok(said_of(version, main, blocks, arrays, literals))
    }
}

/// A version and a code of these parts.
fn said_of<A: Allocator>(
    version: u32,
    main: u32,
    blocks: Vec<CodeBlock<A>, A>,
    arrays: Vec<u32, A>,
    literals: Vec<i64, A>,
) -> Said<A>
    ensures version { result.version ≡ version }
    ensures code { result.code ≡ record { program = record { blocks = blocks.items; arrays = arrays.items; main = main }; literals = literals.items } }
{
    let program = Program {
        blocks,
        arrays,
        main,
    };
    Said {
        version,
        code: Code { program, literals },
    }
}

/// What is wrong with a line that may not come after one of this part.
fn misplaced(part: Part) -> AsmLineCause {
    match part {
        Part::Head => AsmLineCause::NoHead,
        Part::Start | Part::Blocks | Part::Arrays | Part::Literals => AsmLineCause::Misplaced,
    }
}

fn takes_array(part: Part) -> bool
    ensures { result ≡ Lines.takes_array part }
{
    matches!(part, Part::Blocks | Part::Arrays)
}

fn takes_literal(part: Part) -> bool
    ensures { result ≡ Lines.takes_literal part }
{
    matches!(part, Part::Blocks | Part::Arrays | Part::Literals)
}
