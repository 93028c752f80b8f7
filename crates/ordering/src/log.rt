//! What an element keeps of its blocks while it runs.

ghost use Rattle.std.specs.Prelude.{◌≡◌, ℕ, suc, IfOk, OnOk};
ghost use Rattle.ordering.specs.Noted.{noted_in, nothing, with_event, with_made, with_block, HasRoom};

use std::alloc::{AllocError, Allocator};
use tags::token::Token;

/// How many events a block has, how many tokens of the pool it spent, and how many it made there.
#[derive(Clone, Copy, Debug, PartialEq, Eq)]
pub struct Counts {
    pub events: usize,
    pub spent: usize,
    pub made: usize,
}

/// The blocks of one element, in their order. Each spent the oldest tokens that its element had, so the tokens that it spent are the
/// first ones that its events took.
#[derive(Drop)]
pub struct BlockLog<A: Allocator> {
    /// The token that each event took, block after block.
    pub taken: Vec<Token, A>,
    /// The tokens that the blocks made, block after block.
    pub made: Vec<Token, A>,
    /// The blocks that ended.
    pub blocks: Vec<Counts, A>,
}

impl<A: Allocator> BlockLog<A> {
    /// A log of no events. It takes no memory.
    pub fn new(alloc: A) -> Result<BlockLog<A>, AllocError>
    where
        A: Clone,
        ensures { IfOk result (λ log. noted_in log ≡ nothing) }
    {
        Ok(BlockLog {
            taken: Vec::new(alloc.clone()?),
            made: Vec::new(alloc.clone()?),
            blocks: Vec::new(alloc),
        })
    }

    /// Makes room for that number of events, made tokens and blocks. After an error it notes what it did before.
    pub fn reserve(&mut self, events: usize, made: usize, blocks: usize) -> Result<(), AllocError>
        ensures same { noted_in self.new ≡ noted_in self.old }
        ensures room { OnOk result (HasRoom events made blocks self.new) }
    {
        self.taken.reserve(events)?;
        self.made.reserve(made)?;
        self.blocks.reserve(blocks)
    }

    /// Notes the token that the next event took.
    #[inline(always)]
    pub fn note_event(&mut self, token: Token)
        requires { HasRoom 1 0 0 self.old }
        ensures noted { noted_in self.new ≡ with_event (noted_in self.old) token }
        ensures room { (events made blocks : ℕ) → HasRoom (suc events) made blocks self.old → HasRoom events made blocks self.new }
    {
        self.taken.push_reserved(token);
    }

    /// Notes a token that the block made.
    #[inline(always)]
    pub fn note_made(&mut self, token: Token)
        requires { HasRoom 0 1 0 self.old }
        ensures noted { noted_in self.new ≡ with_made (noted_in self.old) token }
        ensures room { (events made blocks : ℕ) → HasRoom events (suc made) blocks self.old → HasRoom events made blocks self.new }
    {
        self.made.push_reserved(token);
    }

    /// Ends a block, which has that number of the last events and made tokens.
    pub fn end_block(&mut self, counts: Counts)
        requires { HasRoom 0 0 1 self.old }
        ensures noted { noted_in self.new ≡ with_block (noted_in self.old) counts }
        ensures room { (events made blocks : ℕ) → HasRoom events made (suc blocks) self.old → HasRoom events made blocks self.new }
    {
        self.blocks.push_reserved(counts);
    }
}
