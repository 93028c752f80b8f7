//! What is open while words are gone over.

ghost use Rattle.std.specs.Prelude.{◌≡◌};
ghost use Rattle.semantics.specs.declared.graph.Region.TheVariants.{Arm};
ghost use Rattle.lowering.specs.Opened.{is_first};

use crate::made::{Made, MadeBlock};
use crate::names::{NameAt, Target};
use crate::scope::Scope;
use graph::Name;
use semantics::graph::{Region, Source};
use std::alloc::Allocator;
use std::marker::Model;

/// Where a part is: its function, its region, and the first input of the region, for which literals wait.
#[derive(Clone, Copy)]
pub struct Site<'a> {
    pub function: &'a [u8],
    pub region: Region,
    pub trigger: Source,
}

/// The number of the next node of the block, and how many loops of the function were met.
#[derive(Clone, Copy)]
pub struct Spot {
    pub next: u32,
    pub loops: usize,
}

/// The two arms of a conditional.
#[derive(Clone, Copy)]
pub enum Side {
    First,
    Second,
}

impl Side {
    /// The region of this arm of the conditional at a node.
    pub fn arm(self, cond: u32) -> Region
        ensures { result ≡ Arm cond (is_first self) }
    {
        match self {
            Side::First => Region::Arm { cond, side: true },
            Side::Second => Region::Arm { cond, side: false },
        }
    }
}

/// An open conditional: where it is, the sources before its predicate, the predicate's, and its node.
#[derive(Drop)]
pub struct Arms<'a, A: Allocator> {
    pub site: Site<'a>,
    pub scope: Scope<'a, A>,
    pub outer: Vec<Source, A>,
    pub predicate: Vec<Source, A>,
    pub cond: u32,
}

impl<'a, A: Allocator> Model for Arms<'a, A> {
    ghost use Rattle.lowering.specs.State.{Arms};

    ghost Value = { Arms };

    ghost view = { λ a. record {
      site = record { function = a.site.function.now; region = a.site.region; trigger = a.site.trigger };
      scope = a.scope;
      outer = a.outer.items;
      predicate = a.predicate.items;
      cond = a.cond;
    } };
}

/// A loop whose first values are open: the sources before it, its names so far, and the outside names of its turn.
#[derive(Drop)]
pub struct Begun<'a, A: Allocator> {
    pub at: usize,
    pub outer: Vec<Source, A>,
    pub names: Vec<NameAt<'a>, A>,
    pub outs: Vec<Name<'a>, A>,
}

impl<'a, A: Allocator> Model for Begun<'a, A> {
    ghost use Rattle.lowering.specs.State.{Begun};

    ghost Value = { Begun };

    ghost view = { λ b. record { at = b.at; outer = b.outer.items; names = b.names.items; outs = b.outs.items } };
}

/// A loop whose turn is open: in addition, its first values, where it is, what its block and the loops before it have, and the name of
/// the turn's block.
#[derive(Drop)]
pub struct Turning<'a, A: Allocator> {
    pub begun: Begun<'a, A>,
    pub firsts: Vec<Source, A>,
    pub site: Site<'a>,
    pub spot: Spot,
    pub scope: Scope<'a, A>,
    pub nodes: Vec<Made<'a, A>, A>,
    pub blocks: Vec<MadeBlock<'a, A>, A>,
    /// The name of the turn's block.
    pub block: Name<'a>,
}

impl<'a, A: Allocator> Model for Turning<'a, A> {
    ghost use Rattle.std.specs.Prelude.{◌≡◌, ◌+◌};
    ghost use Rattle.source.specs.Lowered.{loop_name};
    ghost use Rattle.lowering.specs.State.{Turning};

    ghost Value = { Turning };

    ghost view = { λ t. record {
      at = t.begun.at;
      outer = t.begun.outer;
      names = t.begun.names;
      outs = t.begun.outs;
      firsts = t.firsts.items;
      site = record { function = t.site.function.now; region = t.site.region; trigger = t.site.trigger };
      spot = record { next = t.spot.next; loops = t.spot.loops };
      scope = t.scope;
      nodes = t.nodes.items;
      blocks = t.blocks.items;
    } };

    ghost invariant = { λ t. t.block ≡ loop_name t.site.function.now (t.spot.loops + 1) };
}

/// A function that is open: its name, and its parameters so far.
#[derive(Drop)]
pub struct Header<'a, A: Allocator> {
    pub function: NameAt<'a>,
    pub params: Vec<NameAt<'a>, A>,
}

impl<'a, A: Allocator> Model for Header<'a, A> {
    ghost use Rattle.std.specs.Prelude.{List};
    ghost use Rattle.source.specs.Tree.{NameAt};

    ghost Value = { NameAt × List NameAt };

    ghost view = { λ h. (h.function, h.params.items) };
}

/// A conditional whose second arm is open, with the values of the first.
#[derive(Drop)]
pub struct SecondArm<'a, A: Allocator> {
    pub arms: Arms<'a, A>,
    pub left: Vec<Source, A>,
}

impl<'a, A: Allocator> Model for SecondArm<'a, A> {
    ghost use Rattle.std.specs.Prelude.{List};
    ghost use Rattle.semantics.specs.declared.graph.Source.{Source};
    ghost use Rattle.lowering.specs.State.{Arms};

    ghost Value = { Arms × List Source };

    ghost view = { λ s. (s.arms, s.left.items) };
}

/// What ends with a loop: the arm after its test, or its test after a body with these values.
#[derive(Drop)]
pub enum LoopEnd<'a, A: Allocator> {
    Arm { arms: Arms<'a, A> },
    Test { values: Vec<Source, A> },
}

/// What is open.
#[derive(Drop)]
pub enum Open<'a, A: Allocator> {
    /// A function.
    Header { header: Header<'a, A> },
    /// A list: the sources before it.
    InList { outer: Vec<Source, A> },
    /// A `let`: its targets so far.
    Targets { targets: Vec<Target<'a>, A> },
    /// The first arm of a conditional.
    FirstArm { arms: Arms<'a, A> },
    /// The second arm.
    Right { second: SecondArm<'a, A> },
    /// The first values of a loop.
    Firsts { begun: Begun<'a, A> },
    /// The turn of a loop.
    Turned { turn: Turning<'a, A> },
    /// Within a turn: the arm after a test.
    Looping { arms: Arms<'a, A> },
    /// Within a turn: the test after a body, with the body's values.
    Ending { values: Vec<Source, A> },
}

/// A part that is open.
#[derive(Drop)]
pub struct Frame<'a, A: Allocator> {
    pub open: Open<'a, A>,
}

impl<'a, A: Allocator> Model for Frame<'a, A> {
    ghost use Rattle.lowering.specs.State.{Frame};
    ghost use Rattle.lowering.specs.Opened.{frame_of};

    ghost Value = { Frame };

    ghost view = { λ f. frame_of f.open };
}
