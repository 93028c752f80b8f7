//! The machine over the words of a program.

ghost use Rattle.std.specs.Prelude.{◌≡◌, ◌∷◌, [], ℕ, List, IfOk, OnOk, slice_index_or};
ghost use Rattle.source.specs.Lowered.{only, source_in};
ghost use Rattle.source.specs.Words as words;
ghost use Rattle.source.specs.Tree as tree;
ghost use Rattle.lowering.specs.State.{after, noted};
ghost use Rattle.lowering.specs.Functions.{between};
ghost use Rattle.lowering.specs.Machine as state;
ghost use Rattle.lowering.specs.Numbered.{act_numbered, run_numbered};

use crate::frame::{Site, Spot};
use crate::frames::Frames;
use crate::loop_names::LoopName;
use crate::machine::Machine;
use crate::names::{NameAt, Target, name_of, nameless};
use crate::plan::Plan;
use crate::scope::Scope;
use graph::Name;
use semantics::graph::{Kind, Region, Source};
use source::word::Word;
use std::alloc::{AllocError, Allocator};
use std::collections::VecDeque;

/// The names of a program, and how many results each function has, by the number of its name.
#[derive(Clone, Copy)]
pub struct Names<'s, 'a> {
    pub names: &'s [Name<'a>],
    pub results: &'s [u64],
}

impl<'s, 'a> Names<'s, 'a> {
    fn name(self, n: usize) -> Name<'a>
        ensures { result ≡ words.name_of self.entry.names.now n }
    {
        Name {
            bytes: name_of(self.names, n),
        }
    }

    fn name_at(self, at: usize, n: usize) -> NameAt<'a>
        ensures { result ≡ record { at = at; name = words.name_of self.entry.names.now n } }
    {
        NameAt {
            at,
            name: name_of(self.names, n),
        }
    }

    /// How many results a function has.
    fn results(self, n: usize) -> u64
        ensures { result ≡ slice_index_or self.entry.results.now n 0 }
    {
        match self.results.get(n) {
            Some(results) => *results,
            None => 0,
        }
    }
}

impl<'a, A: Allocator + Clone> Machine<'a, A> {
    /// Nothing is open, and nothing made.
    pub fn new(
        alloc: &A,
        plans: VecDeque<Plan<'a, A>, A>,
        loops: VecDeque<LoopName<'a>, A>,
    ) -> Result<Machine<'a, A>, AllocError>
        ensures { IfOk result (λ m. m ≡ between plans.entry.items []) }
    {
        Ok(Machine {
            site: Site {
                function: nameless(),
                region: Region::Root,
                trigger: Source { node: 0, port: 0 },
            },
            spot: Spot { next: 0, loops: 0 },
            scope: Scope::new(alloc)?,
            sources: Vec::new(alloc.clone()?),
            number: false,
            nodes: Vec::new(alloc.clone()?),
            blocks: Vec::new(alloc.clone()?),
            plans,
            frames: Frames::new(alloc.clone()?),
            done: Vec::new(alloc.clone()?),
            loops,
            alloc: alloc.clone()?,
        })
    }

    /// What a name stands for.
    #[tactic(auto, using(crate::proofs::Nodes::only_more))]
    fn name(&mut self, name: &'a [u8]) -> Result<(), AllocError>
        ensures { OnOk result (self.new ≡ after self.old (only (source_in self.old.scope name.now ∷ []))) }
    {
        let source = self.scope.source(name);
        self.give(source)
    }

    /// One word, without the note whether it is a number.
    fn act(&mut self, names: Names<'_, 'a>, word: Word<usize>) -> Result<(), AllocError>
        ensures { OnOk result (self.new ≡ act_numbered names.entry.names.now names.entry.results.now word self.old) }
    {
        match word {
            Word::Function { at, name } => self.begin_function(names.name_at(at, name)),
            Word::Parameter { at, name } => self.add_parameter(names.name_at(at, name)),
            Word::Body { .. } => self.begin_body(),
            Word::EndFunction => self.end_function(),
            Word::Number { at, number } => self.literal(at, number),
            Word::Name { name, .. } => self.name(name_of(names.names, name)),
            Word::Prefix { at, op } => self.prefix(at, op),
            Word::Infix { at, sign } => self.infix(at, sign),
            Word::Fetch { at, array } => {
                let array = names.name(array);
                self.operate(at, Kind::Fetch { array }, 1)
            }
            Word::Store { at, array } => {
                let array = names.name(array);
                self.operate(at, Kind::Store { array }, 2)
            }
            Word::Call {
                at,
                strict: false,
                function,
            } => {
                let block = names.name(function);
                self.call(at, Kind::Call { block }, names.results(function))
            }
            Word::Call {
                at,
                strict: true,
                function,
            } => {
                let block = names.name(function);
                self.call(at, Kind::StrictCall { block }, names.results(function))
            }
            Word::Then => self.begin_if(),
            Word::Else => self.begin_else(),
            Word::EndIf { at } => self.end_if(at),
            Word::Loop { at } => self.begin_loop(at),
            Word::Start { at, name } => self.add_name(names.name_at(at, name)),
            Word::TestFirst | Word::BodyFirst => self.begin_turn(),
            Word::While => self.begin_while(),
            Word::Until => self.begin_test(),
            Word::EndLoop { at, bound } => self.end_loop(at, bound),
            Word::List => self.begin_list(),
            Word::Let { .. } => self.begin_let(),
            Word::Bind { at, name } => self.add_target(Target {
                to: Some(names.name_at(at, name)),
            }),
            Word::Drop => self.add_target(Target { to: None }),
            Word::EndLet { .. } => self.end_let(),
            Word::Do => {
                self.drop_list();
                Ok(())
            }
            Word::Give => self.give_list(),
            _ => Ok(()),
        }
    }

    /// One word.
    fn step(&mut self, names: Names<'_, 'a>, word: Word<usize>) -> Result<(), AllocError>
        ensures { OnOk result (self.new ≡ noted (state.is_number (words.named names.entry.names.now word))
            (act_numbered names.entry.names.now names.entry.results.now word self.old)) }
    {
        self.act(names, word)?;
        self.number = is_number(word);
        Ok(())
    }

    /// All words.
    pub fn run(&mut self, names: Names<'_, 'a>, words: &[Word<usize>]) -> Result<(), AllocError>
        ensures { OnOk result (self.new ≡ run_numbered names.entry.names.now names.entry.results.now self.old words.now) }
    {
        for &word in words {
            self.step(names, word)?;
        }
        Ok(())
    }
}

/// Whether a word is a number.
fn is_number(word: Word<usize>) -> bool
    ensures { (names : List tree.Name) → result ≡ state.is_number (words.named names word) }
{
    match word {
        Word::Number { .. } => true,
        _ => false,
    }
}
