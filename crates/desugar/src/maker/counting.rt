//! `for`.

ghost use Rattle.std.specs.Prelude.{◌≡◌, ◌++◌, ◌∷◌, [], OnOk, drop, length};
ghost use Rattle.source.specs.declared.word.Word.TheVariants as word;
ghost use Rattle.desugar.specs.Forms as forms;
ghost use Rattle.desugar.specs.declared.frame.Frame.TheVariants as frame;
ghost use Rattle.desugar.specs.Code.{numbers};
ghost use Rattle.desugar.specs.Steps as steps;

use crate::forms::{
    atom_level, push_all_bound, push_all_given, push_all_named, push_atom, push_carried_firsts,
    push_goes_on, push_left_end, push_let, push_or_else, push_right_end,
};
use crate::frame::{Atom, Counting, Finish, Frame, Given};
use crate::maker::atoms::unless_hidden;
use crate::maker::{Maker, next, since};
use crate::meanings::Meanings;
use operators::Binary;
use source::word::{InfixSign, Word};
use std::alloc::{AllocError, Allocator};

/// The head of the loop that a `for` is short for, before the statements of its body: what it carries begins the loop.
fn push_loop_begins<A: Allocator>(
    words: &mut Vec<Word<usize>, A>,
    counting: Counting<usize>,
    first: Atom<usize>,
    names: &[Given<usize>],
    firsts: &[Atom<usize>],
    hidden: usize,
) -> Result<(), AllocError>
    ensures { OnOk result (words.new.items ≡ words.old.items ++ steps.loop_begins counting first names.now firsts.now hidden) }
{
    let Counting {
        at,
        bound_at,
        bound,
        counter_at,
        counter,
        ..
    } = counting;
    words.push(Word::Loop { at })?;
    words.push(Word::Bound {
        at: bound_at,
        bound,
    })?;
    words.push(Word::Start {
        at: counter_at,
        name: counter,
    })?;
    push_atom(words, first)?;
    words.push(Word::First)?;
    push_carried_firsts(words, names, firsts)?;
    words.push(Word::BodyFirst)?;
    let one_more = [
        Word::Name { at, name: counter },
        Word::Left,
        Word::Number { at, number: 1 },
        Word::Infix {
            at,
            sign: InfixSign::Direct { op: Binary::Add },
        },
    ];
    push_let(words, at, hidden, &one_more)
}

/// The `let` of what a `for` carries, which takes all that the loop gives but its counter.
fn push_where_it_goes<A: Allocator>(
    words: &mut Vec<Word<usize>, A>,
    at: usize,
    names: &[Given<usize>],
) -> Result<(), AllocError>
    ensures { OnOk result (words.new.items ≡ words.old.items ++ steps.where_it_goes at names.now) }
{
    if !names.is_empty() {
        words.push(Word::Let { at })?;
        words.push(Word::Drop)?;
        push_all_bound(words, at, names)?;
    }
    words.push(Word::List)?;
    Ok(())
}

/// The test whether there is some turn.
fn push_some_turn<A: Allocator>(
    words: &mut Vec<Word<usize>, A>,
    counting: Counting<usize>,
    first: Atom<usize>,
    end: Atom<usize>,
) -> Result<(), AllocError>
    ensures { OnOk result (words.new.items ≡ words.old.items ++ steps.some_turn counting first end) }
{
    push_atom(words, first)?;
    push_left_end(words, Binary::Lt, atom_level(first))?;
    push_atom(words, end)?;
    push_right_end(words, counting.at, Binary::Lt, atom_level(end))?;
    words.push(Word::Then)?;
    Ok(())
}

/// What the body of the loop gives besides its own values: the counter's next value.
fn what_is_next(at: usize, hidden: usize, names: &[Given<usize>]) -> Finish<usize>
    ensures { result ≡ steps.what_is_next at hidden names.now }
{
    let value = Atom::Name { at, name: hidden };
    if names.is_empty() {
        Finish::Giving { value }
    } else {
        Finish::First { value }
    }
}

/// What is after the turns of a `for` that carries something.
fn push_after_carried<A: Allocator>(
    words: &mut Vec<Word<usize>, A>,
    at: usize,
    names: &[Given<usize>],
    firsts: &[Atom<usize>],
) -> Result<(), AllocError>
    ensures { OnOk result (words.new.items ≡ words.old.items ++ (word.Part ∷ word.EndLet at ∷ word.List ∷ forms.all_named at names.now ++ word.Give ∷ word.Else ∷ word.List ∷ forms.all_given firsts.now ++ word.Give ∷ word.EndIf at ∷ [])) }
{
    words.push(Word::Part)?;
    words.push(Word::EndLet { at })?;
    words.push(Word::List)?;
    push_all_named(words, at, names)?;
    words.push(Word::Give)?;
    words.push(Word::Else)?;
    words.push(Word::List)?;
    push_all_given(words, firsts)?;
    words.push(Word::Give)?;
    words.push(Word::EndIf { at })?;
    Ok(())
}

/// What is after the turns.
fn push_after_turns<A: Allocator>(
    words: &mut Vec<Word<usize>, A>,
    counting: Counting<usize>,
    first: Atom<usize>,
    names: &[Given<usize>],
    firsts: &[Atom<usize>],
) -> Result<(), AllocError>
    ensures { OnOk result (words.new.items ≡ words.old.items ++ steps.after_turns counting first names.now firsts.now) }
{
    let at = counting.at;
    match *names {
        [] => {
            words.push(Word::Part)?;
            words.push(Word::Give)?;
            push_or_else(words, at, first)
        }
        [_, ..] => push_after_carried(words, at, names, firsts),
    }
}

/// What is before the statements of a `for`'s body.
#[tactic(auto, using(crate::proofs::Gaps::three_appended))]
fn push_turns<A: Allocator>(
    words: &mut Vec<Word<usize>, A>,
    counting: Counting<usize>,
    first: Atom<usize>,
    end: Atom<usize>,
    names: &[Given<usize>],
    firsts: &[Atom<usize>],
    hidden: usize,
) -> Result<(), AllocError>
    ensures { OnOk result (words.new.items ≡ words.old.items ++ (steps.some_turn counting first end ++ steps.where_it_goes counting.at names.now ++ steps.loop_begins counting first names.now firsts.now hidden)) }
{
    push_some_turn(words, counting, first, end)?;
    push_where_it_goes(words, counting.at, names)?;
    push_loop_begins(words, counting, first, names, firsts, hidden)
}

impl<A: Allocator> Maker<A> {
    pub(super) fn for_opened(&mut self, at: usize) -> Result<(), AllocError>
        ensures { OnOk result (self.new ≡ record self.old { stack = frame.For (length self.old.words) at at 4 ∷ self.old.stack }) }
    {
        let start = self.words.len();
        self.frames.push(Frame::For {
            start,
            at,
            bound_at: at,
            bound: 4,
        })
    }

    pub(super) fn counter(&mut self, at: usize, name: usize) -> Result<(), AllocError>
        ensures { OnOk result (self.new ≡ steps.counter self.old at name self.old.stack) }
    {
        match self.frames.top() {
            Some(
                Frame::For {
                    start,
                    at: for_at,
                    bound_at,
                    bound,
                },
            ) => {
                let counting = Counting {
                    start,
                    at: for_at,
                    bound_at,
                    bound,
                    counter_at: at,
                    counter: name,
                };
                self.frames.replace(1, Frame::From { counting })
            }
            _ => Ok(()),
        }
    }

    /// The first number of the counter ends.
    pub(super) fn range<'a>(&mut self, names: &Meanings<'a, A>) -> Result<(), AllocError>
        ensures { OnOk result (self.new ≡ steps.range (numbers names.now.table.now.entries names.now.count) self.old self.old.stack) }
    {
        match (self.frames.top(), self.frames.second()) {
            (
                Some(
                    Frame::Value {
                        start,
                        at,
                        atom,
                        ..
                    },
                ),
                Some(Frame::From { counting }),
            ) => {
                let value = self.cut(names, start, at, atom)?;
                let first = self.name_made(names, at, value)?;
                self.frames.replace(2, Frame::To { counting, first })
            }
            _ => Ok(()),
        }
    }

    /// The number at which the counter stops ends. `is_carried` says whether it is a name of what the `for` carries.
    pub(super) fn end_range<'a>(
        &mut self,
        names: &Meanings<'a, A>,
        is_carried: bool,
    ) -> Result<(), AllocError>
        ensures { OnOk result (self.new ≡ steps.end_range (numbers names.now.table.now.entries names.now.count) self.old is_carried self.old.stack) }
    {
        match (self.frames.top(), self.frames.second()) {
            (
                Some(
                    Frame::Value {
                        start,
                        at,
                        atom,
                        ..
                    },
                ),
                Some(Frame::To { counting, first }),
            ) => {
                let atom = unless_hidden(names, counting.counter, is_carried, atom);
                let end = self.cut(names, start, at, atom)?;
                let frame = Frame::Over {
                    counting,
                    first,
                    end,
                    names: self.names.len(),
                    firsts: self.firsts.len(),
                };
                self.frames.replace(2, frame)
            }
            _ => Ok(()),
        }
    }

    /// The loop begins that a `for` is short for, with the names and values that it carries after these marks.
    fn turns_opened(
        &mut self,
        counting: Counting<usize>,
        first: Atom<usize>,
        end: Atom<usize>,
        hidden: usize,
        names_mark: usize,
        firsts_mark: usize,
    ) -> Result<(), AllocError>
        ensures { OnOk result (self.new ≡ steps.turns_open self.old counting first end hidden (drop names_mark self.old.names) (drop firsts_mark self.old.firsts) self.old.stack) }
    {
        let carried = since(&self.names, names_mark);
        let firsts = since(&self.firsts, firsts_mark);
        push_turns(
            &mut self.words,
            counting,
            first,
            end,
            carried,
            firsts,
            hidden,
        )?;
        let finish = what_is_next(counting.at, hidden, carried);
        self.given = next(self.given)?;
        self.open_body(0, finish)
    }

    /// The turns begin: the loop, and its body.
    pub(super) fn turns<'a>(&mut self, names: &Meanings<'a, A>) -> Result<(), AllocError>
        ensures { OnOk result (self.new ≡ steps.turns (numbers names.now.table.now.entries names.now.count) self.old self.old.stack) }
    {
        match self.frames.top() {
            Some(
                Frame::Over {
                    counting,
                    first,
                    end,
                    names: names_mark,
                    firsts: firsts_mark,
                },
            ) => {
                let hidden = names.hidden(self.given)?;
                self.turns_opened(counting, first, end, hidden, names_mark, firsts_mark)
            }
            _ => Ok(()),
        }
    }

    pub(super) fn end_for(&mut self) -> Result<(), AllocError>
        ensures { OnOk result (self.new ≡ steps.end_for self.old self.old.stack) }
    {
        match (self.frames.top(), self.frames.second()) {
            (
                Some(Frame::Body { .. }),
                Some(
                    Frame::Over {
                        counting,
                        first,
                        end,
                        names: names_mark,
                        firsts: firsts_mark,
                    },
                ),
            ) => {
                let Counting {
                    start,
                    at,
                    bound,
                    counter,
                    ..
                } = counting;
                let carried = since(&self.names, names_mark);
                let firsts = since(&self.firsts, firsts_mark);
                self.words.push(Word::Until)?;
                push_goes_on(&mut self.words, at, counter, end)?;
                self.words.push(Word::EndLoop { at, bound })?;
                push_after_turns(&mut self.words, counting, first, carried, firsts)?;
                self.names.truncate(names_mark);
                self.firsts.truncate(firsts_mark);
                self.close_as(2, start, at, 9)
            }
            _ => Ok(()),
        }
    }
}
