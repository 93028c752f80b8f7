//! One word after another.

ghost use Rattle.std.specs.Prelude.{◌≡◌, ◌∷◌, [], OnOk};
ghost use Rattle.desugar.specs.declared.frame.Finish.TheVariants as finish;
ghost use Rattle.desugar.specs.Code.{numbers};
ghost use Rattle.desugar.specs.Steps as steps;

use crate::frame::Finish;
use crate::maker::Maker;
use crate::meanings::Meanings;
use source::word::Word as CoreWord;
use std::alloc::{AllocError, Allocator};
use surface::word::Word;

impl<A: Allocator> Maker<A> {
    /// A word that the core has, too.
    fn core_step<'a>(
        &mut self,
        names: &Meanings<'a, A>,
        flag: bool,
        word: CoreWord<usize>,
    ) -> Result<(), AllocError>
        ensures { OnOk result (self.new ≡ steps.core_step (numbers names.now.table.now.entries names.now.count) self.old flag word) }
    {
        match word {
            CoreWord::Array { at, name } => self.array_opened(at, name),
            CoreWord::Length { .. } => Ok(()),
            CoreWord::Body { at } => self.function_opened(at),
            CoreWord::EndFunction => self.end_function(),
            CoreWord::Number { at, number } => self.written(at, number),
            CoreWord::Name { at, name } => self.named(at, name, names.constant(name)),
            CoreWord::Bracket => self.bracket(),
            CoreWord::Prefix { at, op } => self.prefix(at, op),
            CoreWord::Infix { at, sign } => self.infix_ended(at, sign),
            CoreWord::Cell { .. } | CoreWord::Callee { .. } => self.opened(word),
            CoreWord::Fetch { at, .. } => self.cell_ended(word, at, 9),
            CoreWord::Index => self.passed(word),
            CoreWord::Store { at, .. } => self.cell_ended(word, at, 0),
            CoreWord::Call { at, .. } => self.call_ended(word, at),
            CoreWord::Then => self.first_arm(names, flag),
            CoreWord::Else => self.second_arm(),
            CoreWord::EndIf { at } => self.end_if(at),
            CoreWord::Loop { at } => self.loop_opened(at),
            CoreWord::Bound { at, bound } => self.bound(at, bound),
            CoreWord::Start { at, name } => self.start_named(at, name),
            CoreWord::First => self.first(names),
            CoreWord::TestFirst => self.test_opened(word, 0),
            CoreWord::While => self.body_after_test(),
            CoreWord::BodyFirst => self.body_opened(word),
            CoreWord::Until => self.until(),
            CoreWord::EndLoop { at, bound } => self.end_loop(at, bound),
            CoreWord::Part => self.part(flag),
            CoreWord::EndLet { .. } | CoreWord::Do => self.statement_ended(&[word]),
            CoreWord::Give => self.given(),
            CoreWord::Chain => self.chain(),
            CoreWord::Function { .. }
            | CoreWord::Parameter { .. }
            | CoreWord::Results { .. }
            | CoreWord::Left
            | CoreWord::List
            | CoreWord::Let { .. }
            | CoreWord::Bind { .. }
            | CoreWord::Drop => self.said(word),
        }
    }

    /// A body begins with this word.
    fn body_opened(&mut self, word: CoreWord<usize>) -> Result<(), AllocError>
        ensures { OnOk result (self.new ≡ steps.body_opened self.old (word ∷ []) finish.Plain self.old.stack) }
    {
        self.words.push(word)?;
        self.open_body(0, Finish::Plain)
    }

    /// A word with its flag.
    pub(crate) fn step<'a>(
        &mut self,
        names: &Meanings<'a, A>,
        flag: bool,
        word: Word<usize>,
    ) -> Result<(), AllocError>
        ensures { OnOk result (self.new ≡ steps.step (numbers names.now.table.now.entries names.now.count) self.old flag word) }
    {
        match word {
            Word::Core { word } => self.core_step(names, flag, word),
            Word::AndThen => self.and_then(names, flag),
            Word::EndAnd { at } => self.end_and(at),
            Word::OrElse => self.or_then(names),
            Word::EndOr { at } => self.end_or(at),
            Word::Not { at } => self.not_ended(at),
            Word::ConstantBound { at, name } => self.bound(at, names.number(name)),
            Word::EndConstantLoop { at, name } => self.end_loop(at, names.number(name)),
            Word::For { at } => self.for_opened(at),
            Word::Counter { at, name } => self.counter(at, name),
            Word::Range => self.range(names),
            Word::EndRange => self.end_range(names, flag),
            Word::Turns => self.turns(names),
            Word::EndFor { .. } => self.end_for(),
            Word::EndWhen { at } => self.end_when(at),
            Word::When => self.when_ended(),
            Word::ConstantResults { at, name } => self.said(CoreWord::Results {
                at,
                number: names.number(name),
            }),
            Word::EndArray => self.end_array(names),
            Word::Constant { .. } => self.constant_opened(),
            Word::EndConstant => self.end_constant(),
            Word::ArrayParameter { .. } | Word::NextIndex => Ok(()),
        }
    }
}
