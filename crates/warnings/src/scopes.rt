//! Names of values that nothing uses.

use crate::{Kind, Warning};
use source::word::Word;
use std::alloc::{AllocError, Allocator};

/// A name that has a value where the walk is.
#[derive(Clone, Copy)]
struct Binding {
    warning: Warning,
    is_used: bool,
}

/// What a scope is of.
#[derive(Clone, Copy, PartialEq, Eq)]
enum ScopeKind {
    /// The body of a function or of a loop, or an arm.
    Body,
    /// The names of a loop.
    Names,
}

/// A scope that is open: how many names are around it.
#[derive(Clone, Copy)]
struct Scope {
    kind: ScopeKind,
    around: usize,
}

/// The walk over the words of a program.
#[derive(Drop)]
pub(crate) struct Walk<A: Allocator> {
    /// The names that have values, from the outermost scope to the innermost.
    bindings: Vec<Binding, A>,
    scopes: Vec<Scope, A>,
    /// Names that will have values when their `let` ends, or the first values of their loop.
    waiting: Vec<Warning, A>,
    /// How many wait for those around, for each `let` and each loop that is open.
    waits: Vec<usize, A>,
    warnings: Vec<Warning, A>,
}

impl<A: Allocator + Clone> Walk<A> {
    pub(crate) fn new(alloc: &A) -> Result<Walk<A>, AllocError> {
        Ok(Walk {
            bindings: Vec::new(alloc.clone()?),
            scopes: Vec::new(alloc.clone()?),
            waiting: Vec::new(alloc.clone()?),
            waits: Vec::new(alloc.clone()?),
            warnings: Vec::new(alloc.clone()?),
        })
    }

    pub(crate) fn into_warnings(self) -> Vec<Warning, A> {
        self.warnings
    }

    fn open(&mut self, kind: ScopeKind) -> Result<(), AllocError> {
        self.scopes.push(Scope {
            kind,
            around: self.bindings.len(),
        })?;
        Ok(())
    }

    fn bind(&mut self, kind: Kind, name: usize, at: usize) -> Result<(), AllocError> {
        self.bindings.push(Binding {
            warning: Warning { kind, name, at },
            is_used: false,
        })?;
        Ok(())
    }

    /// Whether the name would be that of a loop, if the binding at this place were not there.
    fn hides(&self, place: usize, name: usize) -> bool {
        let outer = self.bindings.iter().take(place);
        let hidden = outer.rev().find(|outer| outer.warning.name == name);
        hidden.is_some_and(|outer| outer.warning.kind == Kind::Carried)
    }

    /// The warning of the binding at this place, if nothing uses it.
    fn warning_at(&self, place: usize) -> Option<Warning> {
        let binding = self.bindings.get(place)?;
        let warning = binding.warning;
        if binding.is_used {
            return None;
        }
        if warning.kind == Kind::Bound && self.hides(place, warning.name) {
            return Some(Warning {
                kind: Kind::Hiding,
                ..warning
            });
        }
        Some(warning)
    }

    /// Closes the innermost scope. Gives what it was of.
    fn close(&mut self) -> Result<Option<ScopeKind>, AllocError> {
        let Some(scope) = self.scopes.pop() else {
            return Ok(None);
        };
        for place in scope.around..self.bindings.len() {
            if let Some(warning) = self.warning_at(place) {
                self.warnings.push(warning)?;
            }
        }
        self.bindings.truncate(scope.around);
        Ok(Some(scope.kind))
    }

    /// Closes the scope of a loop's names, and that of its body, if it is open.
    fn close_loop(&mut self) -> Result<(), AllocError> {
        match self.close()? {
            Some(ScopeKind::Body) => {
                let _names = self.close()?;
                Ok(())
            }
            Some(ScopeKind::Names) | None => Ok(()),
        }
    }

    /// The names that wait since the innermost `let` or loop began have values.
    fn bind_waiting(&mut self, kind: Kind) -> Result<(), AllocError> {
        let from = self.waits.pop().unwrap_or(0);
        for place in from..self.waiting.len() {
            if let Some(waiting) = self.waiting.get(place).copied() {
                self.bind(kind, waiting.name, waiting.at)?;
            }
        }
        self.waiting.truncate(from);
        Ok(())
    }

    /// The innermost binding of the name is used.
    fn mark_used(&mut self, name: usize) {
        for binding in self.bindings.iter_mut().rev() {
            if binding.warning.name == name {
                binding.is_used = true;
                return;
            }
        }
    }

    /// A turn begins: the names of the loop have values.
    fn begin_turn(&mut self) -> Result<(), AllocError> {
        self.open(ScopeKind::Names)?;
        self.bind_waiting(Kind::Carried)
    }

    fn wait(&mut self, name: usize, at: usize) -> Result<(), AllocError> {
        self.waiting.push(Warning {
            kind: Kind::Bound,
            name,
            at,
        })?;
        Ok(())
    }

    /// A name, or a list of names, begins or ends.
    fn name_step(&mut self, word: Word<usize>) -> Result<(), AllocError> {
        match word {
            Word::Parameter { at, name } => self.bind(Kind::Parameter, name, at),
            Word::Name { name, .. } => {
                self.mark_used(name);
                Ok(())
            }
            Word::Start { at, name } | Word::Bind { at, name } => self.wait(name, at),
            Word::Let { .. } | Word::Loop { .. } => {
                self.waits.push(self.waiting.len())?;
                Ok(())
            }
            Word::EndLet { .. } => self.bind_waiting(Kind::Bound),
            _ => Ok(()),
        }
    }

    /// Goes on by one word.
    pub(crate) fn step(&mut self, word: Word<usize>) -> Result<(), AllocError> {
        match word {
            Word::Function { .. } | Word::Then | Word::While => self.open(ScopeKind::Body),
            Word::Else => {
                let _arm = self.close()?;
                self.open(ScopeKind::Body)
            }
            Word::EndFunction | Word::EndIf { .. } | Word::Until => {
                let _body = self.close()?;
                Ok(())
            }
            Word::TestFirst => self.begin_turn(),
            Word::BodyFirst => {
                self.begin_turn()?;
                self.open(ScopeKind::Body)
            }
            Word::EndLoop { .. } => self.close_loop(),
            _ => self.name_step(word),
        }
    }
}
