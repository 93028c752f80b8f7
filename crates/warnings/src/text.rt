//! The lines of warnings.

use crate::items::add_unused_items;
use crate::scopes::Walk;
use crate::{Kind, Warning};
use graph::Name;
use lowered_text::fault::LowerFault;
use lowered_text::programs::read_good;
use source::program::Program;
use source_tokens::position;
use std::alloc::{AllocError, Allocator};
use std::fmt::{self, Display};

/// The most warnings that are shown.
const SHOWN: usize = 8;

/// A warning as it is shown.
#[derive(Clone, Copy)]
struct Shown<'a> {
    kind: Kind,
    name: &'a str,
    line: usize,
    column: usize,
}

impl Kind {
    /// What is said before the name, and after it.
    fn words(self) -> (&'static str, &'static str) {
        match self {
            Kind::Array => ("the array", "is never used"),
            Kind::Function => ("the function", "is never called"),
            Kind::Parameter => ("the parameter", "is never used"),
            Kind::Bound => ("the name", "is never used"),
            Kind::Hiding => (
                "this",
                "is never used, and hides the loop's name: the next turn gets what the body gives, not what a `let` in it binds",
            ),
            Kind::Carried => ("the loop's name", "is never used"),
        }
    }
}

impl Display for Shown<'_> {
    fn fmt<W: fmt::Write>(&self, f: &mut fmt::Formatter<W>) -> fmt::Result {
        let (before, after) = self.kind.words();
        write!(
            f,
            "warning: line {}, column {}: {} `{}` {}\n",
            self.line, self.column, before, self.name, after
        )
    }
}

/// All warnings of the program, in the order of the text.
fn warnings_of<A: Allocator + Clone>(
    alloc: &A,
    program: &Program<'_, A>,
) -> Result<Vec<Warning, A>, AllocError> {
    let mut walk = Walk::new(alloc)?;
    for word in &program.words {
        walk.step(*word)?;
    }
    let mut warnings = walk.into_warnings();
    add_unused_items(alloc, &program.names, &program.words, &mut warnings)?;
    warnings.sort_unstable_by_key(|warning| warning.at);
    Ok(warnings)
}

/// The name as text.
fn name_at<'t>(names: &[Name<'t>], number: usize) -> &'t str {
    match names.get(number) {
        Some(name) => str::from_utf8(name.bytes).unwrap_or("?"),
        None => "?",
    }
}

/// The lines of the first warnings of a program with this text, at most eight, in the order of the text. There are none where the text has no
/// program that can be lowered.
pub fn warnings_text<A: Allocator + Clone>(
    alloc: &A,
    text: &[u8],
) -> Result<Vec<u8, A>, AllocError> {
    let lines = Vec::new(alloc.clone()?);
    let (named, parts) = match read_good(alloc, text) {
        Ok(good) => good,
        Err(LowerFault::Memory) => return Err(AllocError),
        Err(LowerFault::Program(_refusal)) => return Ok(lines),
    };
    let program = &named.checked.program;
    let warnings = warnings_of(alloc, program)?;
    let mut lines = lines;
    for warning in warnings.iter().take(SHOWN) {
        let place = position(parts.program, warning.at);
        let shown = Shown {
            kind: warning.kind,
            name: name_at(&program.names, warning.name),
            line: place.line,
            column: place.column,
        };
        let line = format!(in alloc.clone()?; "{shown}")?;
        lines.extend_from_slice(line.as_str().as_bytes())?;
    }
    Ok(lines)
}
