//! The words of node lines.

ghost use Rattle.std.specs.Prelude.{◌≡◌, ◌+◌, ℕ, length};
ghost use Rattle.graph_file.specs.Words.{operator_of, common_of, word_of, operand_count, source_count, has_form, has_room};

use crate::cause::LineCause;
use crate::parts::Parts;
use operators::{Binary, Unary};
use semantics::version::Version;
use semantics::words::{Operator, operator_of};

/// The most sources of a line.
pub(crate) const SOURCES: usize = 16;

/// The word of a node line.
#[derive(Clone, Copy, Debug, PartialEq, Eq)]
pub(crate) enum Word {
    Lit,
    Apply1(Unary),
    Apply2(Binary),
    Cond,
    Enter,
    Merge,
    Fetch,
    Store,
    Call,
    StrictCall,
    Loop,
}

impl Word {
    #[tactic(auto, unfolding(crate::specs::Words::word_of))]
    /// The word that the bytes are, in a text of that version.
    pub(crate) fn of(version: Version, bytes: &[u8]) -> Option<Word>
        ensures { result ≡ word_of version bytes.now }
    {
        match version {
            Version::Two if bytes == b"scall".as_slice() => Some(Word::StrictCall),
            Version::One | Version::Two => common(bytes),
        }
    }

    /// How many fields are between the word and the sources.
    fn operands(self) -> usize
        ensures { result ≡ operand_count self }
    {
        match self {
            Word::Apply1(_) | Word::Apply2(_) | Word::Cond | Word::Enter => 0,
            Word::Lit | Word::Merge | Word::Fetch | Word::Store | Word::Call | Word::StrictCall =>
                1,
            Word::Loop => 2,
        }
    }

    /// How many sources there are, where the word says it.
    fn sources(self) -> Option<usize>
        ensures { result ≡ source_count self }
    {
        match self {
            Word::Lit | Word::Apply1(_) | Word::Cond | Word::Enter | Word::Fetch => Some(1),
            Word::Apply2(_) | Word::Merge | Word::Store => Some(2),
            Word::Call | Word::StrictCall | Word::Loop => None,
        }
    }

    /// Whether a line may have as many fields as these after the word.
    #[tactic(auto, unfolding(crate::specs::Words::has_form))]
    pub(crate) fn expects(self, fields: &Parts<'_>) -> bool
        ensures { result ≡ has_form self (length fields.now) }
    {
        match self.sources() {
            Some(sources) => fields.has(self.operands() + sources),
            None => !fields.is_below(self.operands()),
        }
    }

    /// What is wrong with as many fields as these after the word, where a line may not have so many.
    pub(crate) fn misfit(self, fields: &Parts<'_>) -> LineCause {
        let has = fields.count();
        match (self.operands(), self.sources()) {
            (0, Some(sources)) => LineCause::Sources {
                has,
                wants: sources as u64,
            },
            _ => LineCause::Operands(has),
        }
    }

    /// Whether these are not more fields than the most sources leave room for.
    #[tactic(auto, unfolding(crate::specs::Words::has_room))]
    pub(crate) fn has_room(self, fields: &Parts<'_>) -> bool
        ensures { result ≡ has_room self (length fields.now) }
    {
        fields.is_below(self.operands() + SOURCES + 1)
    }
}

/// The words of both versions.
#[tactic(auto, unfolding(crate::specs::Words::common_of))]
fn common(bytes: &[u8]) -> Option<Word>
    ensures { result ≡ common_of bytes.now }
{
    if bytes == b"lit".as_slice() {
        Some(Word::Lit)
    } else if bytes == b"cond".as_slice() {
        Some(Word::Cond)
    } else if bytes == b"enter".as_slice() {
        Some(Word::Enter)
    } else if bytes == b"merge".as_slice() {
        Some(Word::Merge)
    } else if bytes == b"fetch".as_slice() {
        Some(Word::Fetch)
    } else if bytes == b"store".as_slice() {
        Some(Word::Store)
    } else if bytes == b"call".as_slice() {
        Some(Word::Call)
    } else if bytes == b"loop".as_slice() {
        Some(Word::Loop)
    } else {
        operator(bytes)
    }
}

/// The words of the operators.
#[tactic(auto, unfolding(crate::specs::Words::operator_of))]
fn operator(bytes: &[u8]) -> Option<Word>
    ensures { result ≡ operator_of bytes.now }
{
    match operator_of(bytes)? {
        Operator::One(op) => Some(Word::Apply1(op)),
        Operator::Two(op) => Some(Word::Apply2(op)),
    }
}
