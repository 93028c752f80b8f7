//! Node lines.

ghost use Rattle.std.specs.Prelude.{◌≡◌, ℕ, List, nat_le};
ghost use Rattle.graph_file.specs.Giving.{Gives};
ghost use Rattle.graph_file.specs.Nodes.{kind_from, head_from, node_from};

use crate::cause::{Limit, LineCause, ReadCause};
use crate::fields::{field_of, literal_field, name_field, number_field, region, source_fields};
use crate::parts::Parts;
use crate::words::Word;
use graph::{Name, Node};
use semantics::graph::{Kind, Region};
use semantics::version::Version;
use std::alloc::Allocator;

/// The most nodes of a block, inputs counted.
const NODES: usize = 1_024;

/// The region and the word of a node line, and the fields after them, if they are of a form that a line may have.
#[tactic(auto, unfolding(crate::specs::Nodes::head_from))]
fn head_of<'a>(version: Version, fields: Parts<'a>) -> Result<(Region, Word, Parts<'a>), ReadCause>
    ensures { Gives (λ x. (x.0, x.1, x.2)) result (head_from version fields.entry) }
{
    let (field, rest) = field_of(fields)?;
    let Some(region) = region(field) else {
        return Err(ReadCause::BadLine(LineCause::NoRegion));
    };
    let (field, rest) = field_of(rest)?;
    let Some(word) = Word::of(version, field) else {
        return Err(ReadCause::BadLine(LineCause::UnknownKind));
    };
    if !word.expects(&rest) {
        return Err(ReadCause::BadLine(word.misfit(&rest)));
    }
    Ok((region, word, rest))
}

/// What a node does, and the fields after its operands.
#[tactic(auto, unfolding(crate::specs::Nodes::kind_from))]
fn kind_of<'a>(word: Word, fields: Parts<'a>) -> Result<(Kind<Name<'a>>, Parts<'a>), ReadCause>
    ensures { Gives (λ x. (x.0, x.1)) result (kind_from word fields.entry) }
{
    match word {
        Word::Lit => {
            let (value, rest) = literal_field(fields)?;
            Ok((Kind::Lit { value }, rest))
        }
        Word::Apply1(op) => Ok((Kind::Apply1 { op }, fields)),
        Word::Apply2(op) => Ok((Kind::Apply2 { op }, fields)),
        Word::Cond => Ok((Kind::Cond, fields)),
        Word::Enter => Ok((Kind::Enter, fields)),
        Word::Merge => {
            let (cond, rest) = number_field(fields)?;
            Ok((Kind::Merge { cond }, rest))
        }
        Word::Fetch => {
            let (array, rest) = name_field(fields)?;
            Ok((Kind::Fetch { array }, rest))
        }
        Word::Store => {
            let (array, rest) = name_field(fields)?;
            Ok((Kind::Store { array }, rest))
        }
        Word::Call => {
            let (block, rest) = name_field(fields)?;
            Ok((Kind::Call { block }, rest))
        }
        Word::StrictCall => {
            let (block, rest) = name_field(fields)?;
            Ok((Kind::StrictCall { block }, rest))
        }
        Word::Loop => {
            let (block, rest) = name_field(fields)?;
            let (bound, rest) = number_field(rest)?;
            Ok((Kind::Loop { block, bound }, rest))
        }
    }
}

/// The limit that a node line with these fields after its word exceeds.
fn limit_of(word: Word, fields: &Parts<'_>) -> Limit {
    if word.has_room(fields) {
        Limit::Nodes
    } else {
        Limit::Sources
    }
}

/// The node that the fields of a line say, in a block that has this many nodes before it, inputs counted.
#[tactic(auto, unfolding(crate::specs::Nodes::node_from))]
pub(crate) fn node_of<'a, A: Allocator>(
    alloc: A,
    version: Version,
    before: usize,
    fields: Parts<'a>,
) -> Result<Node<'a, A>, ReadCause>
    ensures { Gives (λ n. n) result (node_from version (nat_le 1024 before) fields.entry) }
{
    let (region, word, rest) = head_of(version, fields)?;
    if before >= NODES || !word.has_room(&rest) {
        return Err(ReadCause::TooMany(limit_of(word, &rest)));
    }
    let (kind, rest) = kind_of(word, rest)?;
    let sources = source_fields(alloc, rest)?;
    Ok(Node {
        region,
        kind,
        sources,
    })
}
