//! What is wrong with a graph that is not well formed, or that has no code.

use crate::blocks::Block;
use crate::catalog::Text;
use crate::lines::{column_of, is, is_line_feed, last_line, line_at, text_at, word_at};
use crate::message::{Found, Special, at_line, window};
use graph_check::{ArityCause, CheckCause, CheckRefusal, NameOf, RegionCause};
use semantics::graph::Source;

/// A cause that is about a source.
fn of_source(cause: Text, source: Source, ports: u32) -> (Text, u64, u64, u64) {
    let (node, port) = (u64::from(source.node), u64::from(source.port));
    (cause, node, port, u64::from(ports))
}

/// A cause that is about this node, or has this number.
fn of_number(cause: Text, number: u32) -> (Text, u64, u64, u64) {
    (cause, u64::from(number), 0, 0)
}

/// The cause of a refusal at a node, or at the line of results.
fn node_cause(cause: CheckCause, is_result: bool) -> (Text, u64, u64, u64) {
    match cause {
        CheckCause::NoSuchName(NameOf::Array) => ("there is no array $2", 0, 0, 0),
        CheckCause::NoSuchName(_) => ("there is no block $2", 0, 0, 0),
        CheckCause::Arity(ArityCause::Outputs { has, wants }) => ("outputs-wanted", has, wants, 0),
        CheckCause::Arity(ArityCause::Inputs { has, wants }) => ("inputs-wanted", has, wants, 0),
        CheckCause::Arity(ArityCause::Looped { inputs, outputs }) => ("looped", inputs, outputs, 0),
        CheckCause::SourceNotEarlier(source) if is_result => of_source("late-result", source, 0),
        CheckCause::SourceNotEarlier(source) => of_source("late-source", source, 0),
        CheckCause::NoSuchPort { source, ports } => of_source("no-port", source, ports),
        CheckCause::BadRegion(RegionCause::NoConditional { cond }) => of_number("no-cond", cond),
        CheckCause::BadRegion(RegionCause::EnterInRoot) => ("enter-in-root", 0, 0, 0),
        CheckCause::BadRegion(RegionCause::MergeElsewhere { cond, .. }) => {
            of_number("merge-elsewhere", cond)
        },
        CheckCause::CrossesRegion { source, .. } => of_source("crossing-source", source, 0),
        CheckCause::OutNotRoot { source, .. } => of_source("result-in-arm", source, 0),
        CheckCause::BadBound(bound) => of_number("a loop's bound k is 2 to 64, and not $c", bound),
        _ => ("kind", 0, 0, 0),
    }
}

/// The regions of a cause, or else its kind.
fn specials_of(refusal: CheckRefusal) -> [Special; 2] {
    match refusal.cause {
        CheckCause::BadRegion(RegionCause::MergeElsewhere { lies, region, .. }) => {
            [Special::Lies(lies), Special::Lies(region)]
        }
        CheckCause::CrossesRegion { lies, wanted, .. } => {
            [Special::Lies(lies), Special::Lies(wanted)]
        }
        CheckCause::OutNotRoot { lies, .. } => [Special::Lies(lies); 2],
        _ => [Special::Checking(refusal.fault().kind); 2],
    }
}

/// Why this node of the block is not in order, or the line of results, whose number is that of nodes.
fn at_node<'a>(text: &'a [u8], block: Block<'a>, node: u64, refusal: CheckRefusal) -> Found<'a> {
    let place = block.line.saturating_add(1).saturating_add(node);
    let place = place.saturating_sub(block.inputs);
    let line = line_at(text, place);
    let is_result = is(text_at(line, 0), "out");
    let (cause, first, second, third) = node_cause(refusal.cause, is_result);
    let words = [block.name, text_at(line, 2)];
    let numbers = [node, place, first, second, third, 0];
    let place = if is_result {
        "in block $1, line $b is `$p`"
    } else {
        "node $a of block $1, line $b, is `$p`"
    };
    let found = Found::of(Some(place), cause, words, [line; 3], numbers);
    found.with(specials_of(refusal))
}

/// A cause at line `number`, whose second word is a name.
fn at_name<'a>(text: &'a [u8], number: u64, cause: Text) -> Found<'a> {
    let line = line_at(text, number);
    let name = word_at(line, 1);
    let seen = window(line, column_of(name, line));
    let parts = [name, name, seen];
    let place = Some(at_line(line, seen));
    Found::of(place, cause, [""; 2], parts, [0, 0, 0, 0, 0, number])
}

/// Why the graph of the text is not well formed.
pub fn graph_fault(text: &[u8], refusal: CheckRefusal) -> Option<Found<'_>> {
    let Some(place) = refusal.block else {
        return Some(match refusal.cause {
            // The arrays are in the lines after the first one.
            CheckCause::SameName { place } => at_name(text, place.saturating_add(2), "same-array"),
            _ => at_name(text, last_line(text), "there is no block $p to be run"),
        });
    };
    let block = Block::of(text, None, place)?;
    Some(match (refusal.node, refusal.cause) {
        (Some(node), _) => at_node(text, block, node, refusal),
        (None, CheckCause::SameName { .. }) => at_name(text, block.line, "same-block"),
        (None, CheckCause::NoInput) => at_name(text, block.line, "a block has at least one input"),
        (None, _) => at_name(text, block.line, "a block has at least one output"),
    })
}

fn is_block(line: &&[u8]) -> bool {
    is(text_at(*line, 0), "block")
}

/// Why the graph of the text has no code, at code block `number`: the plain codes of all blocks come first, then the codes of
/// iterations, one for each block that some loop names.
pub fn code_fault<'a>(text: &'a [u8], number: u64, cause: Text) -> Option<Found<'a>> {
    let blocks = text.split(is_line_feed).filter(is_block).count() as u64;
    let (place, block) = match number.checked_sub(blocks) {
        None => ("at-code-block", Block::of(text, None, number)),
        Some(after) => ("at-iterations", Block::looped(text, after)),
    };
    let words = [block?.name; 2];
    let numbers = [number, 0, 0, 0, 0, 0];
    Some(Found::of(Some(place), cause, words, [b""; 3], numbers))
}
