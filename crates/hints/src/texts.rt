//! What is wrong with the text of a graph, for each cause of a refusal.

use crate::catalog::{Text, found};
use crate::fields::{literal_fault, name_fault, number_fault, source_part};
use crate::lines::{column_of, is, line_at, text_of, word_at};
use crate::message::{Counted, Found, at_line, window};
use graph_file::{
    FieldPlace, Limit, LineCause, NumberCause, ReadCause, ReadRefusal, Unended, literal,
};
use semantics::words::operator_of;

/// The cause for a text whose first line is not the header of a graph.
fn header_cause(first: &[u8]) -> Text {
    match text_of(first) {
        "etsgraph 1" | "etsgraph 2" => "no-line-feed",
        _ if first.starts_with(&[0xef, 0xbb, 0xbf]) => "byte-order-mark",
        _ if first.ends_with(b"\r") => "return-in-graph",
        _ => "a graph begins with the line `etsgraph 1` or `etsgraph 2`",
    }
}

/// The cause for the byte at this place, which no line may contain, its column and the byte.
fn byte_cause(place: FieldPlace, line: &[u8]) -> Counted {
    let column = place.column(line);
    let place = column.saturating_sub(1) as usize;
    let byte = line.get(place).copied().unwrap_or(0);
    let text = match byte {
        b'\r' if column == line.len() as u64 => "return-in-graph",
        b'\t' => "column $a has a tab: one space separates two fields",
        _ => "column $a has byte $b: a line is of the bytes 32 to 126",
    };
    (text, column, u64::from(byte))
}

/// The form of lines that begin with this word, or of the lines of nodes of this kind.
fn form_of(word: &str) -> Option<Text> {
    found("outer/", word).or(found("node/", word))
}

/// The cause for a line inside a block that begins with this word, which is no region.
fn region_cause(word: &[u8]) -> Text {
    let text = text_of(word);
    if is(text, "end") {
        "the `out` line of block $q comes before its `end`"
    } else if found("outer/", text).is_some() {
        "block $q is open here: before `$p` come its `out` line and `end`"
    } else if form_of(text).is_some() || operator_of(word).is_some() {
        "a node line begins with its region, in the root `-`: `- $p ..`"
    } else {
        "`$p` is no region: that is `-`, or `K+` or `K-` for an arm of the conditional at node K"
    }
}

/// The cause for a line of no form that is allowed there, of which this part is wrong, and its numbers.
fn line_cause(cause: LineCause, line: &[u8], part: &[u8]) -> Counted {
    if line.is_empty() || line.starts_with(b"#") {
        return ("a graph has no empty lines and no comments", 0, 0);
    }
    let text = match cause {
        LineCause::Byte(place) => return byte_cause(place, line),
        LineCause::Space(place) => return ("spacing", place.column(line), 0),
        LineCause::Fields(has) | LineCause::Operands(has) => return ("form", has, 0),
        LineCause::Sources { has, wants } => return ("sources", has, wants),
        LineCause::UnknownKind if is(text_of(part), "scall") => "strict-call",
        LineCause::UnknownKind => "unknown-kind",
        LineCause::NoKind => "after the region comes the kind of the node, as in `- add 0.0 1.0`",
        LineCause::NoItem => "no-block-yet",
        LineCause::NoBlock if is(text_of(part), "array") => "late-array",
        LineCause::NoBlock => "no-block-open",
        LineCause::NoEnd => "after the `out` line of block $q comes the line `end`",
        LineCause::NoRegion => region_cause(part),
    };
    (text, 0, 0)
}

/// The cause for a field that is not what is wanted there, of which this part is wrong.
fn number_cause(cause: NumberCause, line: &[u8], part: &[u8]) -> Text {
    match cause {
        NumberCause::Literal(_) => literal_fault(part),
        NumberCause::Source(place) if part.len() == place.field(line).len() => "no-source",
        NumberCause::Number(_) | NumberCause::Source(_) => number_fault(part),
        NumberCause::NoCells => "an array has at least one cell",
    }
}

/// The cause for a limit that is passed.
fn limit_cause(limit: Limit) -> Text {
    match limit {
        Limit::Arrays => "the limit of 64 arrays is passed",
        Limit::Cells => "the limit of 65536 cells, of one array and of all of them, is passed",
        Limit::Blocks => "the limit of 256 blocks is passed",
        Limit::Ports => "the limit of 16 inputs or outputs of a block is passed",
        Limit::Nodes => "the limit of 1024 nodes of a block, inputs counted, is passed",
        Limit::Sources => "the limit of 16 sources of a line is passed",
    }
}

/// The cause of a refusal at this line, of which this part is wrong, and its numbers.
fn cause_of(cause: ReadCause, line: &[u8], part: &[u8]) -> Counted {
    let text = match cause {
        ReadCause::NoHeader => header_cause(line),
        ReadCause::BadLine(cause) => return line_cause(cause, line, part),
        ReadCause::BadNumber(cause) => number_cause(cause, line, part),
        ReadCause::BadName(_) => name_fault(part),
        ReadCause::TooMany(limit) => limit_cause(limit),
        ReadCause::Unended(Unended::Line) => "no-line-feed",
        ReadCause::Unended(Unended::Nodes) => "unended-nodes",
        ReadCause::Unended(Unended::Block) => "unended-block",
        ReadCause::TrailingText if literal(line).is_some() => "inputs-begin",
        ReadCause::TrailingText => "the `main` line is the last one of a graph",
        ReadCause::NoMain | ReadCause::Memory => "main-missing",
    };
    (text, part.len() as u64, 0)
}

/// The part of the line that is wrong.
fn part_of(cause: ReadCause, line: &[u8]) -> &[u8] {
    match cause {
        ReadCause::BadNumber(NumberCause::Source(place)) => source_part(place.field(line)),
        ReadCause::BadNumber(NumberCause::Number(place) | NumberCause::Literal(place))
        | ReadCause::BadName(place) => place.field(line),
        ReadCause::BadLine(
            LineCause::Operands(_) | LineCause::Sources { .. } | LineCause::UnknownKind,
        ) => word_at(line, 1),
        _ => word_at(line, 0),
    }
}

/// Why `text` is not the text of a graph. `command` is the command that was asked for.
pub fn text_fault<'a>(refusal: ReadRefusal, text: &'a [u8], command: &'a str) -> Found<'a> {
    let line = line_at(text, refusal.line);
    let head = line_at(text, refusal.head.unwrap_or(u64::MAX));
    let part = part_of(refusal.cause, line);
    let (cause, first, second) = cause_of(refusal.cause, line, part);
    let column = match refusal.cause {
        ReadCause::BadLine(LineCause::Byte(_) | LineCause::Space(_)) => first,
        _ => column_of(part, line),
    };
    let seen = window(line, column);
    let words = [form_of(text_of(part)).unwrap_or(""), command];
    let parts = [part, word_at(head, 1), seen];
    let numbers = [first, second, 0, 0, 0, refusal.line];
    let place = match refusal.cause {
        ReadCause::Unended(Unended::Nodes | Unended::Block) | ReadCause::NoMain => None,
        _ => Some(at_line(line, seen)),
    };
    Found::of(place, cause, words, parts, numbers)
}
