//! The fields of a line: numbers, literals, names, sources and regions.

ghost use Rattle.std.specs.Prelude.{◌≡◌, ℕ, List};
ghost use Rattle.std.specs.List.{list_all};
ghost use Rattle.std.specs.Char.{is_ascii_digit};
ghost use Rattle.graph_file.specs.Giving.{Gives};
ghost use Rattle.graph_file.specs.Fields.{is_numeral, number_of, is_literal, literal_of, is_letter, is_name_rest, is_name, source_of, region_of};
ghost use Rattle.graph_file.specs.Fields.{field_from, number_from, literal_from, name_from, sources_from};

use crate::cause::{LineCause, NumberCause, ReadCause};
use crate::parts::Parts;
use graph::Name;
use semantics::graph::{Region, Source};
use std::alloc::Allocator;

/// Whether the bytes are digits, without leading zeros.
#[tactic(auto, unfolding(crate::specs::Fields::is_numeral))]
fn is_numeral(bytes: &[u8]) -> bool
    ensures { result ≡ is_numeral bytes.now }
{
    match bytes {
        [] => false,
        [first, rest @ ..] => are_digits(bytes) && (*first != b'0' || rest.is_empty()),
    }
}

fn are_digits(bytes: &[u8]) -> bool
    ensures { result ≡ list_all is_ascii_digit bytes.now }
{
    bytes.iter().all(|b| b.is_ascii_digit())
}

/// A number below 2 ^ 32, in digits without leading zeros.
#[tactic(auto, unfolding(crate::specs::Fields::number_of))]
pub fn number(bytes: &[u8]) -> Option<u32>
    ensures { result ≡ number_of bytes.now }
{
    if !is_numeral(bytes) {
        return None;
    }
    str::from_utf8(bytes).ok()?.parse().ok()
}

/// Whether the bytes are a number, or `-` and a number other than 0.
#[tactic(auto, unfolding(crate::specs::Fields::is_literal))]
fn is_literal(bytes: &[u8]) -> bool
    ensures { result ≡ is_literal bytes.now }
{
    let Some((first, digits)) = bytes.split_first() else {
        return false;
    };
    if *first == b'-' {
        is_numeral(digits) && digits != b"0".as_slice()
    } else {
        is_numeral(bytes)
    }
}

/// A number, or `-` and a number other than 0, within an `i64`.
#[tactic(auto, unfolding(crate::specs::Fields::literal_of))]
pub fn literal(bytes: &[u8]) -> Option<i64>
    ensures { result ≡ literal_of bytes.now }
{
    if !is_literal(bytes) {
        return None;
    }
    str::from_utf8(bytes).ok()?.parse().ok()
}

fn is_letter(c: u8) -> bool
    ensures { result ≡ is_letter c }
{
    matches!(c, b'A'..=b'Z' | b'a'..=b'z')
}

#[tactic(auto, unfolding(crate::specs::Fields::is_name))]
/// Whether the bytes are a letter and then letters, digits and `_`, at most 32 in all.
fn is_name(bytes: &[u8]) -> bool
    ensures { result ≡ is_name bytes.now }
{
    match bytes {
        [] => false,
        [first, rest @ ..] => { is_letter(*first) && are_name_rest(rest) && rest.len() < 32 }
    }
}

fn is_name_rest(c: u8) -> bool
    ensures { result ≡ is_name_rest c }
{
    is_letter(c) || matches!(c, b'0'..=b'9' | b'_')
}

fn are_name_rest(bytes: &[u8]) -> bool
    ensures { result ≡ list_all is_name_rest bytes.now }
{
    bytes.iter().all(|c| is_name_rest(*c))
}

#[tactic(auto, unfolding(crate::specs::Fields::source_of))]
/// A node's number and a port's, with a dot between.
fn source(bytes: &[u8]) -> Option<Source>
    ensures { result ≡ source_of bytes.now }
{
    let (node, rest) = Parts::of(bytes, b'.').split_first()?;
    let (port, rest) = rest.split_first()?;
    if !rest.has(0) {
        return None;
    }
    Some(Source {
        node: number(node)?,
        port: number(port)?,
    })
}

#[tactic(auto, unfolding(crate::specs::Fields::region_of))]
/// `-` for the root, or a cond node's number and `+` or `-` for one of its arms.
pub(crate) fn region(bytes: &[u8]) -> Option<Region>
    ensures { result ≡ region_of bytes.now }
{
    if bytes == b"-".as_slice() {
        return Some(Region::Root);
    }
    let (last, front) = bytes.split_last()?;
    let side = match *last {
        b'+' => true,
        b'-' => false,
        _ => return None,
    };
    let cond = number(front)?;
    Some(Region::Arm { cond, side })
}

/// The first field, and the fields after it. The one field that may be missing is the kind of a node: each line has a first one, and
/// a line with too few fields for its form is refused before they are read.
#[tactic(auto, unfolding(crate::specs::Fields::field_from))]
pub(crate) fn field_of<'a>(fields: Parts<'a>) -> Result<(&'a [u8], Parts<'a>), ReadCause>
    ensures { Gives (λ x. (x.0.now, x.1)) result (field_from fields.entry) }
{
    match fields.split_first() {
        Some((field, rest)) => Ok((field, rest)),
        None => Err(ReadCause::BadLine(LineCause::NoKind)),
    }
}

/// A number, and the fields after it.
#[tactic(auto, unfolding(crate::specs::Fields::number_from))]
pub(crate) fn number_field<'a>(fields: Parts<'a>) -> Result<(u32, Parts<'a>), ReadCause>
    ensures { Gives (λ x. (x.0, x.1)) result (number_from fields.entry) }
{
    let (field, rest) = field_of(fields)?;
    let Some(n) = number(field) else {
        let place = rest.place_of(field);
        return Err(ReadCause::BadNumber(NumberCause::Number(place)));
    };
    Ok((n, rest))
}

/// A literal, and the fields after it.
#[tactic(auto, unfolding(crate::specs::Fields::literal_from))]
pub(crate) fn literal_field<'a>(fields: Parts<'a>) -> Result<(i64, Parts<'a>), ReadCause>
    ensures { Gives (λ x. (x.0, x.1)) result (literal_from fields.entry) }
{
    let (field, rest) = field_of(fields)?;
    let Some(z) = literal(field) else {
        let place = rest.place_of(field);
        return Err(ReadCause::BadNumber(NumberCause::Literal(place)));
    };
    Ok((z, rest))
}

/// A name, and the fields after it.
#[tactic(auto, unfolding(crate::specs::Fields::name_from))]
pub(crate) fn name_field<'a>(fields: Parts<'a>) -> Result<(Name<'a>, Parts<'a>), ReadCause>
    ensures { Gives (λ x. (x.0, x.1)) result (name_from fields.entry) }
{
    let (field, rest) = field_of(fields)?;
    if !is_name(field) {
        return Err(ReadCause::BadName(rest.place_of(field)));
    }
    Ok((Name { bytes: field }, rest))
}

/// The sources that the fields are.
pub(crate) fn source_fields<A: Allocator>(
    alloc: A,
    fields: Parts<'_>,
) -> Result<Vec<Source, A>, ReadCause>
    ensures { Gives (λ v. v.items) result (sources_from fields.entry) }
{
    let mut sources = Vec::new(alloc);
    let mut rest = fields;
    while let Some((field, after)) = rest.split_first() {
        let Some(source) = source(field) else {
            let place = after.place_of(field);
            return Err(ReadCause::BadNumber(NumberCause::Source(place)));
        };
        sources.push(source)?;
        rest = after;
    }
    Ok(sources)
}
