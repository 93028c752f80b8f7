//! The parts of a text: its lines, a line's fields, a source's numbers.

ghost use Rattle.std.specs.Prelude.{◌≡◌, ◌==◌, ◌∷◌, [], true, length, nat_lt, count_by, MatchOption};
ghost use Rattle.std.specs.List.{position};
ghost use Rattle.graph_file.specs.Lines.{parts, is_printed, is_well_spaced};

use std::marker::Model;

/// The parts of some bytes between those of one value, from the first that was not taken. Contracts see the list of them.
#[derive(Drop)]
pub struct Parts<'a> {
    /// The bytes from the next part on, or None where no part is left.
    rest: Option<&'a [u8]>,
    separator: u8,
}

impl<'a> Model for Parts<'a> {
    ghost use Rattle.std.specs.Prelude.{ℕ, List, option_map};
    ghost use Rattle.graph_file.specs.Lines.{parts_left};

    ghost Value = { List (List ℕ) };

    ghost view = { λ p. parts_left p.separator (option_map (λ x. x.now) p.rest) };
}

impl<'a> Parts<'a> {
    /// The parts of the bytes between those that are the separator.
    pub fn of(bytes: &'a [u8], separator: u8) -> Parts<'a>
        ensures { result ≡ parts separator bytes.now }
    {
        Parts {
            rest: Some(bytes),
            separator,
        }
    }

    /// The same parts once more.
    pub fn again(&self) -> Parts<'a>
        ensures { result ≡ self.now }
    {
        Parts {
            rest: self.rest,
            separator: self.separator,
        }
    }

    /// The first part, and the parts after it. None where no part is left.
    pub fn split_first(self) -> Option<(&'a [u8], Parts<'a>)>
        ensures { MatchOption result (self.entry ≡ []) (λ x. self.entry ≡ x.0.now ∷ x.1) }
    {
        let Parts { rest, separator } = self;
        let bytes = rest?;
        let (part, rest) = match first_of(bytes, separator) {
            None => (bytes, None),
            Some(at) => (&bytes[..at], Some(&bytes[at + 1..])),
        };
        Some((part, Parts { rest, separator }))
    }

    /// The place of this field, where these are the fields after it.
    pub fn place_of(&self, field: &[u8]) -> FieldPlace {
        let rest = match self.rest {
            None => field.len(),
            Some(bytes) => field.len().saturating_add(1).saturating_add(bytes.len()),
        };
        FieldPlace { rest }
    }

    /// How many parts are left.
    pub(crate) fn count(&self) -> u64 {
        match self.rest {
            None => 0,
            Some(bytes) => (count_of(bytes, self.separator) as u64).saturating_add(1),
        }
    }

    /// Whether exactly `n` parts are left.
    #[tactic(auto, using(crate::proofs::Taking::count_parts))]
    pub fn has(&self, n: usize) -> bool
        ensures { result ≡ (length self.now == n) }
    {
        match self.rest {
            None => n == 0,
            Some(bytes) => n != 0 && count_of(bytes, self.separator) == n - 1,
        }
    }

    /// Whether fewer parts are left.
    #[tactic(auto, using(crate::proofs::Taking::count_parts))]
    pub fn is_below(&self, n: usize) -> bool
        ensures { result ≡ nat_lt (length self.now) n }
    {
        match self.rest {
            None => n != 0,
            Some(bytes) => n != 0 && count_of(bytes, self.separator) < n - 1,
        }
    }
}

/// Where in its line a field is, or a byte.
#[derive(Clone, Copy, Debug)]
pub struct FieldPlace {
    /// How many bytes the line has from there on.
    rest: usize,
}

impl FieldPlace {
    /// The place in this line with that many bytes before it.
    pub(crate) fn after(before: usize, line: &[u8]) -> FieldPlace {
        FieldPlace {
            rest: line.len().saturating_sub(before),
        }
    }

    /// How many bytes of the line are before it.
    fn before(self, line: &[u8]) -> usize {
        line.len().saturating_sub(self.rest)
    }

    /// Its column in the line, from 1.
    pub fn column(self, line: &[u8]) -> u64 {
        (self.before(line) as u64).saturating_add(1)
    }

    /// The field of the line that begins there.
    pub fn field<'a>(self, line: &'a [u8]) -> &'a [u8] {
        let rest = line.get(self.before(line)..).unwrap_or(b"");
        match Parts::of(rest, b' ').split_first() {
            Some((field, _)) => field,
            None => rest,
        }
    }
}

/// The index of the first byte of that value.
fn first_of(bytes: &[u8], value: u8) -> Option<usize>
    ensures { result ≡ position (λ b. b == value) bytes.now }
{
    bytes.iter().position(|b| *b == value)
}

/// How many bytes have that value.
fn count_of(bytes: &[u8], value: u8) -> usize
    ensures { result ≡ count_by (λ b. b == value) bytes.now }
{
    bytes.iter().filter(|b| **b == value).count()
}

#[tactic(auto, unfolding(crate::specs::Lines::is_well_spaced))]
/// Whether the line is fields of printed bytes, separated by exactly one space.
pub(crate) fn is_line(line: &[u8]) -> bool
    ensures { result ≡ is_well_spaced true line.now }
{
    let mut fresh = true;
    for b in line {
        if !is_printed(*b) || (*b == b' ' && fresh) {
            return false;
        }
        fresh = *b == b' ';
    }
    !fresh
}

/// Whether a line may have the byte.
pub(crate) fn is_printed(b: u8) -> bool
    ensures { result ≡ is_printed b }
{
    b' ' <= b && b <= b'~'
}
