//! The line of a full cell.

ghost use Rattle.std.specs.Prelude.{◌≡◌, ◌==◌, option_map};
ghost use Rattle.std.specs.List.{position};
ghost use Rattle.chosen_cells.specs.Chosen.{cell, cell_of, cut, named_cell};

use graph_file::number;

/// The index of the first space.
fn first_space(text: &[u8]) -> Option<usize>
    ensures { result ≡ position (λ b. b == 32) text.now }
{
    text.iter().position(|byte| *byte == b' ')
}

/// What is before the first space, and what is after it, if there is one.
fn cut(text: &[u8]) -> Option<(&[u8], &[u8])>
    ensures { option_map (λ p. (p.0.now, p.1.now)) result ≡ cut text.now }
{
    match first_space(text) {
        Some(at) => Some((&text[..at], &text[at + 1..])),
        None => None,
    }
}

/// The same of this array, where the words after its name are these.
fn named_cell<'a>(name: &'a [u8], words: &'a [u8]) -> Option<(&'a [u8], u32, &'a [u8])>
    ensures { option_map (λ c. cell c.0.now c.1 c.2.now) result ≡ named_cell (name.now, words.now) }
{
    let (digits, value) = cut(words)?;
    let index = number(digits)?;
    Some((name, index, value))
}

/// The array's name, the cell's index in it and the value's words, if this is the line of a cell.
pub(crate) fn cell_of(text: &[u8]) -> Option<(&[u8], u32, &[u8])>
    ensures { option_map (λ c. cell c.0.now c.1 c.2.now) result ≡ cell_of text.now }
{
    let words = text.strip_prefix(b"cell ")?;
    let (name, words) = cut(words)?;
    named_cell(name, words)
}
