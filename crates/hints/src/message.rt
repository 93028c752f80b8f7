//! Messages: texts, with the values that they show.

use crate::catalog::{Text, found};
use crate::line_list::LineList;
use crate::lines::{line_at, text_of, word_at};
use crate::readers::ReaderCells;
use graph_check::CheckFaultKind;
use graph_file::ReadFaultKind;
use semantics::graph::Region;
use source::fault::FaultKind;
use std::fmt::{self, Display};

/// The most bytes of a part that are shown.
const MOST: usize = 60;

/// A value that is neither a word nor a part of the input nor a number.
#[derive(Clone, Copy)]
pub enum Special {
    Nothing,
    /// A region: `the root`, or `arm 3+`.
    Lies(Region),
    Reading(ReadFaultKind),
    Checking(CheckFaultKind),
    Programming(FaultKind),
    /// Cells, whose arrays are in the first lines of `$p`.
    Readers(ReaderCells),
    /// Lines of loops.
    Loops(LineList),
    /// Lines.
    Lines(LineList),
    /// The order of tokens that may be tried, too, and the frames of each element with which a run in that order came to rest, where one did.
    Depth(Option<u64>),
    /// That readers wait for cells, whatever the order of tokens.
    Unfilled,
}

/// A cause, with two numbers.
pub type Counted = (Text, u64, u64);

/// What a person reads: a cause, and its place if that is known, each a text or the name of one, with the values that they show.
#[derive(Clone, Copy)]
pub struct Found<'a> {
    pub place: Option<Text>,
    pub cause: Text,
    /// `$1` and `$2`: words, which are shown whole.
    pub words: [&'a str; 2],
    /// `$p`, `$q` and `$s`: parts of the input, of which only the beginning is shown where they are long.
    pub parts: [&'a [u8]; 3],
    /// `$a` to `$f`. For each there is an ending, `$A` to `$F`: it is `s`, or nothing where the number is 1.
    pub numbers: [u64; 6],
    /// `$x` and `$y`.
    pub specials: [Special; 2],
}

impl Display for Special {
    fn fmt<W: fmt::Write>(&self, f: &mut fmt::Formatter<W>) -> fmt::Result {
        match *self {
            Special::Nothing => Ok(()),
            Special::Lies(Region::Root) => f.write_str("the root"),
            Special::Lies(Region::Arm { cond, side }) => {
                write!(f, "arm {cond}{}", if side { '+' } else { '-' })
            }
            Special::Reading(kind) => Display::fmt(&kind, f),
            Special::Checking(kind) => Display::fmt(&kind, f),
            Special::Programming(kind) => Display::fmt(&kind, f),
            Special::Readers(cells) => Display::fmt(&cells.count, f),
            Special::Loops(lines) => lines.show_loops(f),
            Special::Lines(lines) => lines.show(f),
            Special::Unfilled => f.write_str(
                "; readers wait for cells then, so write what fills a cell before what reads it",
            ),
            Special::Depth(None) => f.write_str(", or try --take depth"),
            Special::Depth(Some(frames)) => {
                write!(
                    f,
                    ", or try --take depth, with which --frames {frames} suffices"
                )
            }
        }
    }
}

/// Shows a byte: one that is not printable as `\xHH`.
fn show_byte<W: fmt::Write>(byte: u8, f: &mut fmt::Formatter<W>) -> fmt::Result {
    match byte {
        b' '..=b'~' => f.write_char(char::from(byte)),
        other => write!(f, "\\x{other:02x}"),
    }
}

fn show_part<W: fmt::Write>(part: &[u8], f: &mut fmt::Formatter<W>) -> fmt::Result {
    for byte in part.iter().take(MOST) {
        show_byte(*byte, f)?;
    }
    f.write_str(if part.len() > MOST { ".." } else { "" })
}

/// Shows cells as `A[0], A[3] and 2 more`.
fn show_cells<W: fmt::Write>(
    cells: &ReaderCells,
    text: &[u8],
    f: &mut fmt::Formatter<W>,
) -> fmt::Result {
    for (at, (array, index)) in cells.first.iter().take(cells.count).enumerate() {
        let name = text_of(word_at(line_at(text, (*array as u64).saturating_add(2)), 1));
        f.write_str(if at == 0 { "" } else { ", " })?;
        write!(f, "{name}[{index}]")?;
    }
    match cells.count.saturating_sub(cells.first.len()) {
        0 => Ok(()),
        more => write!(f, " and {more} more"),
    }
}

/// Shows a special value. Cells are named by this text of the graph.
fn show_special<W: fmt::Write>(
    special: &Special,
    text: &[u8],
    f: &mut fmt::Formatter<W>,
) -> fmt::Result {
    match special {
        Special::Readers(cells) => show_cells(cells, text, f),
        other => Display::fmt(other, f),
    }
}

impl Found<'_> {
    /// Shows the value that this sign stands for.
    fn show<W: fmt::Write>(&self, sign: u8, f: &mut fmt::Formatter<W>) -> fmt::Result {
        let specials = self.specials;
        let place = sign.to_ascii_lowercase().wrapping_sub(b'a');
        let number = self.numbers.get(usize::from(place)).copied().unwrap_or(0);
        match sign {
            b'1' => f.write_str(self.words[0]),
            b'2' => f.write_str(self.words[1]),
            b'a'..=b'f' => Display::fmt(&number, f),
            b'A'..=b'F' => f.write_str(if number == 1 { "" } else { "s" }),
            b'p' => show_part(self.parts[0], f),
            b'q' => show_part(self.parts[1], f),
            b's' => show_part(self.parts[2], f),
            b'x' => show_special(&specials[0], self.parts[0], f),
            _ => Display::fmt(&specials[1], f),
        }
    }
}

/// Shows the cause.
impl Display for Found<'_> {
    fn fmt<W: fmt::Write>(&self, f: &mut fmt::Formatter<W>) -> fmt::Result {
        let mut parts = found("", self.cause).unwrap_or(self.cause).split('$');
        f.write_str(parts.next().unwrap_or(""))?;
        for part in parts {
            if let [sign, rest @ ..] = part.as_bytes() {
                self.show(*sign, f)?;
                f.write_str(text_of(rest))?;
            }
        }
        Ok(())
    }
}

/// What is shown of a line, where something is at this column, from 1: a long line is shown round it.
pub fn window(line: &[u8], column: u64) -> &[u8] {
    let column = column as usize;
    if column <= MOST {
        return line;
    }
    let most = line.len().saturating_sub(MOST);
    let start = column.saturating_sub(MOST / 2).min(most);
    line.get(start..).unwrap_or(line)
}

/// The place that a line is, of which this is shown.
pub fn at_line(line: &[u8], shown: &[u8]) -> Text {
    match line.len() {
        0 => "line $f is empty",
        len if shown.len() < len => "line $f is `..$s`",
        _ => "line $f is `$s`",
    }
}

impl<'a> Found<'a> {
    /// A cause at this place, if that is known, that shows these words, parts and numbers.
    pub fn of(
        place: Option<Text>,
        cause: Text,
        words: [&'a str; 2],
        parts: [&'a [u8]; 3],
        numbers: [u64; 6],
    ) -> Found<'a> {
        Found {
            place,
            cause,
            words,
            parts,
            numbers,
            specials: [Special::Nothing; 2],
        }
    }

    /// The same at this place, which shows these words, `$q` and `$s`, and `$e` and `$f`.
    pub fn placed(
        self,
        place: Text,
        words: [&'a str; 2],
        parts: [&'a [u8]; 2],
        numbers: [u64; 2],
    ) -> Found<'a> {
        let [first, second, third, fourth, _, _] = self.numbers;
        Found {
            place: Some(place),
            words,
            parts: [self.parts[0], parts[0], parts[1]],
            numbers: [first, second, third, fourth, numbers[0], numbers[1]],
            ..self
        }
    }

    /// The same, with what `$x` and `$y` are.
    pub fn with(self, specials: [Special; 2]) -> Found<'a> {
        Found { specials, ..self }
    }
}

/// A cause without a place that shows these words at most.
pub fn nowhere<'a>(cause: Text, words: [&'a str; 2]) -> Found<'a> {
    Found::of(None, cause, words, [b""; 3], [0; 6])
}
