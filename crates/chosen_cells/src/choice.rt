//! Which cells the options choose, and how long the rows are.

ghost use Rattle.std.specs.Prelude.{◌≡◌, ◌<◌, IfSome, option_map};
ghost use Rattle.command_line.specs.Words.{parts_at};
ghost use Rattle.chosen_cells.specs.Chosen.{is_chosen, is_listed, length_in, own_length, row_of};

use command_line::{parts_at, row_length};

/// The most names of which a choice is made.
const NAMES: u16 = 1_024;

/// The most arrays with rows.
const ROWS: u8 = 64;

/// Whether the name is among those of the list, of which `room` are looked at.
#[tactic(auto, unfolding(crate::specs::Chosen::is_listed))]
fn is_listed(room: u16, name: &[u8], list: &str) -> bool
    ensures { result ≡ is_listed room name.now list.now }
{
    if room == 0 {
        return false;
    }
    let (first, more) = parts_at(',', list);
    first.as_bytes() == name
        || match more {
            Some(more) => is_listed(room - 1, name, more),
            None => false,
        }
}

/// Whether the cells of the array are printed.
pub(crate) fn is_chosen(cells: Option<&str>, name: &[u8]) -> bool
    ensures { result ≡ is_chosen (option_map (λ s. s.now) cells.entry) name.now }
{
    match cells {
        None => true,
        Some(list) => list != "none" && is_listed(NAMES, name, list),
    }
}

/// How many cells a row of the array has, if this part of the grid is the array's.
fn own_length(name: &[u8], part: &str) -> Option<u64>
    ensures same { result ≡ own_length name.now (parts_at 61 part.now) }
    ensures positive { IfSome result (λ n. 0 < n) }
{
    let (own, digits) = parts_at('=', part);
    if own.as_bytes() == name {
        row_length(digits)
    } else {
        None
    }
}

/// How many cells a row of the array has, of a grid of which `room` parts are looked at.
#[tactic(auto, unfolding(crate::specs::Chosen::length_in))]
fn length_in(room: u8, name: &[u8], grid: &str) -> Option<u64>
    ensures same { result ≡ length_in room name.now grid.now }
    ensures positive { IfSome result (λ n. 0 < n) }
{
    if room == 0 {
        return None;
    }
    let (first, more) = parts_at(',', grid);
    match (own_length(name, first), more) {
        (Some(length), _) => Some(length),
        (None, Some(more)) => length_in(room - 1, name, more),
        (None, None) => None,
    }
}

/// How many cells a row of the array has, if its cells are printed in rows.
pub(crate) fn row_of(grid: Option<&str>, name: &[u8]) -> Option<u64>
    ensures same { result ≡ row_of (option_map (λ s. s.now) grid.entry) name.now }
    ensures positive { IfSome result (λ n. 0 < n) }
{
    length_in(ROWS, name, grid?)
}
