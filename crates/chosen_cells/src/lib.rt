//! Which cells of a report are printed, and how: what the options `--cells` and `--grid` make of a report's text. All lines but those of
//! full cells stay as they are.
#![tactic(auto)]

mod cell;
mod choice;
mod printing;
mod row;

pub use printing::write_chosen;
