//! A run as a page that any browser shows: the run's data as a text, and the page around it.
#![tactic(auto)]

mod beside;
mod changes;
mod data;
mod escape;
mod lists;
mod model;
mod page;
mod pane;
mod picture;
mod pieces;
mod plain;
mod style;
mod tokens;

pub use data::write_data;
pub use escape::escapes_are_exact;
pub use page::{Part, write_mark, write_part};
pub use pane::{panes_are_inert, write_graph_pane, write_program_pane};
pub use plain::texts_are_plain;
