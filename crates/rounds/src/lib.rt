//! Elements that take turns in rounds: in each round every element makes its turn in a thread of its own.
#![tactic(auto)]

mod by_depth;
mod delivering;
mod gate;
mod gathering;
mod rounds;
mod turn;

pub use by_depth::{are_few, grant_all, take_others};
pub use gate::{Gate, Open};
pub use rounds::{
    Counted, run, run_counted, run_counted_taking, run_quietly, run_quietly_taking, run_taking,
};
pub use turn::take_turn;
