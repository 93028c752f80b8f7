//! The events of a run, replayed: what each one did, and how many tokens, full slots and frames out there are after it; and the books of a
//! run, which have of each event what it changed.
#![tactic(auto)]

mod acts;
mod books;
mod cells;
mod entry;
mod extent;
mod fault;
mod ledger;
mod moment;
mod replaying;
mod slots;
mod state;
mod token_index;

pub use books::keep_books;
pub use entry::{Books, Change, Entry};
pub use extent::Extent;
pub use fault::ReplayRefusal;
pub use moment::{Deed, Moment};
pub use replaying::replay;
