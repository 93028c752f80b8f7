//! Object files: code as bytes. An object is opened where it lies: nothing is copied, and no memory is taken.
#![tactic(auto)]

mod checks;
mod fault;
mod instr;
mod object;
mod owned;
mod tables;
mod taking;
mod words;
mod writing;

pub use checks::find_flaw;
pub use fault::{Flaw, ObjectFault, Place, Wrong};
pub use instr::{CodeInstr, PackedInstr};
pub use object::{BlockView, Object, one_spelling};
pub use owned::OwnedObject;
pub use writing::{upgrade, write};
