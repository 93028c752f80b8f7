//! The assembler: reads a listing, and returns the code of the object that the listing is of. The inverse of
//! `disassembler::list_with_literals`, and of `disassembler::list` where the instructions determine the table of literals.
#![tactic(auto)]

mod assembling;
mod cause;
mod checks;
mod fault;
mod fields;
mod found;
mod lines;
mod reading;
mod words;

pub use assembling::{Assembled, assemble, assemble_listing, one_object, reassembles};
pub use cause::{AsmCause, AsmLineCause, AsmNumberCause, AsmRefusal, InstrWord, SlotCause, Unfit};
pub use fault::{AsmFault, AsmFaultKind};
