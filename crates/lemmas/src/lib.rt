//! Lemmas about lists, options and Bools that several crates cite and std does not have.
#![tactic(auto)]
