//! Tests of texts: how graphs are read, checked and written where memory or a writer fails, and reports and profiles as texts. They
//! are in a crate of their own, since a crate with tests is proved twice. `test_sessions` shows what is refused, and what graphs
//! mean.
#![tactic(auto)]

#[cfg(test)]
mod checked;
#[cfg(test)]
mod meant;
#[cfg(test)]
mod profiled;
#[cfg(test)]
mod reported;
#[cfg(test)]
mod spelled;
