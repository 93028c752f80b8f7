//! Tests that cross the crates: what `test_sessions` cannot show on a command line.
#![tactic(auto)]

#[cfg(test)]
mod conditionals;
#[cfg(test)]
mod gates;
#[cfg(test)]
mod hostile;
#[cfg(test)]
mod inputs;
#[cfg(test)]
mod lists;
#[cfg(test)]
mod memory;
#[cfg(test)]
mod orders;
#[cfg(test)]
mod side_by_side;
#[cfg(test)]
mod sizes;
#[cfg(test)]
mod values;
