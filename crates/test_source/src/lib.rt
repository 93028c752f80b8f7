//! Tests of reading programs and of the rules that they keep: tokens, what is accepted and what is refused with its line and column,
//! programs and their inputs, the graphs that programs are lowered to, long texts and deep ones, and growths that are refused. They are in a
//! crate of their own, since a crate with tests is proved twice.
#![tactic(auto)]

#[cfg(test)]
mod examples;
#[cfg(test)]
mod graphs;
#[cfg(test)]
mod growths;
#[cfg(test)]
mod lowered;
#[cfg(test)]
mod nesting;
#[cfg(test)]
mod parts;
#[cfg(test)]
mod refusals;
#[cfg(test)]
mod tokens;
