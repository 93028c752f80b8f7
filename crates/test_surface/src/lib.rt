//! Tests of reading programs with derived forms: each new word, sign and comment, whole programs, what is refused with its line and column and
//! what was expected there, what is nested, and growths that are refused.
#![tactic(auto)]

#[cfg(test)]
mod growths;
#[cfg(test)]
mod nesting;
#[cfg(test)]
mod programs;
#[cfg(test)]
mod refusals;
#[cfg(test)]
mod stops;
#[cfg(test)]
mod tokens;
