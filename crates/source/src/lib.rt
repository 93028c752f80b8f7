//! The source language: its tokens and its programs, what they mean, and the graph that a program is lowered to.
#![tactic(auto)]

ghost use Rattle.source.specs.Counts.{CountsHold, MainCounts};
ghost use Rattle.source.specs.Examples.{SignsGive, FactorialGives, ElseIfGives, SumGives, CountGives, PairsGive, StrictCallGives, CellsGive};
ghost use Rattle.source.specs.Examples.{OutsideGives, FaultsGive, MemoryIsComputed};
ghost use Rattle.source.specs.Once.{OneAnswer, OneOutput};

pub mod fault;
pub mod program;
pub mod token;
pub mod word;

/// Small programs, evaluated by hand: signs and brackets, a function that calls itself, a chain of conditionals, both forms
/// of a loop, a call with two values, a strict call, a store with a fetch of it, a store outside of its array, and a
/// comparison of two faults. One of them with the whole of a memory that it computes.
pub fn examples()
    ensures signs { SignsGive }
    ensures factorial { FactorialGives }
    ensures else_if { ElseIfGives }
    ensures sum { SumGives }
    ensures count { CountGives }
    ensures pairs { PairsGive }
    ensures strict_call { StrictCallGives }
    ensures cells { CellsGive }
    ensures outside { OutsideGives }
    ensures faults { FaultsGive }
    ensures memory { MemoryIsComputed }
{}

/// An expression has one answer, and so has a program on the same arguments.
pub fn answers_are_one()
    ensures expression { OneAnswer }
    ensures program { OneOutput }
{}

/// An expression of a program that keeps the rules has as many values as they count, and the program has the outputs that
/// `main` says.
pub fn values_are_counted()
    ensures expression { CountsHold }
    ensures main { MainCounts }
{}
