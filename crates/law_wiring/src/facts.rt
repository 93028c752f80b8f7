//! What the plan of every graph keeps, apart from its destinations.

ghost use Rattle.law_wiring.specs.Facts.{PlansHoldRightly, PlansMarkRightly, PlansNameRightly};

/// The program of a graph's plan is within its ranges: it has few blocks and arrays, and what an instruction names is
/// there. The holders of each code block are as many as it says; each is one instruction at which two words meet, or one
/// loop, whose instructions agree on its bound and differ in what they do. Each switch has a mark, and nothing else has one.
pub fn plans_name_rightly()
    ensures names { PlansNameRightly }
    ensures holders { PlansHoldRightly }
    ensures marks { PlansMarkRightly }
{}
