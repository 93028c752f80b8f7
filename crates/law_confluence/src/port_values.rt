//! What a graph computes: once a run has come to rest, the values on its ports satisfy the equations of its nodes.

ghost use Rattle.law_confluence.specs.EquationsSettled.{RunsAtRestSatisfyEquations};
ghost use Rattle.law_confluence.specs.EquationsShown.{MachinesShowEquations};

/// What a graph computes, stated without tokens.
///
/// Once a run of a well-formed graph has come to rest, with no second store and no waiting fetch, each port of each node
/// that is taken in an invocation that is due has one value, nothing else has one, and the values satisfy the equations of
/// the nodes. The full cells are those that the run's stores filled, the outputs are the results of main, and no token is left.
/// A machine over faithful code that rests, wants nothing and has no waiting reader shows the outputs and cells of such a run.
pub fn runs_at_rest_satisfy_equations()
    ensures equations { RunsAtRestSatisfyEquations }
    ensures machines { MachinesShowEquations }
{}
