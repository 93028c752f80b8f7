//! How large a machine a program needs: it is counted in the program's own evaluation, which knows no graph.
//!
//! **The statement** (`specs/ProgramCounts`), for a good program of a text, or any no two of whose tokens have one place, and its graph. Let the
//! meaning of the graph, on these inputs, come to rest with no second store and no fetch waiting. Let the program's evaluation over the memory at
//! the end make `calls` calls and `turns` iterations of loops, where one that only tests counts, too (`law_completion`, `count_of`).
//! `CallForCounted`: each run of the meaning to its end calls for just `calls + turns` invocations beside main, of which `turns` are iterations, and
//! no run calls for more. `CompleteCounted`: so the program completes, in every order, on each machine that has a frame for main and for each of
//! these, and steps and credits for them. By `law_language` there is such an evaluation, and by `source::answers_are_one` it has one answer.
//!
//! **Why it holds.** By induction on the evaluation (`Induction`), with `law_language` for the values. A part is active in an invocation, and what
//! its names stand for are the values of their sources. Then the invocations that are due and are made at the part's nodes, or within these, are
//! just those of a list, each once, as long as the evaluation counts (`Lists`).
//! 1. A due invocation is made at a node of each one around it, which is a call or a loop and in whose region all arms are taken (`MadeAt`). So
//!    other nodes make none, and neither do those of an arm that is not taken (`SilentArms`): a conditional took the value of its predicate, and
//!    that alone.
//! 2. What is made at a call is the call, and what its function's body makes in it (`Calls`). What is made at a loop are its iterations up to the
//!    one whose flag is false, and what is made in these (`Turns`, `Loops`): none is due after it.
//! 3. The ranges of nodes of two parts are apart, so the lists are, too.
//! 4. All invocations lie under main, and in a run to the end those that are due are those in which the first input passes (`Theorem`). So
//!    `law_completion` makes the rest of it.
#![tactic(auto)]

ghost use Rattle.law_program_counts.specs.ProgramCounts.{ProgramsCallForCounted, ProgramsCompleteCounted, TextsCallForCounted, TextsCompleteCounted};

/// A program completes, in every order, on a machine that has a frame for main, for each call and for each iteration of its evaluation.
///
/// The meaning of its graph calls for just these. That is of each program no two of whose tokens have one place, and so of each text's.
pub fn programs_complete_counted()
    ensures calls { ProgramsCallForCounted }
    ensures completes { ProgramsCompleteCounted }
    ensures texts { TextsCallForCounted }
    ensures texts_complete { TextsCompleteCounted }
{
    source::answers_are_one();
}
