//! The pipe `ets lower | ets run`.

ghost use Rattle.commands.specs.Piped.{TextsEndAtMain, InputsAreDivided, IntegersAreRead, LoweredGraphsHaveTexts, PipesRunPrograms, CommandsRunPrograms};

/// `run` reads what `lower` prints of a program as the graph and the inputs that `lower` wrote, and runs that graph on those inputs.
///
/// The text of a graph ends at its `main` line, whatever follows it: no earlier line begins with `main `. The graph that a program is
/// lowered to has a text. So what is printed by `run` is the report that the promise of a program's report speaks of, and where that
/// run rests with no deferred reader, the report shows the program.
pub fn pipes_run_programs()
    ensures texts { TextsEndAtMain }
    ensures inputs { InputsAreDivided }
    ensures integers { IntegersAreRead }
    ensures graphs { LoweredGraphsHaveTexts }
    ensures pipes { PipesRunPrograms }
    ensures commands { CommandsRunPrograms }
{}
