//! The code that the compiler makes of any graph completes, in every order, on each machine that is large enough for what the graph's meaning calls for.
//!
//! **The statement.** `compiled_code_completes` (`CompiledCodeCompletes`, in `specs/CompiledCode`), for a well-formed graph within the limits of a text,
//! and the code that the compiler makes of it with any good slots: where the meaning comes to rest with no second store and no fetch waiting, and the
//! machine has the frames, the steps and the credits of `IsLargeEnough` (`law_completion`), each run of the code that was not cut off ends at `Rest`
//! with no deferred reader.
//!
//! **Why it holds.** Code that keeps the compiler's promises is true code (`PromisesMakeTrue`, `Compiled`): of what `IsTrueCode` asks for, the promises
//! have all but that the instructions of a holder use one slot. That holds of the plan's code with its slots, and emitted code has the same slots. The
//! compiler's code keeps these promises (`law_compiler`), and true code completes (`law_completion`).
#![tactic(auto)]

ghost use Rattle.law_compiled_code_completes.specs.CompiledCode.{PromisesMakeTrue, CompiledCodeIsTrue, CompiledCodeCompletes};

/// The compiler's code of a graph is true code: it is faithful, uses frames and credits rightly, and has one slot for each holder. So it completes
/// wherever the machine is large enough for what the meaning calls for, whatever the order.
pub fn compiled_code_completes()
    ensures promises { PromisesMakeTrue }
    ensures compiled { CompiledCodeIsTrue }
    ensures completes { CompiledCodeCompletes }
{}
