//! What a good program has that is probably a mistake: a name that nothing uses, and a `let` in a turn of a loop that hides one of the
//! loop's names and that nothing uses. Warnings change nothing of what a command prints or of its status.
#![tactic(auto)]

mod items;
mod scopes;
mod text;

pub use text::warnings_text;

/// What is warned of.
#[derive(Clone, Copy, Debug, PartialEq, Eq)]
enum Kind {
    /// An array that nothing fetches from and nothing stores into.
    Array,
    /// A function that nothing calls.
    Function,
    /// A parameter that nothing uses.
    Parameter,
    /// A name of a `let` that nothing uses.
    Bound,
    /// The same, where it hides a name of the loop around it, so that the next turn does not get its value.
    Hiding,
    /// A name of a loop that nothing uses.
    Carried,
}

/// What is warned of, and where: the number of its name in the program's table, and how many bytes of the text are before it.
#[derive(Clone, Copy, Debug, PartialEq, Eq)]
struct Warning {
    kind: Kind,
    name: usize,
    at: usize,
}
