//! Command lines and their inputs.

use std::alloc::{AllocError, Global};
use std::sync::Wait;
use std::thread::Threads;
use test_served::answer;

/// The input of a command line.
#[derive(Clone, Copy, Debug, PartialEq, Eq)]
pub enum Input {
    /// The text of a graph.
    Text,
    /// The text of a graph, and inputs after it.
    TextAndInputs,
    /// The object of the graph.
    Object,
    /// The listing of this object.
    Listing,
    /// The text of the graph, cut off in a node line.
    CutText,
    /// The text of a graph, and a line after it that is not an integer.
    TextAndWord,
    /// A program, and inputs after it.
    Program,
    /// The program, cut off before its end.
    CutProgram,
    /// Nothing: the command line reads no input.
    Nothing,
    /// Nothing, and the text that is printed is not shown.
    Help,
}

/// A command line.
#[derive(Clone, Copy)]
pub struct Case {
    pub name: &'static str,
    pub words: &'static [&'static str],
    pub input: Input,
}

/// Every command, some refusals, help, the version, and a mistake.
pub const CASES: [Case; 32] = [
    Case {
        name: "check",
        words: &["ets", "check"],
        input: Input::Text,
    },
    Case {
        name: "compile",
        words: &["ets", "compile"],
        input: Input::Text,
    },
    Case {
        name: "dis",
        words: &["ets", "dis"],
        input: Input::Object,
    },
    Case {
        name: "dis --literals",
        words: &["ets", "dis", "--literals"],
        input: Input::Object,
    },
    Case {
        name: "upgrade",
        words: &["ets", "upgrade"],
        input: Input::Object,
    },
    Case {
        name: "dot",
        words: &["ets", "dot"],
        input: Input::Text,
    },
    Case {
        name: "dot --code",
        words: &["ets", "dot", "--code"],
        input: Input::Object,
    },
    Case {
        name: "mean",
        words: &["ets", "mean"],
        input: Input::TextAndInputs,
    },
    Case {
        name: "run",
        words: &["ets", "run"],
        input: Input::TextAndInputs,
    },
    Case {
        name: "run, cut off",
        words: &["ets", "run", "--steps", "9"],
        input: Input::TextAndInputs,
    },
    Case {
        name: "run, in rounds",
        words: &["ets", "run", "--mode", "rounds", "--elements", "2"],
        input: Input::TextAndInputs,
    },
    Case {
        name: "exec",
        words: &["ets", "exec", "9"],
        input: Input::Object,
    },
    Case {
        name: "asm",
        words: &["ets", "asm"],
        input: Input::Listing,
    },
    Case {
        name: "trace",
        words: &["ets", "trace"],
        input: Input::TextAndInputs,
    },
    Case {
        name: "trace, as JSON",
        words: &["ets", "trace", "--last", "2", "--format", "chrome"],
        input: Input::TextAndInputs,
    },
    Case {
        name: "profile",
        words: &["ets", "profile", "--elements", "1"],
        input: Input::TextAndInputs,
    },
    Case {
        name: "profile, drawn",
        words: &["ets", "profile", "--svg"],
        input: Input::TextAndInputs,
    },
    Case {
        name: "orders",
        words: &["ets", "orders", "--count", "3"],
        input: Input::TextAndInputs,
    },
    Case {
        name: "lower",
        words: &["ets", "lower"],
        input: Input::Program,
    },
    Case {
        name: "lower --map",
        words: &["ets", "lower", "--map"],
        input: Input::Program,
    },
    Case {
        name: "lower, refused",
        words: &["ets", "lower"],
        input: Input::CutProgram,
    },
    Case {
        name: "check, refused",
        words: &["ets", "check"],
        input: Input::CutText,
    },
    Case {
        name: "compile, refused",
        words: &["ets", "compile"],
        input: Input::CutText,
    },
    Case {
        name: "dis, refused",
        words: &["ets", "dis"],
        input: Input::Text,
    },
    Case {
        name: "asm, refused",
        words: &["ets", "asm"],
        input: Input::Text,
    },
    Case {
        name: "exec, refused",
        words: &["ets", "exec"],
        input: Input::Object,
    },
    Case {
        name: "mean, refused",
        words: &["ets", "mean"],
        input: Input::TextAndWord,
    },
    Case {
        name: "run, refused",
        words: &["ets", "run"],
        input: Input::TextAndWord,
    },
    Case {
        name: "--help",
        words: &["ets", "--help"],
        input: Input::Help,
    },
    Case {
        name: "run --help",
        words: &["ets", "run", "--help"],
        input: Input::Help,
    },
    Case {
        name: "--version",
        words: &["ets", "--version"],
        input: Input::Nothing,
    },
    Case {
        name: "walk",
        words: &["ets", "walk"],
        input: Input::Nothing,
    },
];

/// Two readers of a cell that is filled.
const TEXT: &[u8] =
    b"etsgraph 1\narray A 2\nblock m 1 3\n- lit 0 0.0\n- fetch A 1.0\n- fetch A 1.0\n- store A 1.0 0.0\nout 2.0 3.0 4.0\nend\nmain m\n";

/// The same as a program, and its input.
const PROGRAM: &[u8] = b"array A[2];\nfn main(n) -> 3 { A[0], A[0], A[0] := n }\ninputs\n9\n";

/// All inputs that some command line reads.
#[derive(Drop)]
pub struct Inputs {
    text_and_inputs: Vec<u8>,
    text_and_word: Vec<u8>,
    object: Vec<u8>,
    listing: Vec<u8>,
}

fn text_with(alloc: Global, lines: &[u8]) -> Result<Vec<u8>, AllocError> {
    let mut bytes = Vec::from_slice(alloc, TEXT)?;
    bytes.extend_from_slice(lines)?;
    Ok(bytes)
}

impl Inputs {
    /// Compiles the graph to get its object.
    pub fn new<R: Threads + Wait + Sync>(rt: &R, alloc: Global) -> Result<Inputs, AllocError> {
        let object = answer(rt, alloc, &["ets", "compile"], TEXT).text;
        let listing = answer(rt, alloc, &["ets", "dis"], &object).text;
        Ok(Inputs {
            text_and_inputs: text_with(alloc, b"9\n")?,
            text_and_word: text_with(alloc, b"9\nnine\n")?,
            object,
            listing,
        })
    }

    /// The bytes of this input.
    pub fn bytes(&self, input: Input) -> &[u8] {
        match input {
            Input::Text => TEXT,
            Input::TextAndInputs => &self.text_and_inputs,
            Input::Object => &self.object,
            Input::Listing => &self.listing,
            Input::CutText => TEXT.get(..50).unwrap_or(TEXT),
            Input::TextAndWord => &self.text_and_word,
            Input::Program => PROGRAM,
            Input::CutProgram => PROGRAM.get(..50).unwrap_or(PROGRAM),
            Input::Nothing | Input::Help => &[],
        }
    }
}
