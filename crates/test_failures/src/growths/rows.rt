//! Command lines, and the answers that they should have.

use test_inputs::graph_texts::{ADD, ARRAY_LOOP, FACTORIAL, NEVER_FILLED, READERS, SUM_LOOP};

/// What an answer has of a run, and so how a growth is reported that is refused in the run.
#[derive(Clone, Copy)]
pub enum Answer {
    /// Nothing: each growth that is refused is reported in place of the answer.
    Text,
    /// A report, which then has the end `Memory`. Lines of events may be before it.
    Report,
    /// A list of events, as JSON.
    Json,
    /// The report of several orders. Then the orders differ, and one of them has the end `Memory`.
    Orders,
}

/// A command line with its input, and the text and the exit status that it should have.
#[derive(Clone, Copy)]
pub struct Row<'a> {
    pub name: &'static str,
    pub words: &'static [&'static str],
    pub input: &'a [u8],
    pub answer: Answer,
    pub wanted: &'a [u8],
    pub status: u8,
}

/// A command line, the graph or the program and the lines of inputs that it reads, and the text and the exit status that it should have.
#[derive(Clone, Copy)]
pub struct Example {
    pub name: &'static str,
    pub words: &'static [&'static str],
    pub graph: &'static [u8],
    /// What of the graph's text is changed, and what takes its place.
    pub change: Option<(&'static [u8], &'static [u8])>,
    pub inputs: &'static [u8],
    pub wanted: &'static [u8],
    pub status: u8,
}

impl Example {
    /// What its answer has of a run: neither a meaning nor a graph is made by the machine.
    pub fn answer(&self) -> Answer {
        if self.words.contains(&"mean") || self.words.contains(&"lower") {
            Answer::Text
        } else {
            Answer::Report
        }
    }
}

/// Worked examples. Their texts and statuses were known before.
pub const EXAMPLES: [Example; 25] = [
    Example {
        name: "add",
        words: &["ets", "run"],
        graph: ADD,
        change: None,
        inputs: b"2\n3\n",
        wanted: b"output 0 5\ndeferred 0\nwaiting 0 0\nframes 0\nend Rest\n",
        status: 0,
    },
    Example {
        name: "add, in rounds",
        words: &["ets", "run", "--mode", "rounds", "--elements", "2"],
        graph: ADD,
        change: None,
        inputs: b"2\n3\n",
        wanted: b"output 0 5\ndeferred 0\nwaiting 0 0\nframes 0\nend Rest\n",
        status: 0,
    },
    Example {
        name: "add, free",
        words: &["ets", "run", "--mode", "free", "--elements", "2"],
        graph: ADD,
        change: None,
        inputs: b"2\n3\n",
        wanted: b"output 0 5\ndeferred 0\nwaiting 0 0\nframes 0\nend Rest\n",
        status: 0,
    },
    Example {
        name: "factorial",
        words: &["ets", "run", "--frames", "21"],
        graph: FACTORIAL,
        change: None,
        inputs: b"20\n",
        wanted: b"output 0 2432902008176640000\ndeferred 0\nwaiting 0 0\nframes 0\nend Rest\n",
        status: 0,
    },
    Example {
        name: "factorial, in rounds",
        words: &[
            "ets",
            "run",
            "--frames",
            "11",
            "--mode",
            "rounds",
            "--elements",
            "2",
        ],
        graph: FACTORIAL,
        change: None,
        inputs: b"20\n",
        wanted: b"output 0 2432902008176640000\ndeferred 0\nwaiting 0 0\nframes 0\nend Rest\n",
        status: 0,
    },
    Example {
        name: "factorial, starved",
        words: &["ets", "run", "--frames", "20"],
        graph: FACTORIAL,
        change: None,
        inputs: b"20\n",
        wanted: b"output 0 -\ndeferred 0\nwaiting 1 0\nframes 20\nend Starved\n",
        status: 2,
    },
    Example {
        name: "factorial, with enough frames",
        words: &["ets", "run", "--frames", "enough"],
        graph: FACTORIAL,
        change: None,
        inputs: b"20\n",
        wanted: b"output 0 2432902008176640000\ndeferred 0\nwaiting 0 0\nframes 0\nend Rest\n",
        status: 0,
    },
    Example {
        name: "sum",
        words: &["ets", "run", "--frames", "3"],
        graph: SUM_LOOP,
        change: None,
        inputs: b"1000\n",
        wanted: b"output 0 500500\ndeferred 0\nwaiting 0 0\nframes 0\nend Rest\n",
        status: 0,
    },
    Example {
        name: "sum, in rounds",
        words: &[
            "ets",
            "run",
            "--frames",
            "2",
            "--mode",
            "rounds",
            "--elements",
            "2",
        ],
        graph: SUM_LOOP,
        change: None,
        inputs: b"20\n",
        wanted: b"output 0 210\ndeferred 0\nwaiting 0 0\nframes 0\nend Rest\n",
        status: 0,
    },
    Example {
        name: "sum, free",
        words: &[
            "ets",
            "run",
            "--frames",
            "2",
            "--mode",
            "free",
            "--elements",
            "2",
        ],
        graph: SUM_LOOP,
        change: None,
        inputs: b"20\n",
        wanted: b"output 0 210\ndeferred 0\nwaiting 0 0\nframes 0\nend Rest\n",
        status: 0,
    },
    Example {
        name: "readers",
        words: &["ets", "run"],
        graph: READERS,
        change: None,
        inputs: b"8\n",
        wanted: b"output 0 8\noutput 1 8\noutput 2 8\ncell A 0 8\ndeferred 0\nwaiting 0 0\nframes 0\nend Rest\n",
        status: 0,
    },
    Example {
        name: "readers, in rounds",
        words: &["ets", "run", "--mode", "rounds", "--elements", "2"],
        graph: READERS,
        change: None,
        inputs: b"8\n",
        wanted: b"output 0 8\noutput 1 8\noutput 2 8\ncell A 0 8\ndeferred 0\nwaiting 0 0\nframes 0\nend Rest\n",
        status: 0,
    },
    Example {
        name: "readers, free",
        words: &["ets", "run", "--mode", "free", "--elements", "2"],
        graph: READERS,
        change: None,
        inputs: b"8\n",
        wanted: b"output 0 8\noutput 1 8\noutput 2 8\ncell A 0 8\ndeferred 0\nwaiting 0 0\nframes 0\nend Rest\n",
        status: 0,
    },
    Example {
        name: "an unanswered reader",
        words: &["ets", "run"],
        graph: NEVER_FILLED,
        change: None,
        inputs: b"8\n",
        wanted: b"output 0 -\noutput 1 8\ndeferred 1\nwaiting 0 0\nframes 1\nend Rest\n",
        status: 0,
    },
    Example {
        name: "chain",
        words: &["ets", "run"],
        graph: ARRAY_LOOP,
        change: None,
        inputs: b"9\n",
        wanted: b"output 0 25\ncell A 0 0\ncell A 1 1\ncell A 2 2\ncell A 3 3\ncell A 4 4\ncell A 5 5\ncell A 6 6\ncell A 7 7\ndeferred 0\nwaiting 0 0\nframes 0\nend Rest\n",
        status: 0,
    },
    Example {
        name: "chain, in rounds",
        words: &["ets", "run", "--mode", "rounds", "--elements", "2"],
        graph: ARRAY_LOOP,
        change: None,
        inputs: b"9\n",
        wanted: b"output 0 25\ncell A 0 0\ncell A 1 1\ncell A 2 2\ncell A 3 3\ncell A 4 4\ncell A 5 5\ncell A 6 6\ncell A 7 7\ndeferred 0\nwaiting 0 0\nframes 0\nend Rest\n",
        status: 0,
    },
    Example {
        name: "chain, starved",
        words: &["ets", "run"],
        graph: ARRAY_LOOP,
        change: Some((b"loop b 4", b"loop b 3")),
        inputs: b"9\n",
        wanted: b"output 0 -\ncell A 0 0\ncell A 1 1\ncell A 2 2\ncell A 5 5\ncell A 6 6\ncell A 7 7\ndeferred 2\nwaiting 0 1\nframes 4\nend Starved\n",
        status: 2,
    },
    Example {
        name: "mean of add",
        words: &["ets", "mean"],
        graph: ADD,
        change: None,
        inputs: b"2\n3\n",
        wanted: b"output 0 5\nend Rest\n",
        status: 0,
    },
    Example {
        name: "mean of factorial",
        words: &["ets", "mean"],
        graph: FACTORIAL,
        change: None,
        inputs: b"20\n",
        wanted: b"output 0 2432902008176640000\nend Rest\n",
        status: 0,
    },
    Example {
        name: "mean of sum",
        words: &["ets", "mean"],
        graph: SUM_LOOP,
        change: None,
        inputs: b"20\n",
        wanted: b"output 0 210\nend Rest\n",
        status: 0,
    },
    Example {
        name: "mean of readers",
        words: &["ets", "mean"],
        graph: READERS,
        change: None,
        inputs: b"8\n",
        wanted: b"output 0 8\noutput 1 8\noutput 2 8\ncell A 0 8\nend Rest\n",
        status: 0,
    },
    Example {
        name: "mean of an unanswered reader",
        words: &["ets", "mean"],
        graph: NEVER_FILLED,
        change: None,
        inputs: b"8\n",
        wanted: b"output 0 -\noutput 1 8\nend Rest\n",
        status: 0,
    },
    Example {
        name: "mean of chain",
        words: &["ets", "mean"],
        graph: ARRAY_LOOP,
        change: None,
        inputs: b"9\n",
        wanted: b"output 0 25\ncell A 0 0\ncell A 1 1\ncell A 2 2\ncell A 3 3\ncell A 4 4\ncell A 5 5\ncell A 6 6\ncell A 7 7\nend Rest\n",
        status: 0,
    },
    Example {
        name: "lower of a sum",
        words: &["ets", "lower"],
        graph: SUM_PROGRAM,
        change: None,
        inputs: b"inputs\n20\n",
        wanted: SUM_GRAPH,
        status: 0,
    },
    Example {
        name: "lower of a program that is refused",
        words: &["ets", "lower"],
        graph: SUM_PROGRAM,
        change: Some((b"\n    s", b"\n    i")),
        inputs: b"inputs\n20\n",
        wanted: b"refused: program NoSuchName line 3 column 5\n",
        status: 1,
    },
];

/// The sum of the numbers up to one that is given.
const SUM_PROGRAM: &[u8] =
    b"fn main(n) {\n    let _, s = loop 2 (i = n, s = 0) { i - 1, s + i } while (i);\n    s\n}\n";

/// What it is lowered to, with its input.
const SUM_GRAPH: &[u8] = b"etsgraph 2
block main 1 1
- lit 0 0.0
- loop main__1 2 0.0 1.0
out 2.1
end
block main__1 2 3
- lit 1 0.0
- sub 0.0 2.0
- add 1.0 0.0
out 3.0 3.0 4.0
end
main main
20
";

/// A program with each form of the language.
const EACH_FORM: &[u8] = b"array A[4];

fn pair(x, y) -> 2 { x, if y > x { strict less(y, x) } else if y { -y } else { ~0 } }
fn less(x, y) { x - y }

fn main(n) {
    A[0] := n;
    loop 4 (i = 0) while i < 3 { A[i + 1] := A[i] * 2; i + 1 };
    let _, s = loop 2 (i = 3, s = 0) { i - 1, s + A[i] } while (i);
    let a, _ = pair(n, (s));
    a
}
";

/// What a command reads.
#[derive(Clone, Copy, PartialEq, Eq)]
pub enum Reads {
    /// The text.
    Text,
    /// The object of the text.
    Object,
}

/// A command line, what it reads, and what its answer has of a run. The wanted answer is the one where no growth is refused.
#[derive(Clone, Copy)]
pub struct Command {
    pub name: &'static str,
    pub words: &'static [&'static str],
    pub text: &'static [u8],
    /// Lines after the text.
    pub inputs: &'static [u8],
    pub reads: Reads,
    pub answer: Answer,
}

/// Command lines whose answers are compared with those where no growth is refused.
pub const COMMANDS: [Command; 23] = [
    Command {
        name: "lower of each form",
        words: &["ets", "lower"],
        text: EACH_FORM,
        inputs: b"inputs\n3\n",
        reads: Reads::Text,
        answer: Answer::Text,
    },
    Command {
        name: "lower --map of each form",
        words: &["ets", "lower", "--map"],
        text: EACH_FORM,
        inputs: b"inputs\n3\n",
        reads: Reads::Text,
        answer: Answer::Text,
    },
    Command {
        name: "compile of add",
        words: &["ets", "compile"],
        text: ADD,
        inputs: b"",
        reads: Reads::Text,
        answer: Answer::Text,
    },
    Command {
        name: "compile of factorial",
        words: &["ets", "compile"],
        text: FACTORIAL,
        inputs: b"",
        reads: Reads::Text,
        answer: Answer::Text,
    },
    Command {
        name: "compile of sum",
        words: &["ets", "compile"],
        text: SUM_LOOP,
        inputs: b"",
        reads: Reads::Text,
        answer: Answer::Text,
    },
    Command {
        name: "compile of readers",
        words: &["ets", "compile"],
        text: READERS,
        inputs: b"",
        reads: Reads::Text,
        answer: Answer::Text,
    },
    Command {
        name: "compile of chain",
        words: &["ets", "compile"],
        text: ARRAY_LOOP,
        inputs: b"",
        reads: Reads::Text,
        answer: Answer::Text,
    },
    Command {
        name: "check of chain",
        words: &["ets", "check"],
        text: ARRAY_LOOP,
        inputs: b"",
        reads: Reads::Text,
        answer: Answer::Text,
    },
    Command {
        name: "dot of chain",
        words: &["ets", "dot"],
        text: ARRAY_LOOP,
        inputs: b"",
        reads: Reads::Text,
        answer: Answer::Text,
    },
    Command {
        name: "asm of add",
        words: &["ets", "asm"],
        text: ADD_LISTING,
        inputs: b"",
        reads: Reads::Text,
        answer: Answer::Text,
    },
    Command {
        name: "dot --code of add",
        words: &["ets", "dot", "--code"],
        text: ADD,
        inputs: b"",
        reads: Reads::Object,
        answer: Answer::Text,
    },
    Command {
        name: "upgrade of add",
        words: &["ets", "upgrade"],
        text: ADD,
        inputs: b"",
        reads: Reads::Object,
        answer: Answer::Text,
    },
    Command {
        name: "dis of add",
        words: &["ets", "dis"],
        text: ADD,
        inputs: b"",
        reads: Reads::Object,
        answer: Answer::Text,
    },
    Command {
        name: "exec of readers",
        words: &["ets", "exec", "8"],
        text: READERS,
        inputs: b"",
        reads: Reads::Object,
        answer: Answer::Report,
    },
    Command {
        name: "exec of readers, in rounds",
        words: &["ets", "exec", "--mode", "rounds", "--elements", "2", "8"],
        text: READERS,
        inputs: b"",
        reads: Reads::Object,
        answer: Answer::Report,
    },
    Command {
        name: "exec of readers, free",
        words: &["ets", "exec", "--mode", "free", "--elements", "2", "8"],
        text: READERS,
        inputs: b"",
        reads: Reads::Object,
        answer: Answer::Report,
    },
    Command {
        name: "profile of add",
        words: &["ets", "profile", "--elements", "1,2"],
        text: ADD,
        inputs: b"2\n3\n",
        reads: Reads::Text,
        answer: Answer::Text,
    },
    Command {
        name: "profile --svg of add",
        words: &["ets", "profile", "--svg"],
        text: ADD,
        inputs: b"2\n3\n",
        reads: Reads::Text,
        answer: Answer::Text,
    },
    Command {
        name: "trace of readers",
        words: &["ets", "trace"],
        text: READERS,
        inputs: b"8\n",
        reads: Reads::Text,
        answer: Answer::Report,
    },
    Command {
        name: "trace of readers, in rounds",
        words: &["ets", "trace", "--mode", "rounds", "--elements", "2"],
        text: READERS,
        inputs: b"8\n",
        reads: Reads::Text,
        answer: Answer::Report,
    },
    Command {
        name: "trace of readers, as JSON",
        words: &["ets", "trace", "--format", "chrome"],
        text: READERS,
        inputs: b"8\n",
        reads: Reads::Text,
        answer: Answer::Json,
    },
    Command {
        name: "one order of readers",
        words: &["ets", "orders", "--count", "1"],
        text: READERS,
        inputs: b"8\n",
        reads: Reads::Text,
        answer: Answer::Report,
    },
    Command {
        name: "three orders of readers",
        words: &["ets", "orders", "--count", "3", "--elements", "2"],
        text: READERS,
        inputs: b"8\n",
        reads: Reads::Text,
        answer: Answer::Orders,
    },
];

/// The listing of an object that adds two inputs.
const ADD_LISTING: &[u8] =
    b"ets 1 main 0\nblock 0 inputs 2 outputs 1 slots 3\n0 copy - +4l +5l -\n1 copy - +2l - -\n2 copy - +1r - -\n3 add 0 +1r - -\n4 return 1 +1r - o0\n5 release 2 - - o1\n";
