//! A text as a program and its inputs.

ghost use Rattle.std.specs.Prelude.{◌≡◌, ◌≤◌, length, codes, bytes_eq};
ghost use Rattle.source.specs.Tokens.{line_from, program_of, inputs_of};

/// The line that ends a program.
const INPUTS: &[u8] = b"inputs";

/// The two parts of a text.
#[derive(Clone, Copy, Debug, PartialEq, Eq)]
pub struct Parted<'a> {
    /// What is before the first line that is exactly `inputs`, or all of the text where there is none.
    pub program: &'a [u8],
    /// What follows that line.
    pub inputs: &'a [u8],
}

/// The program and the inputs of a text.
pub fn split(text: &[u8]) -> Parted<'_>
    ensures program { result.program.now ≡ program_of text.now }
    ensures inputs { result.inputs.now ≡ inputs_of text.now }
{
    let len = program_len(text);
    Parted {
        program: &text[..len],
        inputs: text.get(len + INPUTS.len() + 1..).unwrap_or(&[]),
    }
}

/// How many bytes the program has.
fn program_len(text: &[u8]) -> usize
    ensures exact { result ≡ length (program_of text.now) }
    ensures within { result ≤ length text.now }
{
    let mut fresh = true;
    for (at, b) in text.iter().enumerate() {
        if fresh && begins_with_inputs(&text[at..]) {
            return at;
        }
        fresh = *b == b'\n';
    }
    text.len()
}

/// Whether the first line is exactly `inputs`.
fn begins_with_inputs(text: &[u8]) -> bool
    ensures { result ≡ bytes_eq (line_from text.now) (codes "inputs") }
{
    match text.strip_prefix(INPUTS) {
        Some([]) => true,
        Some([next, ..]) => *next == b'\n',
        None => false,
    }
}
