//! Programs and their inputs.

use source_tokens::split;
use std::test::Fail;

/// Texts, with the program and the inputs of each.
const TEXTS: [(&[u8], &[u8], &[u8]); 12] = [
    (b"a\ninputs\n6\n", b"a\n", b"6\n"),
    (b"a\ninputs", b"a\n", b""),
    (b"inputs\n6", b"", b"6"),
    (b"inputs", b"", b""),
    (b"inputs\ninputs\n", b"", b"inputs\n"),
    (b"a", b"a", b""),
    (b"", b"", b""),
    // A comment hides no line, and is none.
    (b"// inputs\nb\n", b"// inputs\nb\n", b""),
    (b"b //\ninputs\n1", b"b //\n", b"1"),
    // Such a line has nothing else.
    (b"inputs \n1", b"inputs \n1", b""),
    (b" inputs\n1", b" inputs\n1", b""),
    (b"a\r\ninputs\r\n1", b"a\r\ninputs\r\n1", b""),
];

#[test]
fn programs_and_inputs(rt: HostRuntime) -> Result<(), Fail> {
    for (text, program, inputs) in TEXTS {
        let parted = split(text);
        assert_eq!(rt; parted.program, program);
        assert_eq!(rt; parted.inputs, inputs);
    }
    Ok(())
}
