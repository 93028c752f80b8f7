//! What was expected where the parser stopped.

use std::test::Fail;
use surface_text::{Expected, Form, Opened, Stop, Within, read_program};

/// A text that is refused, and what was expected there.
const STOPS: [(&[u8], Expected); 43] = [
    (b"n", Expected::Item),
    (b"array 4", Expected::Name(Form::Array)),
    (b"array A = 1;", Expected::Next(Form::Array)),
    (b"array A[4;", Expected::Operator(Within::Lengths)),
    (b"array A[4]", Expected::ItemEnd),
    (b"const N 8;", Expected::Next(Form::Constant)),
    (b"const N = 8, 9;", Expected::ItemEnd),
    (b"const N = ;", Expected::Operand(Within::Constant)),
    (b"fn (n)", Expected::Name(Form::Function)),
    (b"fn f[n]", Expected::Next(Form::Function)),
    (b"fn f(a b)", Expected::Next(Form::Function)),
    (b"fn f(A[ {", Expected::Next(Form::Function)),
    (b"fn f(a", Expected::Next(Form::Function)),
    (b"fn f(a) -> {", Expected::Next(Form::Function)),
    (b"fn f(a) a", Expected::Next(Form::Function)),
    (b"fn f(a) { }", Expected::Step),
    (b"fn f(a) { a a }", Expected::Operator(Within::Block)),
    (b"fn f(a) { a + }", Expected::Operand(Within::Block)),
    (b"fn f(a) { let 3 = a; a }", Expected::Name(Form::Let)),
    (b"fn f(a) { let x y = a; a }", Expected::Next(Form::Let)),
    (b"fn f(a) { let x = a }", Expected::Operator(Within::Let)),
    (b"fn f(a) { (a; }", Expected::Operator(Within::Group)),
    (b"fn f(a) { f(a; }", Expected::Operator(Within::Arguments)),
    (b"fn f(a) { A[a; }", Expected::Operator(Within::Indexes)),
    (b"fn f(a) { if a; a }", Expected::Operator(Within::Test)),
    (b"fn f(a) { if a { a } }", Expected::Next(Form::If)),
    (b"fn f(a) { 1 + if a { a }; a }", Expected::Next(Form::Else)),
    (b"fn f(a) { if a { a } else a }", Expected::Next(Form::Else)),
    (b"fn f(a) { loop (x = 1) }", Expected::Next(Form::Loop)),
    (b"fn f(a) { loop 2 (1) }", Expected::Name(Form::Loop)),
    (b"fn f(a) { loop 2 (x 1) }", Expected::Next(Form::Loop)),
    (
        b"fn f(a) { loop 2 (x = 1; }",
        Expected::Operator(Within::FirstValue),
    ),
    (
        b"fn f(a) { loop 2 (x = 1) while x; }",
        Expected::Operator(Within::LoopTest),
    ),
    (
        b"fn f(a) { loop 2 (x = 1) { x } x",
        Expected::Next(Form::LastTest),
    ),
    (
        b"fn f(a) { loop 2 (x = 1) { x } while x",
        Expected::Next(Form::LastTest),
    ),
    (b"fn f(a) { strict 3 }", Expected::Name(Form::StrictCall)),
    (b"fn f(a) { strict f; }", Expected::Next(Form::StrictCall)),
    (b"fn f(a) { for = 0..a { a } }", Expected::Next(Form::For)),
    (b"fn f(a) { for i = 0..a { a } }", Expected::Next(Form::For)),
    (
        b"fn f(a) { for 4 4 in 0..a { a } }",
        Expected::Name(Form::For),
    ),
    (
        b"fn f(a) { for i in 0 { a } }",
        Expected::Operator(Within::RangeStart),
    ),
    (
        b"fn f(a) { for i in 0..a; a }",
        Expected::Operator(Within::RangeEnd),
    ),
    (
        b"fn f(a) { for i in 0..a with { a } }",
        Expected::Name(Form::Loop),
    ),
];

#[test]
fn expected_there(rt: HostRuntime) -> Result<(), Fail> {
    for (number, (text, expected)) in STOPS.iter().enumerate() {
        match read_program(rt.alloc(), text) {
            Ok(_) => assert!(rt; false, "{number} is accepted"),
            Err(refusal) => {
                let said = refusal.stop.map(|stop| stop.expected);
                assert_eq!(rt; said, Some(*expected), "{number}");
            }
        }
    }
    Ok(())
}

/// The token before, and the bracket that is open.
#[test]
fn what_is_before(rt: HostRuntime) -> Result<(), Fail> {
    let stop = match read_program(rt.alloc(), b"fn f(a) {\n (f(a) + a; }") {
        Ok(_) => None,
        Err(refusal) => refusal.stop,
    };
    let expected = Stop {
        expected: Expected::Operator(Within::Group),
        before: Some(19),
        open: Some(Opened { at: 11, line: 2 }),
    };
    assert_eq!(rt; stop, Some(expected));
    Ok(())
}
