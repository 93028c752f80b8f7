//! Long programs, and deep ones.

use source::fault::FaultKind;
use source_check::check;
use source_text::read_program;
use source_tokens::ProgramRefusal;
use std::alloc::{AllocError, Allocator, Global};
use std::io::{self, Write};
use std::test::Fail;

/// A sum is as long as it may be. Each term has two words and its operator, and each operator says where its right side begins.
#[test]
fn a_long_sum(rt: HostRuntime) -> Result<(), Fail> {
    let mut text = Vec::new(rt.alloc());
    text.extend_from_slice(b"fn main(n) { n")?;
    for _ in 0..100_000 {
        text.extend_from_slice(b" + n")?;
    }
    text.extend_from_slice(b" }")?;
    let source = read_program(rt.alloc(), &text)?;
    assert_eq!(rt; source.program.names.len(), 2);
    // Function, Parameter, Body, List, the first name, three words a term, Part, Give, EndFunction.
    assert_eq!(rt; source.program.words.len(), 300_008);
    Ok(())
}

/// A function that gives names to as many values in one `let`, and adds all of them.
fn with_names(alloc: Global, count: usize) -> io::Result<Vec<u8>> {
    let mut text = Vec::new(alloc);
    text.write_all(b"fn main(n) { let x")?;
    for name in 1..count {
        write!(text, ", x{name}")?;
    }
    text.write_all(b" = n")?;
    for _ in 1..count {
        text.write_all(b", n")?;
    }
    text.write_all(b"; x")?;
    for name in 1..count {
        write!(text, " + x{name}")?;
    }
    text.write_all(b" }")?;
    Ok(text)
}

/// The sum is as deep a tree as it is long, so what follows a tree would run out of stack here; and what searches names one by one, out
/// of time.
#[test]
fn many_names(rt: HostRuntime) -> Result<(), Fail> {
    let alloc = rt.alloc();
    let text = with_names(alloc, 5_000)?;
    let source = read_program(alloc, &text)?;
    assert_eq!(rt; source.program.names.len(), 5_002);
    assert!(rt; check(&alloc, text.len(), source.program).is_ok());
    Ok(())
}

/// What is open around a number: so many times the first part before it, and the second one after it.
fn nested<A: Allocator>(
    alloc: A,
    open: &[u8],
    close: &[u8],
    times: usize,
) -> Result<Vec<u8, A>, AllocError> {
    let mut text = Vec::new(alloc);
    text.extend_from_slice(b"fn main(n) { ")?;
    for _ in 0..times {
        text.extend_from_slice(open)?;
    }
    text.extend_from_slice(b"1")?;
    for _ in 0..times {
        text.extend_from_slice(close)?;
    }
    text.extend_from_slice(b" }")?;
    Ok(text)
}

/// The expression of the body is one, and each bracket opens one more.
#[test]
fn brackets(rt: HostRuntime) -> Result<(), Fail> {
    let text = nested(rt.alloc(), b"(", b")", 199)?;
    assert!(rt; read_program(rt.alloc(), &text).is_ok());
    let text = nested(rt.alloc(), b"(", b")", 200)?;
    match read_program(rt.alloc(), &text) {
        Ok(_) => assert!(rt; false, "201 are open"),
        Err(ProgramRefusal { fault, .. }) => {
            assert_eq!(rt; fault.kind, FaultKind::TooDeep);
            // The bracket that cannot be had is the last one.
            assert_eq!(rt; (fault.line, fault.column), (1, 13 + 200));
        }
    }
    Ok(())
}

/// A sign before an operand opens one more, but directly before a number it does not.
#[test]
fn signs(rt: HostRuntime) -> Result<(), Fail> {
    let text = nested(rt.alloc(), b"-", b"", 200)?;
    assert!(rt; read_program(rt.alloc(), &text).is_ok());
    let text = nested(rt.alloc(), b"-", b"", 201)?;
    match read_program(rt.alloc(), &text) {
        Ok(_) => assert!(rt; false, "201 are open"),
        Err(ProgramRefusal { fault, .. }) => {
            assert_eq!(rt; fault.kind, FaultKind::TooDeep);
            assert_eq!(rt; (fault.line, fault.column), (1, 13 + 201));
        }
    }
    Ok(())
}

/// Each `if` of a chain is open around those after it.
fn chain<A: Allocator>(alloc: A, ifs: usize) -> Result<Vec<u8, A>, AllocError> {
    let mut text = Vec::new(alloc);
    text.extend_from_slice(b"fn main(n) { ")?;
    for _ in 0..ifs {
        text.extend_from_slice(b"if n { 1 } else ")?;
    }
    text.extend_from_slice(b"{ 2 } }")?;
    Ok(text)
}

/// The expression of the body and a predicate are open too.
#[test]
fn a_long_chain(rt: HostRuntime) -> Result<(), Fail> {
    let text = chain(rt.alloc(), 198)?;
    let source = read_program(rt.alloc(), &text)?;
    // For each `if` the predicate, Then, List, 1, Part, Give, Else and EndIf; each but the first is a Chain.
    assert_eq!(rt; source.program.words.len(), 8 * 198 + 197 + 4 + 7);
    let text = chain(rt.alloc(), 199)?;
    match read_program(rt.alloc(), &text) {
        Ok(_) => assert!(rt; false, "201 are open"),
        Err(ProgramRefusal { fault, .. }) => {
            assert_eq!(rt; fault.kind, FaultKind::TooDeep);
            // The word `if` that cannot be had is the last one.
            assert_eq!(rt; (fault.line, fault.column), (1, 14 + 16 * 198));
        }
    }
    Ok(())
}
