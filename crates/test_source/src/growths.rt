//! A long text, and growths that are refused.

use source::fault::{Fault, FaultKind};
use source_check::check;
use source_text::read_program;
use source_tokens::lex;
use std::test::Fail;
use test_inputs::rationed::{Rationed, is_next_refused};

/// A line of 40 bytes with 14 tokens.
const LINE: &[u8] = b"    let sum_1 = f(a, 1234) + b << 2; //\n";

/// A text of a million bytes, and how many growths its tokens need.
#[test]
fn a_long_text(rt: HostRuntime) -> Result<(), Fail> {
    let mut program = Vec::new(rt.alloc());
    for _ in 0..25_000 {
        program.extend_from_slice(LINE)?;
    }
    let heap = Rationed::new(rt.alloc(), 0);
    let before = heap.left();
    let tokens = lex(&heap, &program)?;
    assert_eq!(rt; program.len(), 1_000_000);
    assert_eq!(rt; tokens.len(), 350_000);
    // Each growth takes one, and the room is doubled each time.
    let growths = before.wrapping_sub(heap.left());
    assert!(rt; 0 < growths && growths < 24, "{growths}");
    Ok(())
}

/// Each growth is refused in turn, until none is.
#[test]
fn refused_growths(rt: HostRuntime) -> Result<(), Fail> {
    let program = b"a b c d e f g h i j k l m n o p q r s t u v w x y z 1 2 3 4 5 6 7 8";
    let mut refused = 0u64;
    let mut whole = false;
    for growth in 1..100u64 {
        let heap = Rationed::new(rt.alloc(), growth);
        let fault = match lex(&heap, program) {
            Ok(_) => None,
            Err(fault) => Some(fault.kind),
        };
        whole = is_next_refused(&heap);
        if whole {
            assert_eq!(rt; fault, None, "{growth}");
            break;
        }
        assert_eq!(rt; fault, Some(FaultKind::Memory), "{growth}");
        refused = refused.wrapping_add(1);
    }
    assert!(rt; whole && refused > 1);
    Ok(())
}

/// A program with arrays, functions and names of values.
const PROGRAM: &[u8] =
    b"array A[9]; fn f(a, b, c, d, e) { A[a] := b; a + b * c - d / e } fn main(n) { let x, y = n, 1; f(x, y, n, 2, 3) }";

/// Each growth of reading a whole text is refused in turn, until none is.
#[test]
fn refused_growths_of_a_program(rt: HostRuntime) -> Result<(), Fail> {
    let mut refused = 0u64;
    let mut whole = false;
    for growth in 1..100u64 {
        let heap = Rationed::new(rt.alloc(), growth);
        let fault = match read_program(&heap, PROGRAM) {
            Ok(_) => None,
            Err(refusal) => Some(refusal.fault.kind),
        };
        whole = is_next_refused(&heap);
        if whole {
            assert_eq!(rt; fault, None, "{growth}");
            break;
        }
        assert_eq!(rt; fault, Some(FaultKind::Memory), "{growth}");
        refused = refused.wrapping_add(1);
    }
    assert!(rt; whole && refused > 10);
    Ok(())
}

const NO_MEMORY: Fault = Fault {
    kind: FaultKind::Memory,
    at: 0,
};

/// Each growth of looking at the rules is refused in turn, until none is.
#[test]
fn refused_growths_of_a_check(rt: HostRuntime) -> Result<(), Fail> {
    let plenty = Rationed::new(rt.alloc(), 0);
    let mut refused = 0u64;
    let mut whole = false;
    for growth in 1..100u64 {
        let heap = Rationed::new(rt.alloc(), growth);
        let source = read_program(&plenty, PROGRAM)?;
        let fault = match check(&&heap, source.text.len(), source.program) {
            Ok(_) => None,
            Err(broken) => Some(broken.fault),
        };
        whole = is_next_refused(&heap);
        if whole {
            assert_eq!(rt; fault, None, "{growth}");
            break;
        }
        assert_eq!(rt; fault, Some(NO_MEMORY), "{growth}");
        refused = refused.wrapping_add(1);
    }
    assert!(rt; whole && refused > 1);
    Ok(())
}
