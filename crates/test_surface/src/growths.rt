//! A long text, and growths that are refused.

use std::test::Fail;
use surface::fault::FaultKind;
use surface_text::read_program;
use surface_tokens::lex;
use test_inputs::rationed::{Rationed, is_next_refused};

/// A line of 40 bytes with 13 tokens.
const LINE: &[u8] = b"  for i in 0..n with s = 0 { /* s */ s }";

/// A text of a million bytes, and how many growths its tokens need.
#[test]
fn a_long_text(rt: HostRuntime) -> Result<(), Fail> {
    let mut program = Vec::new(rt.alloc());
    for _ in 0..25_000 {
        program.extend_from_slice(LINE)?;
    }
    let heap = Rationed::new(rt.alloc(), 0);
    let before = heap.left();
    let tokens = lex(&heap, &program)?;
    assert_eq!(rt; program.len(), 1_000_000);
    assert_eq!(rt; tokens.len(), 325_000);
    // Each growth takes one, and the room is doubled each time.
    let growths = before.wrapping_sub(heap.left());
    assert!(rt; 0 < growths && growths < 24, "{growths}");
    Ok(())
}

/// Each growth is refused in turn, until none is.
#[test]
fn refused_growths(rt: HostRuntime) -> Result<(), Fail> {
    let program =
        b"a for b in c..d with e and f or g /* h */ not i const j k l m n o p q r s t u v w x y z";
    let memory = FaultKind::Core {
        kind: source::fault::FaultKind::Memory,
    };
    let mut refused = 0u64;
    let mut whole = false;
    for growth in 1..100u64 {
        let heap = Rationed::new(rt.alloc(), growth);
        let fault = match lex(&heap, program) {
            Ok(_) => None,
            Err(fault) => Some(fault.kind),
        };
        whole = is_next_refused(&heap);
        if whole {
            assert_eq!(rt; fault, None, "{growth}");
            break;
        }
        assert_eq!(rt; fault, Some(memory), "{growth}");
        refused = refused.wrapping_add(1);
    }
    assert!(rt; whole && refused > 1);
    Ok(())
}

/// A program with each form.
const PROGRAM: &[u8] =
    b"const N = 2 * 4; array A[N, 3]; fn f(T[,], a, b) -> 2 { T[a, b] := 1; if a and b { not a }; a or b, b } \
    fn main(n) { let x, _ = f(A, n, 2); for N i in 0..n with s = x, t = 1 { s + i, if s { t } else { -t } } }";

/// Each growth of reading a whole text is refused in turn, until none is.
#[test]
fn refused_growths_of_a_program(rt: HostRuntime) -> Result<(), Fail> {
    let memory = FaultKind::Core {
        kind: source::fault::FaultKind::Memory,
    };
    let mut refused = 0u64;
    let mut whole = false;
    for growth in 1..100u64 {
        let heap = Rationed::new(rt.alloc(), growth);
        let fault = match read_program(&heap, PROGRAM) {
            Ok(_) => None,
            Err(refusal) => Some(refusal.fault.kind),
        };
        whole = is_next_refused(&heap);
        if whole {
            assert_eq!(rt; fault, None, "{growth}");
            break;
        }
        assert_eq!(rt; fault, Some(memory), "{growth}");
        refused = refused.wrapping_add(1);
    }
    assert!(rt; whole && refused > 10);
    Ok(())
}
