//! Operators at the limits of their operands, and values as words.

use operators::{Binary, Unary, apply1, apply2, apply2_at, truth};
use std::test::Fail;
use tags::token::{Port, To};
use tags::value::{FaultKind, NodeNumber, Origin, Value};

fn range() -> Value {
    Value::Fault {
        kind: FaultKind::Range,
        origin: Origin::Untold,
    }
}

fn zero() -> Value {
    Value::Fault {
        kind: FaultKind::Zero,
        origin: Origin::Untold,
    }
}

#[test]
fn operators_at_their_corners(rt: HostRuntime) -> Result<(), Fail> {
    for (op, left, right, wanted) in [
        (Binary::Add, i64::MAX, 1, i64::MIN),
        (Binary::Sub, i64::MIN, 1, i64::MAX),
        (Binary::Mul, i64::MIN, -1, i64::MIN),
        (Binary::Div, i64::MIN, -1, i64::MIN),
        (Binary::Div, -7, 2, -3),
        (Binary::Rem, i64::MIN, -1, 0),
        (Binary::Rem, -7, 2, -1),
        (Binary::Rem, 7, -2, 1),
        (Binary::And, -4, 6, 4),
        (Binary::Or, -4, 1, -3),
        (Binary::Xor, -1, 5, -6),
        (Binary::Shl, 1, 65, 2),
        (Binary::Shl, 3, 63, i64::MIN),
        (Binary::Shr, -8, 1, -4),
        (Binary::Shr, -8, -1, -1),
        (Binary::Eq, 3, 3, 1),
        (Binary::Ne, 3, 3, 0),
        (Binary::Lt, -1, 0, 1),
        (Binary::Le, 0, -1, 0),
    ] {
        assert_eq!(rt;
            apply2(op, Value::Int(left), Value::Int(right)),
            Value::Int(wanted),
            "{op:?}"
        );
    }
    assert_eq!(rt;
        apply1(Unary::Neg, Value::Int(i64::MIN)),
        Value::Int(i64::MIN)
    );
    assert_eq!(rt; apply1(Unary::Not, Value::Int(5)), Value::Int(-6));
    Ok(())
}

#[test]
fn faults_pass_on_and_are_false(rt: HostRuntime) -> Result<(), Fail> {
    assert_eq!(rt; apply2(Binary::Add, range(), zero()), range());
    assert_eq!(rt; apply2(Binary::Add, Value::Int(1), zero()), zero());
    assert_eq!(rt; apply2(Binary::Div, Value::Int(1), Value::Int(0)), zero());
    assert_eq!(rt; apply1(Unary::Not, range()), range());
    assert!(rt; truth(Value::Int(-1)));
    assert!(rt; !truth(Value::Int(0)));
    assert!(rt; !truth(range()));
    Ok(())
}

#[test]
fn a_fault_tells_where_it_was_made(rt: HostRuntime) -> Result<(), Fail> {
    let origin = Origin::At {
        block: 255,
        node: NodeNumber::new(1023),
    };
    let fault = apply2_at(Binary::Rem, Value::Int(1), Value::Int(0), origin);
    let words = fault.pack();
    assert_eq!(rt; words[0], 1);
    assert_eq!(rt; words[1], 262_144);
    match Value::unpack([1, 262_144]) {
        Some(Value::Fault { kind, origin }) => {
            assert_eq!(rt; kind, FaultKind::Zero);
            assert_eq!(rt; origin.code(), 262_144);
        }
        _ => assert!(rt; false, "a fault"),
    }
    Ok(())
}

#[test]
fn values_as_words(rt: HostRuntime) -> Result<(), Fail> {
    for (value, words) in [
        (Value::Int(-1), [0, u64::MAX]),
        (Value::Int(5), [0, 5]),
        (zero(), [1, 0]),
        (range(), [2, 0]),
    ] {
        assert_eq!(rt; value.pack(), words);
        assert_eq!(rt; Value::unpack(words), Some(value));
    }
    for words in [[1, 262_145], [2, u64::MAX], [3, 0]] {
        assert_eq!(rt; Value::unpack(words), None);
    }
    let port = Port::Left;
    assert_eq!(rt;
        To::Instr {
            frame: 7,
            ip: 0,
            port
        }
        .element(4),
        3
    );
    assert_eq!(rt; To::Fetch { cell: 9 }.element(4), 1);
    assert_eq!(rt; To::Release { frame: 7 }.element(4), 0);
    Ok(())
}
