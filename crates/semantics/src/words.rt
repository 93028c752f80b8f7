//! The words of operators, as in a graph's text and in a listing.

ghost use Rattle.std.specs.Prelude.{◌≡◌, IfSome, Some};
ghost use Rattle.semantics.specs.Text.{unary_word, binary_word};
ghost use Rattle.semantics.specs.Words.{operator_word, operator_of};

use operators::{Binary, Unary};

/// An operator, with one or two operands.
#[derive(Clone, Copy, Debug, PartialEq, Eq)]
pub enum Operator {
    One(Unary),
    Two(Binary),
}

/// The word of an operator.
pub fn unary_word(op: Unary) -> &'static [u8]
    ensures { result.now ≡ unary_word op }
{
    match op {
        Unary::Neg => b"neg",
        Unary::Not => b"not",
    }
}

/// The word of an operator.
pub fn binary_word(op: Binary) -> &'static [u8]
    ensures { result.now ≡ binary_word op }
{
    match op {
        Binary::Add => b"add",
        Binary::Sub => b"sub",
        Binary::Mul => b"mul",
        Binary::Div => b"div",
        Binary::Rem => b"rem",
        Binary::And => b"and",
        Binary::Or => b"or",
        Binary::Xor => b"xor",
        Binary::Shl => b"shl",
        Binary::Shr => b"shr",
        Binary::Eq => b"eq",
        Binary::Ne => b"ne",
        Binary::Lt => b"lt",
        Binary::Le => b"le",
    }
}

/// The operator that the bytes are the word of.
#[tactic(auto, unfolding(crate::specs::Words::operator_of), using(crate::proofs::OperatorWords::operator_is, crate::proofs::OperatorWords::operator_again))]
pub fn operator_of(bytes: &[u8]) -> Option<Operator>
    ensures result { result ≡ operator_of bytes.now }
    ensures spelled { IfSome result (λ o. bytes.now ≡ operator_word o) }
    ensures complete { (o : Operator) → bytes.now ≡ operator_word o → result ≡ Some o }
{
    let operator = match bytes {
        b"neg" => Operator::One(Unary::Neg),
        b"not" => Operator::One(Unary::Not),
        b"add" => Operator::Two(Binary::Add),
        b"sub" => Operator::Two(Binary::Sub),
        b"mul" => Operator::Two(Binary::Mul),
        b"div" => Operator::Two(Binary::Div),
        b"rem" => Operator::Two(Binary::Rem),
        b"and" => Operator::Two(Binary::And),
        b"or" => Operator::Two(Binary::Or),
        b"xor" => Operator::Two(Binary::Xor),
        b"shl" => Operator::Two(Binary::Shl),
        b"shr" => Operator::Two(Binary::Shr),
        b"eq" => Operator::Two(Binary::Eq),
        b"ne" => Operator::Two(Binary::Ne),
        b"lt" => Operator::Two(Binary::Lt),
        b"le" => Operator::Two(Binary::Le),
        _ => return None,
    };
    Some(operator)
}
